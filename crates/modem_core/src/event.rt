//! The events of a replay.
ghost use Rattle.std.specs.Prelude.{◌≡◌};

use modem_desk::Request;
use std::marker::Model;

/// Octets of the line.
#[derive(Drop)]
pub struct Octets {
    octets: Vec<u8>,
}

impl Model for Octets {
    ghost use Rattle.std.specs.Prelude.{ℕ, List};

    ghost Value = { List ℕ };

    ghost view = { λ o. o.octets.items };
}

impl Octets {
    /// These octets.
    pub fn from_vec(octets: Vec<u8>) -> Octets
        ensures { result ≡ octets.items }
    {
        Octets { octets }
    }

    /// The octets, lent.
    pub fn as_slice(&self) -> &[u8]
        ensures { result.now ≡ self.now }
    {
        self.octets.as_slice()
    }

    /// The octets, without taking memory.
    pub fn into_vec(self) -> Vec<u8>
        ensures { result.items ≡ self }
    {
        let Octets { octets } = self;
        octets
    }
}

/// One event of a replay.
#[derive(Drop)]
pub enum Event {
    /// A caller's request.
    Ask(Request),
    /// Octets come from the line.
    Octets(Octets),
    /// One T1 has passed (3GPP TS 27.010, 5.7.1).
    Tick,
    /// The line is lost.
    Lost,
}
