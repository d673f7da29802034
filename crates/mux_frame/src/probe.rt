//! Data of probes.
ghost use Rattle.std.specs.Prelude.{◌≡◌, ◌≤◌, length};
ghost use Rattle.std.specs.Option.{SomeIff};

use arrayvec::ArrayVec;
use std::marker::Model;

/// The data of a probe, a Test command (27.010, 5.4.6.3.4): at most 16 octets.
#[derive(Drop)]
pub struct ProbeData {
    octets: ArrayVec<u8, 16>,
}

impl Model for ProbeData {
    ghost use Rattle.std.specs.Prelude.{ℕ, List};

    ghost Value = { List ℕ };

    ghost view = { λ p. p.octets.items };
}

impl ProbeData {
    /// A probe with these octets; `None` where they are more than 16.
    pub fn new(octets: &[u8]) -> Option<ProbeData>
        ensures { SomeIff result (length octets.now ≤ 16) octets.now }
    {
        let mut kept = ArrayVec::new();
        match kept.try_extend_from_slice(octets) {
            Ok(()) => Some(ProbeData { octets: kept }),
            Err(_) => None,
        }
    }

    /// Its octets.
    pub fn octets(&self) -> &[u8]
        ensures octets { result.now ≡ self.now }
        ensures short { length result.now ≤ 16 }
    {
        self.octets.as_slice()
    }
}
