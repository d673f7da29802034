//! Information of frames.
ghost use Rattle.std.specs.Prelude.{◌≡◌, IfOk};

use std::alloc::AllocError;
use std::marker::Model;

/// The information of a frame: octets that a frame carries (27.010, 5.2.1.4).
#[derive(Drop)]
pub struct Info {
    octets: Vec<u8>,
}

impl Model for Info {
    ghost use Rattle.std.specs.Prelude.{ℕ, List};

    ghost Value = { List ℕ };

    ghost view = { λ i. i.octets.items };
}

impl Info {
    /// These octets.
    pub fn from_vec(octets: Vec<u8>) -> Info
        ensures { result ≡ octets.items }
    {
        Info { octets }
    }

    /// Its octets.
    pub fn as_slice(&self) -> &[u8]
        ensures { result.now ≡ self.now }
    {
        self.octets.as_slice()
    }

    /// Its octets, in the memory that they have.
    pub fn into_vec(self) -> Vec<u8>
        ensures { result.items ≡ self }
    {
        let Info { octets } = self;
        octets
    }

    /// A copy of the octets.
    pub fn copy(&self) -> Result<Info, AllocError>
        ensures { IfOk result (λ copy. copy ≡ self.now) }
    {
        let octets = self.octets.clone()?;
        Ok(Info { octets })
    }
}
