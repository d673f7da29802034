//! Why a line of an input isn't read.
ghost use Rattle.std.specs.Prelude.{◌≡◌};
ghost use Rattle.hex.specs.declared.error.FromHexError.TheVariants.{OutOfMemory};
ghost use Rattle.at_text.specs.declared.error.TextError.TheVariants as TextError;
ghost use Rattle.ctl_text.specs.LineFaults.{IsToldAs};
ghost use Rattle.ctl_text.specs.declared.expected.Expected.TheVariants as Fault;
ghost use Rattle.ctl_text.specs.declared.refusal.Refusal.TheVariants as Refused;

use crate::expected::Expected;
use at_text::TextError;
use hex::FromHexError;
use std::alloc::{AllocError, AllocFailed};

/// Why a line of an input isn't read.
#[derive(Clone, Copy, Debug)]
pub enum Refusal {
    /// It is bad, and this part of it is the first that isn't as it must be.
    Bad(Expected),
    /// Memory was refused.
    NoMemory,
}

impl From<AllocError> for Refusal {
    ghost from_gives = { λ _ refusal. refusal ≡ Refused.NoMemory };

    fn from(_error: AllocError) -> Refusal {
        Refusal::NoMemory
    }
}

impl<T: Drop> From<AllocFailed<T>> for Refusal {
    ghost from_gives = { λ _ refusal. refusal ≡ Refused.NoMemory };

    fn from(_error: AllocFailed<T>) -> Refusal {
        Refusal::NoMemory
    }
}

/// Octets that can't be read.
impl From<FromHexError> for Refusal {
    ghost from_gives = { λ error refusal. IsToldAs OutOfMemory error Fault.Octets refusal };

    fn from(error: FromHexError) -> Refusal {
        match error {
            FromHexError::OutOfMemory => Refusal::NoMemory,
            _ => Refusal::Bad(Expected::Octets),
        }
    }
}

/// A command line that can't be read.
impl From<TextError> for Refusal {
    ghost from_gives = { λ error refusal. IsToldAs TextError.NoMemory error Fault.Command refusal };

    fn from(error: TextError) -> Refusal {
        match error {
            TextError::NoMemory => Refusal::NoMemory,
            _ => Refusal::Bad(Expected::Command),
        }
    }
}
