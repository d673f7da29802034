//! Why the core refuses a call.
ghost use Rattle.std.specs.Prelude.{◌≡◌};
ghost use Rattle.modem_core.specs.declared.error.CoreError.TheVariants.{NoMemory};

use std::alloc::{AllocError, AllocFailed};
use thiserror::Error;

/// Why the core refuses a call. A refused call changes nothing.
#[derive(Clone, Copy, PartialEq, Eq, Debug, Error)]
pub enum CoreError {
    /// 1: an allocation was refused.
    #[error("out of memory")]
    NoMemory,
    /// 2: N1 isn't 31 to 32767.
    #[error("N1 is 31 to 32767")]
    BadN1,
    /// 3: no place in the control queue.
    #[error("no room in the control queue")]
    NoRoom,
}

impl CoreError {
    ghost use Rattle.std.specs.Prelude.{◌≡◌};
    ghost use Rattle.modem_core.specs.Numbers.{core_error_number};

    /// The number of this refusal.
    pub fn number(self) -> u8
        ensures { result ≡ core_error_number self }
    {
        match self {
            CoreError::NoMemory => 1,
            CoreError::BadN1 => 2,
            CoreError::NoRoom => 3,
        }
    }
}

impl From<AllocError> for CoreError {
    ghost from_gives = { λ _ e. e ≡ NoMemory };

    fn from(_error: AllocError) -> CoreError {
        CoreError::NoMemory
    }
}

impl<T: Drop> From<AllocFailed<T>> for CoreError {
    ghost from_gives = { λ _ e. e ≡ NoMemory };

    fn from(_error: AllocFailed<T>) -> CoreError {
        CoreError::NoMemory
    }
}
