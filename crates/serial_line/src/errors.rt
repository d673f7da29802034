//! Why a line can't be made.
ghost use Rattle.std.specs.Prelude.{◌≡◌};
ghost use Rattle.serial_line.specs.declared.errors.LineError.TheVariants.{NoMemory};

use std::alloc::AllocError;
use thiserror::Error;

/// Why a line can't be made.
#[derive(Clone, Copy, Debug, PartialEq, Eq, Error)]
pub enum LineError {
    /// 1: memory was refused.
    #[error("out of memory")]
    NoMemory,
    /// 2: the room isn't 1 to 65536 octets each way.
    #[error("a line between threads has room for 1 to 65536 octets")]
    BadRoom,
}

impl LineError {
    ghost use Rattle.std.specs.Prelude.{◌≡◌};
    ghost use Rattle.serial_line.specs.Numbers.{line_error_number};

    /// The number of this refusal.
    pub fn number(self) -> u8
        ensures { result ≡ line_error_number self }
    {
        match self {
            LineError::NoMemory => 1,
            LineError::BadRoom => 2,
        }
    }
}

impl From<AllocError> for LineError {
    ghost from_gives = { λ _ e. e ≡ NoMemory };

    fn from(_error: AllocError) -> LineError {
        LineError::NoMemory
    }
}
