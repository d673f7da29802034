//! What calls on frames refuse.
ghost use Rattle.std.specs.Prelude.{◌≡◌};
ghost use Rattle.mux_frame.specs.declared.error.FrameError.TheVariants.{NoMemory};

use std::alloc::{AllocError, AllocFailed};
use thiserror::Error;

/// What calls on frames refuse.
#[derive(Clone, Copy, PartialEq, Eq, Debug, Error)]
pub enum FrameError {
    /// 1: information longer than N1 or than 32767, or information in a kind other than UIH.
    #[error("the frame has too much information")]
    TooLong,
    /// 2: memory was refused.
    #[error("no memory")]
    NoMemory,
    /// 3: N1 isn't 31 to 32767.
    #[error("N1 is not 31 to 32767")]
    BadN1,
}

impl FrameError {
    ghost use Rattle.std.specs.Prelude.{◌≡◌};
    ghost use Rattle.mux_frame.specs.Numbers.{frame_error_number};

    /// The number of this refusal.
    pub fn number(self) -> u8
        ensures { result ≡ frame_error_number self }
    {
        match self {
            FrameError::TooLong => 1,
            FrameError::NoMemory => 2,
            FrameError::BadN1 => 3,
        }
    }
}

impl From<AllocError> for FrameError {
    ghost from_gives = { λ _ e. e ≡ NoMemory };

    fn from(_error: AllocError) -> FrameError {
        FrameError::NoMemory
    }
}

impl<T: Drop> From<AllocFailed<T>> for FrameError {
    ghost from_gives = { λ _ e. e ≡ NoMemory };

    fn from(_error: AllocFailed<T>) -> FrameError {
        FrameError::NoMemory
    }
}
