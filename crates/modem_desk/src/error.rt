//! Why the desk refuses.
use std::alloc::{AllocError, AllocFailed};
use thiserror::Error;

/// Why a request wasn't submitted.
#[derive(Clone, Copy, Debug, PartialEq, Eq, Error)]
pub enum SubmitError {
    /// 1: the queue holds 64 requests.
    #[error("the request queue is full")]
    Full,
    /// 2: the caller has 16 requests whose outcomes it hasn't taken.
    #[error("too many outcomes are untaken")]
    TooMany,
    /// 3: the caller has used up the last number.
    #[error("the numbers are used up")]
    Exhausted,
}

impl SubmitError {
    ghost use Rattle.std.specs.Prelude.{◌≡◌};
    ghost use Rattle.modem_desk.specs.Numbers.{submit_error_number};

    /// The number of this refusal.
    pub fn number(self) -> u8
        ensures { result ≡ submit_error_number self }
    {
        match self {
            SubmitError::Full => 1,
            SubmitError::TooMany => 2,
            SubmitError::Exhausted => 3,
        }
    }
}

/// Why a desk wasn't opened or settled.
#[derive(Clone, Copy, Debug, PartialEq, Eq, Error)]
pub enum DeskError {
    /// 1: memory was refused.
    #[error("out of memory")]
    NoMemory,
    /// 2: not 1 to 8 callers, a kind given twice, or a first number of 0.
    #[error("a desk has 1 to 8 callers, one listener for a kind, and numbers from 1")]
    BadCount,
}

impl DeskError {
    ghost use Rattle.std.specs.Prelude.{◌≡◌};
    ghost use Rattle.modem_desk.specs.Numbers.{desk_error_number};

    /// The number of this refusal.
    pub fn number(self) -> u8
        ensures { result ≡ desk_error_number self }
    {
        match self {
            DeskError::NoMemory => 1,
            DeskError::BadCount => 2,
        }
    }
}

impl From<AllocError> for DeskError {
    ghost use Rattle.std.specs.Prelude.{◌≡◌};
    ghost use Rattle.modem_desk.specs.declared.error.DeskError.TheVariants.{NoMemory};

    ghost from_gives = { λ _ e. e ≡ NoMemory };

    fn from(_refused: AllocError) -> DeskError {
        DeskError::NoMemory
    }
}

impl<T: Drop> From<AllocFailed<T>> for DeskError {
    ghost use Rattle.std.specs.Prelude.{◌≡◌};
    ghost use Rattle.modem_desk.specs.declared.error.DeskError.TheVariants.{NoMemory};

    ghost from_gives = { λ _ e. e ≡ NoMemory };

    fn from(_refused: AllocFailed<T>) -> DeskError {
        DeskError::NoMemory
    }
}
