//! Why a text was refused.
use std::alloc::{AllocError, AllocFailed};
use thiserror::Error;

/// Why a text was refused, or not kept.
#[derive(Clone, Copy, Debug, PartialEq, Eq, Error)]
pub enum TextError {
    /// 1: it doesn't begin with `AT` or `at`.
    #[error("a command line begins with AT or at")]
    NoAt,
    /// 2: one of its octets lies outside 20 to 7E hex.
    #[error("a command line has the octets 20 to 7E hex alone")]
    BadOctet,
    /// 3: it has more than 256 octets.
    #[error("a command line has at most 256 octets")]
    TooLong,
    /// 4: memory was refused.
    #[error("out of memory")]
    NoMemory,
}

impl TextError {
    ghost use Rattle.std.specs.Prelude.{◌≡◌};
    ghost use Rattle.at_text.specs.Numbers.{text_error_number};

    /// The number of this refusal.
    pub fn number(self) -> u8
        ensures { result ≡ text_error_number self }
    {
        match self {
            TextError::NoAt => 1,
            TextError::BadOctet => 2,
            TextError::TooLong => 3,
            TextError::NoMemory => 4,
        }
    }
}

impl From<AllocError> for TextError {
    ghost use Rattle.std.specs.Prelude.{◌≡◌};
    ghost use Rattle.at_text.specs.declared.error.TextError.TheVariants.{NoMemory};

    ghost from_gives = { λ _ e. e ≡ NoMemory };

    fn from(_refused: AllocError) -> TextError {
        TextError::NoMemory
    }
}
