//! Why a request isn't taken.
ghost use Rattle.std.specs.Prelude.{◌≡◌};

use modem_desk::Ask;
use thiserror::Error;

/// Why a request isn't taken.
#[derive(Clone, Copy, PartialEq, Eq, Debug, Error)]
pub enum RequestError {
    /// 1: an allocation was refused.
    #[error("out of memory")]
    NoMemory,
    /// 2: the requests in hand and the outcomes that wait are 128, or all numbers are used up.
    #[error("too many requests")]
    Full,
}

impl RequestError {
    ghost use Rattle.std.specs.Prelude.{◌≡◌};
    ghost use Rattle.modem_driver.specs.Numbers.{request_error_number};

    /// The number of this refusal.
    pub fn number(self) -> u8
        ensures { result ≡ request_error_number self }
    {
        match self {
            RequestError::NoMemory => 1,
            RequestError::Full => 2,
        }
    }
}

/// A request that wasn't taken: what it asks for is handed back.
#[derive(Drop)]
pub struct RequestRefused {
    pub why: RequestError,
    pub ask: Ask,
}

impl RequestRefused {
    /// A refusal for this reason.
    pub(crate) fn new(why: RequestError, ask: Ask) -> RequestRefused
        ensures { result ≡ record { why = why; ask = ask } }
    {
        RequestRefused { why, ask }
    }
}
