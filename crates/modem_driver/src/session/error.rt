//! Why a session isn't made, and how a turn fails.
ghost use Rattle.std.specs.Prelude.{◌≡◌};

use modem_core::CoreError;
use modem_desk::DriverEnd;
use serial_line::SerialLine;
use std::alloc::AllocError;
use thiserror::Error;

/// Why a session isn't made.
#[derive(Clone, Copy, PartialEq, Eq, Debug, Error)]
pub enum SessionError {
    /// 1: an allocation was refused.
    #[error("out of memory")]
    NoMemory,
    /// 2: N1 isn't 31 to 32767.
    #[error("N1 is 31 to 32767")]
    BadN1,
}

impl SessionError {
    ghost use Rattle.std.specs.Prelude.{◌≡◌};
    ghost use Rattle.modem_driver.specs.Numbers.{session_error_number};

    /// The number of this refusal.
    pub fn number(self) -> u8
        ensures { result ≡ session_error_number self }
    {
        match self {
            SessionError::NoMemory => 1,
            SessionError::BadN1 => 2,
        }
    }
}

impl From<AllocError> for SessionError {
    ghost use Rattle.modem_driver.specs.declared.session.error.SessionError.TheVariants.{NoMemory};

    ghost from_gives = { λ _ e. e ≡ NoMemory };

    fn from(_error: AllocError) -> SessionError {
        SessionError::NoMemory
    }
}

/// A session that wasn't made: its line and its desk's end are handed back as they were.
#[derive(Drop)]
pub struct SessionRefused<L: SerialLine> {
    pub why: SessionError,
    pub line: L,
    pub driver: DriverEnd,
}

/// How a turn or a tick fails.
#[derive(Clone, Copy, PartialEq, Eq, Debug, Error)]
pub enum SessionFault {
    /// 1: an allocation was refused. The acts so far stand. The data that needed the memory stays at hand. The next
    /// turn goes on.
    #[error("out of memory")]
    NoMemory,
    /// 2: the line failed, and is lost: every request in hand is told LineLost.
    #[error("the line failed")]
    Line,
    /// 3: the line was lost before.
    #[error("the line was lost before")]
    Failed,
}

impl SessionFault {
    ghost use Rattle.std.specs.Prelude.{◌≡◌};
    ghost use Rattle.modem_driver.specs.Numbers.{session_fault_number};

    /// The number of this refusal.
    pub fn number(self) -> u8
        ensures { result ≡ session_fault_number self }
    {
        match self {
            SessionFault::NoMemory => 1,
            SessionFault::Line => 2,
            SessionFault::Failed => 3,
        }
    }
}
