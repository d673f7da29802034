//! Why a command is refused, and why an answer is no reply.
use std::alloc::{AllocError, AllocFailed};
use thiserror::Error;

/// Why a command has no text, or wasn't read.
#[derive(Clone, Copy, Debug, PartialEq, Eq, Error)]
pub enum CmdError {
    /// 1: a PIN that isn't 4 to 8 digits.
    #[error("a PIN has 4 to 8 digits")]
    BadPin,
    /// 2: an access point's name that isn't 1 to 63 letters, digits, `.` and `-`.
    #[error("an access point's name has 1 to 63 letters, digits, dots and hyphens")]
    BadApn,
    /// 3: a number out of range, or an operator's number that isn't 5 or 6 digits.
    #[error("a number is out of range")]
    BadNumber,
    /// 4: memory was refused.
    #[error("out of memory")]
    NoMemory,
}

impl CmdError {
    ghost use Rattle.std.specs.Prelude.{◌≡◌};
    ghost use Rattle.at_cmds.specs.Numbers.{cmd_error_number};

    /// The number of this refusal.
    pub fn number(self) -> u8
        ensures { result ≡ cmd_error_number self }
    {
        match self {
            CmdError::BadPin => 1,
            CmdError::BadApn => 2,
            CmdError::BadNumber => 3,
            CmdError::NoMemory => 4,
        }
    }
}

impl From<AllocError> for CmdError {
    ghost use Rattle.std.specs.Prelude.{◌≡◌};
    ghost use Rattle.at_cmds.specs.declared.error.CmdError.TheVariants.{NoMemory};

    ghost from_gives = { λ _ e. e ≡ NoMemory };

    fn from(_refused: AllocError) -> CmdError {
        CmdError::NoMemory
    }
}

impl<T: Drop> From<AllocFailed<T>> for CmdError {
    ghost use Rattle.std.specs.Prelude.{◌≡◌};
    ghost use Rattle.at_cmds.specs.declared.error.CmdError.TheVariants.{NoMemory};

    ghost from_gives = { λ _ e. e ≡ NoMemory };

    fn from(_refused: AllocFailed<T>) -> CmdError {
        CmdError::NoMemory
    }
}

/// Why an answer's lines are no reply to a command.
#[derive(Clone, Copy, Debug, PartialEq, Eq, Error)]
pub enum ReplyFault {
    /// 1: the modem answered `+CME ERROR:` with this number, or with its text (27.007, 9.2).
    #[error("the modem answered with error {0}")]
    Cme(u32),
    /// 2: the modem answered `ERROR`, or a CME error without a number and of an unknown text.
    #[error("the modem answered with an error")]
    PlainError,
    /// 3: there is no final code at the end, or no line of the command's name.
    #[error("the answer has no reply")]
    Missing,
    /// 4: a line begins with the command's name but hasn't the form of its reply. This is the line's index, from 0.
    #[error("line {0} of the answer is malformed")]
    Malformed(usize),
    /// 5: memory was refused.
    #[error("out of memory")]
    NoMemory,
}

impl ReplyFault {
    ghost use Rattle.std.specs.Prelude.{◌≡◌};
    ghost use Rattle.at_cmds.specs.Numbers.{reply_fault_number};

    /// The number of this refusal.
    pub fn number(self) -> u8
        ensures { result ≡ reply_fault_number self }
    {
        match self {
            ReplyFault::Cme(_) => 1,
            ReplyFault::PlainError => 2,
            ReplyFault::Missing => 3,
            ReplyFault::Malformed(_) => 4,
            ReplyFault::NoMemory => 5,
        }
    }
}

impl From<AllocError> for ReplyFault {
    ghost use Rattle.std.specs.Prelude.{◌≡◌};
    ghost use Rattle.at_cmds.specs.declared.error.ReplyFault.TheVariants.{NoMemory};

    ghost from_gives = { λ _ e. e ≡ NoMemory };

    fn from(_refused: AllocError) -> ReplyFault {
        ReplyFault::NoMemory
    }
}

impl<T: Drop> From<AllocFailed<T>> for ReplyFault {
    ghost use Rattle.std.specs.Prelude.{◌≡◌};
    ghost use Rattle.at_cmds.specs.declared.error.ReplyFault.TheVariants.{NoMemory};

    ghost from_gives = { λ _ e. e ≡ NoMemory };

    fn from(_refused: AllocFailed<T>) -> ReplyFault {
        ReplyFault::NoMemory
    }
}
