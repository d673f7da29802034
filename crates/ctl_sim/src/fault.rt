//! Why a modem for a client ends before its input does, or isn't begun.
ghost use Rattle.std.specs.Prelude.{◌≡◌};
ghost use Rattle.ctl_sim.specs.Saying.{fault_words, option_words};
ghost use Rattle.ctl_sim.specs.declared.fault.ServeFault.TheVariants.{NoMemory};

use std::alloc::{AllocError, AllocFailed};
use std::{error, fmt};

/// Why a modem for a client ends before its input does.
#[derive(Clone, Copy, Debug)]
pub enum ServeFault {
    /// Memory was refused.
    NoMemory,
    /// The reader failed.
    Input,
    /// The reader gave no end: 2^64 - 1 reads gave octets, or as many in a row were interrupted.
    EndlessInput,
    /// The writer failed.
    Output,
    /// The capture can't be written. All else was done.
    Capture,
    /// The simulated modem made 2^64 - 1 turns to what had come, and was at no end.
    EndlessModem,
}

/// Why a modem for a client isn't begun.
#[derive(Clone, Copy, Debug)]
pub enum BadOption {
    /// N1 isn't 31 to 32767.
    N1,
    /// The PIN isn't 4 to 8 digits.
    Pin,
}

impl ServeFault {
    /// What is said of it.
    pub fn words(self) -> &'static str
        ensures { result.now ≡ fault_words self }
    {
        match self {
            ServeFault::NoMemory => "fault: no memory",
            ServeFault::Input => "fault: input",
            ServeFault::EndlessInput => "fault: gave up: the input has no end",
            ServeFault::Output => "fault: output",
            ServeFault::Capture => "fault: capture",
            ServeFault::EndlessModem => {
                "fault: gave up: the simulated modem goes on without an end"
            }
        }
    }
}

impl BadOption {
    /// What is said of it.
    pub fn words(self) -> &'static str
        ensures { result.now ≡ option_words self }
    {
        match self {
            BadOption::N1 => "error: N1 is 31 to 32767",
            BadOption::Pin => "error: a PIN is 4 to 8 digits",
        }
    }
}

impl fmt::Display for ServeFault {
    ghost use Rattle.std.specs.Prelude.{Some};

    ghost output = { λ fault. Some (fault_words fault) };

    fn fmt<W: fmt::Write>(&self, f: &mut fmt::Formatter<W>) -> fmt::Result {
        f.write_str(self.words())
    }
}

impl error::Error for ServeFault {}

impl fmt::Display for BadOption {
    ghost use Rattle.std.specs.Prelude.{Some};

    ghost output = { λ why. Some (option_words why) };

    fn fmt<W: fmt::Write>(&self, f: &mut fmt::Formatter<W>) -> fmt::Result {
        f.write_str(self.words())
    }
}

impl error::Error for BadOption {}

impl From<AllocError> for ServeFault {
    ghost from_gives = { λ _ e. e ≡ NoMemory };

    fn from(_refused: AllocError) -> ServeFault {
        ServeFault::NoMemory
    }
}

impl<T: Drop> From<AllocFailed<T>> for ServeFault {
    ghost from_gives = { λ _ e. e ≡ NoMemory };

    fn from(_refused: AllocFailed<T>) -> ServeFault {
        ServeFault::NoMemory
    }
}
