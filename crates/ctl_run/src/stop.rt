//! Why a run ends without its output.
ghost use Rattle.std.specs.Prelude.{◌≡◌};
ghost use Rattle.ctl_run.specs.Statuses.{status_of, stop_at, stop_at_rule, stop_words};
ghost use Rattle.ctl_run.specs.declared.stop.Stop.TheVariants.{NoMemory};

use at_text::DialectError;
use ctl_text::{Clash, DialectRefusal, Expected, Refusal, RulePart};
use modem_bench::Cause;
use std::alloc::{AllocError, AllocFailed};
use std::{error, fmt};

/// Why a run ends without its whole output.
#[derive(Clone, Copy, Debug)]
pub enum Stop {
    /// A growth was refused.
    NoMemory,
    /// The reader failed, or gave no end.
    Input,
    /// The writer failed.
    Output,
    /// The line failed.
    Line,
    /// A bench didn't come to its end, for this cause.
    GaveUp(Cause),
    /// N1 isn't 31 to 32767.
    BadN1,
    /// Callers aren't 1 to 8.
    BadCallers,
    /// The octets that are under way each way aren't 1 to 4096.
    BadCut,
    /// This line of the input is bad, counted from 1, and this part of it is the first that isn't as it must be.
    BadLine(u64, Expected),
    /// A line of a dialect is bad.
    Dialect(DialectFault),
}

/// Why a text is none of a dialect.
#[derive(Clone, Copy, Debug)]
pub enum DialectFault {
    /// This line of its text says no rule, counted from 1. This part is the first that is wrong.
    NoRule(u64, RulePart),
    /// The rule of this line of its text is refused, counted from 1.
    Refused(u64, DialectError),
    /// The rule of this line of its text is refused, counted from 1, since it has a line in common with this.
    Clashes(u64, Option<Clash>),
}

impl Stop {
    /// The exit status: 1 for a fault, 2 for words or a line that are bad.
    pub fn status(self) -> u8
        ensures { result ≡ status_of self }
    {
        match self {
            Stop::NoMemory | Stop::Input | Stop::Output | Stop::Line | Stop::GaveUp(_) => 1,
            Stop::BadN1 | Stop::BadCallers | Stop::BadCut => 2,
            Stop::BadLine(..) | Stop::Dialect(_) => 2,
        }
    }

    /// What is said of it on a line, but for the number of a line of the input or of a dialect, which stands behind that.
    pub fn words(self) -> &'static str
        ensures { result.now ≡ stop_words self }
    {
        match self {
            Stop::NoMemory => "fault: no memory",
            Stop::Input => "fault: input",
            Stop::Output => "fault: output",
            Stop::Line => "fault: line",
            Stop::GaveUp(_) => "fault: gave up",
            Stop::BadN1 => "error: N1 is 31 to 32767",
            Stop::BadCallers => "error: callers are 1 to 8",
            Stop::BadCut => "error: the cut is 1 to 4096",
            Stop::BadLine(..) | Stop::Dialect(_) => "bad line ",
        }
    }

    /// The end of a run at this line, counted from 1, where it isn't read.
    pub fn at_line(place: u64, refusal: Refusal) -> Stop
        ensures { result ≡ stop_at place refusal }
    {
        match refusal {
            Refusal::Bad(fault) => Stop::BadLine(place, fault),
            Refusal::NoMemory => Stop::NoMemory,
        }
    }
}

impl fmt::Display for Stop {
    ghost use Rattle.std.specs.Prelude.{Some};
    ghost use Rattle.ctl_run.specs.Statuses.{stop_text};

    ghost output = { λ stop. Some (stop_text stop) };

    fn fmt<W: fmt::Write>(&self, f: &mut fmt::Formatter<W>) -> fmt::Result {
        let words = self.words();
        match self {
            Stop::BadLine(place, _)
            | Stop::Dialect(
                DialectFault::NoRule(place, _)
                | DialectFault::Refused(place, _)
                | DialectFault::Clashes(place, _),
            ) => { write!(f, "{words}{place}") }
            _ => f.write_str(words),
        }
    }
}

impl error::Error for Stop {}

impl From<DialectRefusal> for Stop {
    ghost from_gives = { λ refusal stop. stop ≡ stop_at_rule refusal };

    fn from(refusal: DialectRefusal) -> Stop {
        match refusal {
            DialectRefusal::NoRule(place, part) => {
                Stop::Dialect(DialectFault::NoRule(place, part))
            }
            DialectRefusal::Refused(place, why) => Stop::Dialect(DialectFault::Refused(place, why)),
            DialectRefusal::Clashes(place, found) => {
                Stop::Dialect(DialectFault::Clashes(place, found))
            }
            DialectRefusal::NoMemory => Stop::NoMemory,
        }
    }
}

impl From<AllocError> for Stop {
    ghost from_gives = { λ _ e. e ≡ NoMemory };

    fn from(_error: AllocError) -> Stop {
        Stop::NoMemory
    }
}

impl<T: Drop> From<AllocFailed<T>> for Stop {
    ghost from_gives = { λ _ e. e ≡ NoMemory };

    fn from(_error: AllocFailed<T>) -> Stop {
        Stop::NoMemory
    }
}
