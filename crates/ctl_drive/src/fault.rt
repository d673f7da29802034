//! Why a drive ends with a fault.
ghost use Rattle.std.specs.Prelude.{◌≡◌, option_map};
ghost use Rattle.ctl_drive.specs.declared.fault.DriveFault.TheVariants.{NoMemory};
ghost use Rattle.ctl_drive.specs.Faults.{entry_fault, fault_head, fault_words, file_fault, give_up_words};

use file_threads::FileFault;
use modem_driver::EntryError;
use std::alloc::{AllocError, AllocFailed};
use std::io::ErrorKind;
use std::{error, fmt};

/// Why a drive gives up.
#[derive(Clone, Copy, Debug)]
pub enum GiveUp {
    /// The input had 2^64 - 1 lines, or a connection had so many, and another came.
    Lines,
    /// An outcome came of a line that isn't under way.
    Outcome,
    /// The desk wasn't empty after 100,000 passes, or a line was left in it that was announced.
    Desk,
    /// The desk took no more requests, though few were under way.
    Full,
    /// The session stopped, though nobody asked it to.
    Unasked,
}

impl GiveUp {
    fn words(self) -> &'static str
        ensures { result.now ≡ give_up_words self }
    {
        match self {
            GiveUp::Lines => "fault: gave up: more than 2^64 - 1 lines came",
            GiveUp::Outcome => "fault: gave up: an outcome came of a line that isn't under way",
            GiveUp::Desk => "fault: gave up: the desk wasn't empty after 100,000 passes",
            GiveUp::Full => "fault: gave up: the desk took no more requests",
            GiveUp::Unasked => "fault: gave up: the session stopped, though nobody asked it to",
        }
    }
}

/// Why a drive ends with a fault.
#[derive(Clone, Copy, Debug)]
pub enum DriveFault {
    /// A growth was refused.
    NoMemory,
    /// A thread can't be started.
    NoThread,
    /// The reader of the input failed. All that came before was submitted and told.
    Input,
    /// The writer failed.
    Output,
    /// The device can't be opened, for this reason.
    NoDevice(ErrorKind),
    /// The device is a regular file, or failed or ended before the multiplexer was entered.
    NotSetUp,
    /// The modem refused to enter the multiplexer.
    Refused,
    /// The modem didn't answer.
    NoAnswer,
    /// The modem didn't open connection 0.
    NotOpened,
    /// The modem ended the multiplexer by itself.
    Closed,
    /// The line was lost.
    HungUp,
    /// A command had no answer for as long as the settings say, and the modem didn't answer the closing of its connection.
    Silent,
    /// The file of the capture can't be made, for this reason.
    NoCapture(ErrorKind),
    /// The capture can't be written. All else was done.
    Capture,
    /// More than 8 connections are to carry data, one of them is 0, or one is named twice.
    Data,
    /// What came on a connection wasn't all written to its file.
    Unwritten,
    /// It didn't come to its end.
    GaveUp(GiveUp),
}

impl DriveFault {
    /// What is said of it, but for the path and the cause of what can't be opened or made.
    pub fn words(self) -> &'static str
        ensures { result.now ≡ fault_words self }
    {
        match self {
            DriveFault::NoMemory => "fault: no memory",
            DriveFault::NoThread => {
                "fault: no thread: the system starts no more of them, or has no memory for one"
            }
            DriveFault::Input => "fault: input",
            DriveFault::Output => "fault: output",
            DriveFault::NoDevice(_) => "fault: the device can't be opened",
            DriveFault::NotSetUp => {
                "fault: not a terminal that is set up, or one that ended before the modem answered; to set one up: stty -F DEVICE raw -echo min 0 time 1 -crtscts clocal -hupcl"
            }
            DriveFault::Refused => {
                "fault: refused: the modem didn't answer OK to the text that enters the multiplexer (--entry gives another)"
            }
            DriveFault::NoAnswer => {
                "fault: no answer to the text that enters the multiplexer, in three tries: is it the modem's port for AT commands, and its speed right?"
            }
            DriveFault::NotOpened => {
                "fault: connection 0 isn't open: the modem entered the multiplexer, and refused it or didn't answer"
            }
            DriveFault::Closed => {
                "fault: the modem ended the multiplexer: commands without an answer were told so"
            }
            DriveFault::HungUp => {
                "fault: hung up: the line was lost, and commands without an answer were told so"
            }
            DriveFault::Silent => {
                "fault: the modem stopped answering: a command had no answer for as long as --quiet-for says, and the closing of its connection had none"
            }
            DriveFault::NoCapture(_) => "fault: the capture can't be made",
            DriveFault::Capture => "fault: capture",
            DriveFault::Data => {
                "fault: at most 8 connections carry data, each named once, and not 0"
            }
            DriveFault::Unwritten => {
                "fault: what came on a connection that carries data wasn't all written to its file"
            }
            DriveFault::GaveUp(why) => why.words(),
        }
    }

    /// Of NoDevice, NotSetUp and NoCapture the beginning of the line that says it, up to the path. `None` of any other fault.
    pub fn head(self) -> Option<&'static str>
        ensures { option_map (λ head. head.now) result ≡ fault_head self }
    {
        match self {
            DriveFault::NoDevice(_) => Some("fault: the device "),
            DriveFault::NotSetUp => Some("fault: "),
            DriveFault::NoCapture(_) => Some("fault: the capture "),
            _ => None,
        }
    }
}

impl fmt::Display for DriveFault {
    ghost use Rattle.ctl_drive.specs.Faults.{fault_text};

    ghost output = { λ fault. fault_text fault };

    fn fmt<W: fmt::Write>(&self, f: &mut fmt::Formatter<W>) -> fmt::Result {
        let words = self.words();
        match self {
            DriveFault::NoDevice(why) | DriveFault::NoCapture(why) => write!(f, "{words}: {why}"),
            _ => f.write_str(words),
        }
    }
}

impl error::Error for DriveFault {}

impl From<AllocError> for DriveFault {
    ghost from_gives = { λ _ fault. fault ≡ NoMemory };

    fn from(_error: AllocError) -> DriveFault {
        DriveFault::NoMemory
    }
}

impl<T: Drop> From<AllocFailed<T>> for DriveFault {
    ghost from_gives = { λ _ fault. fault ≡ NoMemory };

    fn from(_error: AllocFailed<T>) -> DriveFault {
        DriveFault::NoMemory
    }
}

impl From<FileFault> for DriveFault {
    ghost from_gives = { λ why fault. fault ≡ file_fault why };

    fn from(why: FileFault) -> DriveFault {
        match why {
            FileFault::NoMemory => DriveFault::NoMemory,
            FileFault::NoThread => DriveFault::NoThread,
            FileFault::NoDevice(kind) => DriveFault::NoDevice(kind),
            FileFault::NotSetUp => DriveFault::NotSetUp,
        }
    }
}

impl From<EntryError> for DriveFault {
    ghost from_gives = { λ error fault. fault ≡ entry_fault error };

    fn from(error: EntryError) -> DriveFault {
        match error {
            EntryError::Refused => DriveFault::Refused,
            EntryError::NoAnswer => DriveFault::NoAnswer,
            EntryError::Line => DriveFault::NotSetUp,
        }
    }
}
