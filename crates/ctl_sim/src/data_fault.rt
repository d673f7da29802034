//! Why a modem with files beside connections ends before its input does.
ghost use Rattle.std.specs.Prelude.{◌≡◌};
ghost use Rattle.ctl_sim.specs.DataSaying.{data_fault_words, file_words};
ghost use Rattle.ctl_sim.specs.declared.data_fault.DataFault.TheVariants as data_fault;

use crate::fault::ServeFault;
use file_threads::FileFault;

/// Why a modem with files beside connections ends before its input does, or isn't begun.
#[derive(Clone, Copy, Debug)]
pub enum DataFault {
    /// As without files.
    Served(ServeFault),
    /// A file or its threads can't be had.
    File(FileFault),
    /// More than 8 connections are to carry data, one of them is 0, or one is named twice.
    Connections,
    /// What came on a connection wasn't all written to its file.
    Unwritten,
}

/// What is said of a file that can't be had, but for its path and the cause.
fn file_words(fault: FileFault) -> &'static str
    ensures { result.now ≡ file_words fault }
{
    match fault {
        FileFault::NoMemory => ServeFault::NoMemory.words(),
        FileFault::NoThread => {
            "fault: no thread: the system starts no more of them, or has no memory for one"
        }
        FileFault::NoDevice(_) => "fault: a file of --data can't be opened",
        FileFault::NotSetUp => "fault: a file of --data is a regular file",
    }
}

impl DataFault {
    /// What is said of it, but for the path and the cause of what can't be opened.
    pub fn words(self) -> &'static str
        ensures { result.now ≡ data_fault_words self }
    {
        match self {
            DataFault::Served(fault) => fault.words(),
            DataFault::File(fault) => file_words(fault),
            DataFault::Connections => {
                "fault: at most 8 connections carry data, each named once, and not 0"
            }
            DataFault::Unwritten => {
                "fault: what came on a connection that carries data wasn't all written to its file"
            }
        }
    }
}

impl From<ServeFault> for DataFault {
    ghost from_gives = { λ why fault. fault ≡ data_fault.Served why };

    fn from(why: ServeFault) -> DataFault {
        DataFault::Served(why)
    }
}

impl From<FileFault> for DataFault {
    ghost from_gives = { λ why fault. fault ≡ data_fault.File why };

    fn from(why: FileFault) -> DataFault {
        DataFault::File(why)
    }
}
