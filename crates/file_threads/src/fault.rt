//! Why a file, a device or its threads can't be had.
ghost use Rattle.std.specs.Prelude.{◌≡◌};
ghost use Rattle.file_threads.specs.declared.fault.FileFault.TheVariants.{NoMemory, NoThread};

use std::alloc::{AllocError, AllocFailed};
use std::io::ErrorKind;
use std::thread::SpawnError;

/// Why a file, a device or its threads can't be had.
#[derive(Clone, Copy, Debug)]
pub enum FileFault {
    /// A growth was refused.
    NoMemory,
    /// A thread can't be started.
    NoThread,
    /// It can't be opened, for this reason.
    NoDevice(ErrorKind),
    /// The device is a regular file.
    NotSetUp,
}

impl From<AllocError> for FileFault {
    ghost from_gives = { λ _ fault. fault ≡ NoMemory };

    fn from(_error: AllocError) -> FileFault {
        FileFault::NoMemory
    }
}

impl<T: Drop> From<AllocFailed<T>> for FileFault {
    ghost from_gives = { λ _ fault. fault ≡ NoMemory };

    fn from(_error: AllocFailed<T>) -> FileFault {
        FileFault::NoMemory
    }
}

impl<F: Drop> From<SpawnError<F>> for FileFault {
    ghost from_gives = { λ _ fault. fault ≡ NoThread };

    fn from(_error: SpawnError<F>) -> FileFault {
        FileFault::NoThread
    }
}
