//! Why a station refuses a call.
ghost use Rattle.std.specs.Prelude.{◌≡◌};
ghost use Rattle.mux_station.specs.declared.error.StationError.TheVariants.{NoMemory};

use std::alloc::{AllocError, AllocFailed};
use thiserror::Error;

/// Why a station refuses a call. A refused call changes nothing.
#[derive(Clone, Copy, PartialEq, Eq, Debug, Error)]
pub enum StationError {
    /// 1: the connection, or connection 0, isn't Opened.
    #[error("the connection is not open")]
    NotOpen,
    /// 2: the connection is Opened.
    #[error("the connection is open already")]
    AlreadyOpen,
    /// 3: the connection is being opened, closed or stopped, or a probe waits.
    #[error("the connection is being opened or closed, or a probe waits")]
    Busy,
    /// 4: connection 0 can't be closed alone, and carries no data.
    #[error("connection 0 is the control channel")]
    ControlChannel,
    /// 5: memory was refused.
    #[error("out of memory")]
    NoMemory,
    /// 6: a probe has more than 16 octets.
    #[error("a probe has at most 16 octets")]
    TooLong,
    /// 7: no room in the control queue, or in the send ring.
    #[error("no room in the queue")]
    NoRoom,
    /// 8: N1 isn't 31 to 32767.
    #[error("N1 is 31 to 32767")]
    BadN1,
}

impl StationError {
    ghost use Rattle.std.specs.Prelude.{◌≡◌};
    ghost use Rattle.mux_station.specs.Numbers.{station_error_number};

    /// The number of this refusal.
    pub fn number(self) -> u8
        ensures { result ≡ station_error_number self }
    {
        match self {
            StationError::NotOpen => 1,
            StationError::AlreadyOpen => 2,
            StationError::Busy => 3,
            StationError::ControlChannel => 4,
            StationError::NoMemory => 5,
            StationError::TooLong => 6,
            StationError::NoRoom => 7,
            StationError::BadN1 => 8,
        }
    }
}

impl From<AllocError> for StationError {
    ghost from_gives = { λ _ e. e ≡ NoMemory };

    fn from(_error: AllocError) -> StationError {
        StationError::NoMemory
    }
}

impl<T: Drop> From<AllocFailed<T>> for StationError {
    ghost from_gives = { λ _ e. e ≡ NoMemory };

    fn from(_error: AllocFailed<T>) -> StationError {
        StationError::NoMemory
    }
}
