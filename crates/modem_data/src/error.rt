//! What calls on data refuse.
ghost use Rattle.std.specs.Prelude.{◌≡◌};
ghost use Rattle.modem_data.specs.declared.error.DataError.TheVariants.{NoMemory};

use std::alloc::AllocError;
use thiserror::Error;

/// Why a call on data is refused. A refused call changes nothing.
#[derive(Clone, Copy, PartialEq, Eq, Debug, Error)]
pub enum DataError {
    /// 1: memory was refused.
    #[error("out of memory")]
    NoMemory,
    /// 2: N1 isn't 31 to 32767.
    #[error("N1 is 31 to 32767")]
    BadN1,
    /// 3: connection 0 carries no data.
    #[error("connection 0 is the control channel")]
    ControlChannel,
    /// 4: a connection was named twice.
    #[error("the connection is named twice")]
    Twice,
    /// 5: more than 8 connections were named.
    #[error("at most 8 connections carry data")]
    TooMany,
    /// 6: the connection wasn't named as one that carries data.
    #[error("the connection is not one that carries data")]
    NotData,
    /// 7: a lane is under way on the connection.
    #[error("data is under way on the connection")]
    UnderWay,
    /// 8: data of the last lane wasn't read.
    #[error("data of the last opening was not read")]
    Unread,
    /// 9: the connection isn't open.
    #[error("the connection is not open")]
    NotOpen,
    /// 10: the connection carries lines: no lane is under way, or no octet came behind its CONNECT
    /// line; or the driver's own CONNECT line hasn't ended.
    #[error("the connection carries lines")]
    Lines,
}

impl DataError {
    ghost use Rattle.std.specs.Prelude.{◌≡◌};
    ghost use Rattle.modem_data.specs.DataErrors.{data_error_number};

    /// The number of this refusal.
    pub fn number(self) -> u8
        ensures { result ≡ data_error_number self }
    {
        match self {
            DataError::NoMemory => 1,
            DataError::BadN1 => 2,
            DataError::ControlChannel => 3,
            DataError::Twice => 4,
            DataError::TooMany => 5,
            DataError::NotData => 6,
            DataError::UnderWay => 7,
            DataError::Unread => 8,
            DataError::NotOpen => 9,
            DataError::Lines => 10,
        }
    }
}

impl From<AllocError> for DataError {
    ghost from_gives = { λ _ e. e ≡ NoMemory };

    fn from(_error: AllocError) -> DataError {
        DataError::NoMemory
    }
}
