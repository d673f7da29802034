//! Why a call of the simulator is refused.
use serial_line::LineFault;
use std::alloc::{AllocError, AllocFailed};
use thiserror::Error;

/// Why a call of the simulator is refused.
#[derive(Clone, Copy, Debug, PartialEq, Eq, Error)]
pub enum SimError {
    /// 1: memory was refused.
    #[error("out of memory")]
    NoMemory,
    /// 2: N1 isn't 31 to 32767.
    #[error("N1 is 31 to 32767")]
    BadN1,
    /// 3: the line failed.
    #[error("the line failed")]
    Line,
    /// 4: the line failed before.
    #[error("the line failed before")]
    Failed,
}

impl SimError {
    ghost use Rattle.std.specs.Prelude.{◌≡◌};
    ghost use Rattle.modem_sim.specs.Numbers.{sim_error_number};

    /// The number of this refusal.
    pub fn number(self) -> u8
        ensures { result ≡ sim_error_number self }
    {
        match self {
            SimError::NoMemory => 1,
            SimError::BadN1 => 2,
            SimError::Line => 3,
            SimError::Failed => 4,
        }
    }
}

impl From<AllocError> for SimError {
    ghost use Rattle.std.specs.Prelude.{◌≡◌};
    ghost use Rattle.modem_sim.specs.declared.error.SimError.TheVariants.{NoMemory};

    ghost from_gives = { λ _ e. e ≡ NoMemory };

    fn from(_refused: AllocError) -> SimError {
        SimError::NoMemory
    }
}

impl From<LineFault> for SimError {
    ghost use Rattle.std.specs.Prelude.{◌≡◌};
    ghost use Rattle.modem_sim.specs.declared.error.SimError.TheVariants.{Line};

    ghost from_gives = { λ _ e. e ≡ Line };

    fn from(_fault: LineFault) -> SimError {
        SimError::Line
    }
}

impl<T: Drop> From<AllocFailed<T>> for SimError {
    ghost use Rattle.std.specs.Prelude.{◌≡◌};
    ghost use Rattle.modem_sim.specs.declared.error.SimError.TheVariants.{NoMemory};

    ghost from_gives = { λ _ e. e ≡ NoMemory };

    fn from(_refused: AllocFailed<T>) -> SimError {
        SimError::NoMemory
    }
}
