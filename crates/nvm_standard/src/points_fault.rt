ghost use Rattle.std.specs.Prelude.{◌≡◌};
ghost use Rattle.nvm_standard.specs.declared.points_fault.PointsFault.TheVariants.{NoMemory};

use std::alloc::{AllocError, AllocFailed};
use thiserror::Error;

/// Why a trace has no table of points.
#[derive(Clone, Copy, Debug, PartialEq, Eq, Error)]
pub enum PointsFault {
    /// No device may end the command of this number as it ended, whatever was done: nothing explains the trace. It is the first such.
    #[error("Wrong")]
    Wrong { command: u32 },
    /// Memory was asked for and refused: nothing is known.
    #[error("no memory")]
    NoMemory,
}

impl From<AllocError> for PointsFault {
    ghost from_gives = { λ _ e. e ≡ NoMemory };

    fn from(_e: AllocError) -> PointsFault {
        PointsFault::NoMemory
    }
}

impl<T: Drop> From<AllocFailed<T>> for PointsFault {
    ghost from_gives = { λ _ e. e ≡ NoMemory };

    fn from(_e: AllocFailed<T>) -> PointsFault {
        PointsFault::NoMemory
    }
}
