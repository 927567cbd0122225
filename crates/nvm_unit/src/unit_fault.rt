ghost use Rattle.std.specs.Prelude.{◌≡◌};
ghost use Rattle.nvm_unit.specs.declared.unit_fault.UnitFault.TheVariants.{NoMemory};

use std::alloc::{AllocError, AllocFailed};
use thiserror::Error;

/// Why there is no unit.
#[derive(Clone, Copy, Debug, PartialEq, Eq, Error)]
pub enum UnitFault {
    /// The number of passes is 0 or above 64.
    #[error("passes")]
    Passes,
    /// A growth was refused: for the unit's blocks, for the table that holds them, or for the list of passes. Nothing is left.
    #[error("no memory")]
    NoMemory,
}

impl From<AllocError> for UnitFault {
    ghost from_gives = { λ _ e. e ≡ NoMemory };

    fn from(_e: AllocError) -> UnitFault {
        UnitFault::NoMemory
    }
}

impl<T: Drop> From<AllocFailed<T>> for UnitFault {
    ghost from_gives = { λ _ e. e ≡ NoMemory };

    fn from(_e: AllocFailed<T>) -> UnitFault {
        UnitFault::NoMemory
    }
}
