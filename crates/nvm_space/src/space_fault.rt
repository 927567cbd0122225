ghost use Rattle.std.specs.Prelude.{◌≡◌};
ghost use Rattle.nvm_space.specs.declared.space_fault.SpaceFault.TheVariants.{NoMemory as NoMemoryFault};

use std::alloc::{AllocError, AllocFailed};
use thiserror::Error;

/// Why there is no space.
#[derive(Clone, Copy, Debug, PartialEq, Eq, Error)]
pub enum SpaceFault {
    /// The number of ports is 0 or above 64.
    #[error("ports")]
    Ports,
    /// A growth was refused: for a unit, for the list of units, or for the ports and their passes. Nothing is left.
    #[error("no memory")]
    NoMemory,
}

impl From<AllocError> for SpaceFault {
    ghost from_gives = { λ _ e. e ≡ NoMemoryFault };

    fn from(_e: AllocError) -> SpaceFault {
        SpaceFault::NoMemory
    }
}

impl<T: Drop> From<AllocFailed<T>> for SpaceFault {
    ghost from_gives = { λ _ e. e ≡ NoMemoryFault };

    fn from(_e: AllocFailed<T>) -> SpaceFault {
        SpaceFault::NoMemory
    }
}
