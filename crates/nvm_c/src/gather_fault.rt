ghost use Rattle.std.specs.Prelude.{◌≡◌};
ghost use Rattle.nvm_c.specs.declared.gather_fault.GatherFault.TheVariants.{NoMemory};

use std::alloc::{AllocError, AllocFailed};

/// Why no record is gathered from what ports did.
#[derive(Clone, Copy, Debug, PartialEq, Eq)]
pub enum GatherFault {
    /// Memory was refused.
    NoMemory,
    /// A record can't hold what was kept.
    Unlawful,
}

impl From<AllocError> for GatherFault {
    ghost from_gives = { λ _ e. e ≡ NoMemory };

    fn from(_e: AllocError) -> GatherFault {
        GatherFault::NoMemory
    }
}

impl<T: Drop> From<AllocFailed<T>> for GatherFault {
    ghost from_gives = { λ _ e. e ≡ NoMemory };

    fn from(_e: AllocFailed<T>) -> GatherFault {
        GatherFault::NoMemory
    }
}
