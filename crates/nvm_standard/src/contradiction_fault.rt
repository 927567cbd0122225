ghost use Rattle.std.specs.Prelude.{◌≡◌};
ghost use Rattle.nvm_standard.specs.declared.contradiction_fault.ContradictionFault.TheVariants.{NoMemory};

use std::alloc::{AllocError, AllocFailed};
use thiserror::Error;

/// Why a contradiction isn't taken.
#[derive(Clone, Copy, Debug, PartialEq, Eq, Error)]
pub enum ContradictionFault {
    /// The fact of this number, counted from 0, isn't given by its rule and the facts before it. It is the first such.
    #[error("FactWrong")]
    FactWrong { fact: usize },
    /// Each fact is given, and the conclusion doesn't follow.
    #[error("NothingContradicted")]
    NothingContradicted,
    /// Memory was asked for and refused: nothing is known.
    #[error("no memory")]
    NoMemory,
}

impl From<AllocError> for ContradictionFault {
    ghost from_gives = { λ _ e. e ≡ NoMemory };

    fn from(_e: AllocError) -> ContradictionFault {
        ContradictionFault::NoMemory
    }
}

impl<T: Drop> From<AllocFailed<T>> for ContradictionFault {
    ghost from_gives = { λ _ e. e ≡ NoMemory };

    fn from(_e: AllocFailed<T>) -> ContradictionFault {
        ContradictionFault::NoMemory
    }
}
