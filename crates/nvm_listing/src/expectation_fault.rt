ghost use Rattle.std.specs.Prelude.{◌≡◌};
ghost use Rattle.nvm_listing.specs.declared.expectation_fault.ExpectationFault.TheVariants.{NoMemory};

use std::alloc::{AllocError, AllocFailed};
use thiserror::Error;

/// What was expected in a line at the first place where something else is.
#[derive(Clone, Copy, Debug, PartialEq, Eq, Error)]
pub enum Expected {
    /// No word is before `expect`.
    #[error("expected a command before expect")]
    Command,
    /// The word after `expect` is no status, or there is none.
    #[error("expected a status after expect, as in 2/85")]
    Status,
    /// Something follows the status.
    #[error("expected nothing after the status")]
    End,
}

/// Why the expectations of a list can't be read.
#[derive(Clone, Copy, Debug, PartialEq, Eq, Error)]
pub enum ExpectationFault {
    /// An expectation is wrong. Lines count from 1, and this is the first such line.
    #[error("line {line}: {expected}")]
    Line { line: u64, expected: Expected },
    /// Memory was asked for and refused.
    #[error("no memory")]
    NoMemory,
}

impl From<AllocError> for ExpectationFault {
    ghost from_gives = { λ _ e. e ≡ NoMemory };

    fn from(_e: AllocError) -> ExpectationFault {
        ExpectationFault::NoMemory
    }
}

impl<T: Drop> From<AllocFailed<T>> for ExpectationFault {
    ghost from_gives = { λ _ e. e ≡ NoMemory };

    fn from(_e: AllocFailed<T>) -> ExpectationFault {
        ExpectationFault::NoMemory
    }
}
