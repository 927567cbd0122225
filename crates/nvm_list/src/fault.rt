ghost use Rattle.std.specs.Prelude.{◌≡◌};
ghost use Rattle.nvm_list.specs.declared.fault.ListFault.TheVariants as of_list;
ghost use Rattle.nvm_list.specs.declared.fault.LineFault.TheVariants as of_line;

use crate::expected::Expected;
use std::alloc::{AllocError, AllocFailed};
use thiserror::Error;

/// Why a text gives no commands.
#[derive(Clone, Copy, Debug, PartialEq, Eq, Error)]
pub enum ListFault {
    /// A line is no command. Lines count from 1, and this is the first such line.
    #[error("line {line}: {expected}")]
    Line { line: u64, expected: Expected },
    /// Memory was asked for and refused.
    #[error("no memory")]
    NoMemory,
}

/// Why words give no command, or none of what is in one.
#[derive(Clone, Copy)]
pub enum LineFault {
    /// Something else was expected.
    Expected(Expected),
    /// Memory was asked for and refused.
    NoMemory,
}

impl From<AllocError> for ListFault {
    ghost from_gives = { λ _ e. e ≡ of_list.NoMemory };

    fn from(_e: AllocError) -> ListFault {
        ListFault::NoMemory
    }
}

impl<T: Drop> From<AllocFailed<T>> for ListFault {
    ghost from_gives = { λ _ e. e ≡ of_list.NoMemory };

    fn from(_e: AllocFailed<T>) -> ListFault {
        ListFault::NoMemory
    }
}

impl From<Expected> for LineFault {
    ghost from_gives = { λ expected e. e ≡ of_line.Expected expected };

    fn from(expected: Expected) -> LineFault {
        LineFault::Expected(expected)
    }
}

impl From<AllocError> for LineFault {
    ghost from_gives = { λ _ e. e ≡ of_line.NoMemory };

    fn from(_e: AllocError) -> LineFault {
        LineFault::NoMemory
    }
}

impl<T: Drop> From<AllocFailed<T>> for LineFault {
    ghost from_gives = { λ _ e. e ≡ of_line.NoMemory };

    fn from(_e: AllocFailed<T>) -> LineFault {
        LineFault::NoMemory
    }
}
