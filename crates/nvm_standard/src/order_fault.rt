ghost use Rattle.std.specs.Prelude.{◌≡◌};
ghost use Rattle.nvm_standard.specs.declared.order_fault.OrderFault.TheVariants.{NoMemory};

use std::alloc::{AllocError, AllocFailed};
use thiserror::Error;

/// Why an order doesn't explain a trace. What is named first isn't always the first: each clause is looked at by itself, in the order of
/// these cases.
#[derive(Clone, Copy, Debug, PartialEq, Eq, Error)]
pub enum OrderFault {
    /// What a block held at first isn't said right, at this place of the list, or the trace starts from zeroes.
    #[error("FirstWrong")]
    FirstWrong { place: usize },
    /// What stands at this position is no point of the table, or doesn't fit it.
    #[error("Misplaced")]
    Misplaced { position: usize },
    /// The time of what stands at this position was over before that of an earlier one began.
    #[error("TimeBack")]
    TimeBack { position: usize },
    /// What stands at this position finds something else.
    #[error("FindsOther")]
    FindsOther { position: usize },
    /// A Deallocate at this position comes too late.
    #[error("DeallocatesLate")]
    DeallocatesLate { position: usize },
    /// A block is done twice, the second time at this position.
    #[error("DoneAgain")]
    DoneAgain { position: usize },
    /// The point of this number isn't there as it has to be.
    #[error("Absent")]
    Absent { point: usize },
    /// A block of the point of this number isn't done after the same block of the point before.
    #[error("TooEarly")]
    TooEarly { point: usize },
    /// What stands at this position comes between two blocks of a Read that it puts.
    #[error("Between")]
    Between { position: usize },
    /// The point of this number is tied or comes after the one before it, and its blocks or that one's may be done any number of times, or
    /// there is none before it. `points_of` makes none such.
    #[error("Unkept")]
    Unkept { point: usize },
    /// Memory was asked for and refused: nothing is known.
    #[error("no memory")]
    NoMemory,
}

impl From<AllocError> for OrderFault {
    ghost from_gives = { λ _ e. e ≡ NoMemory };

    fn from(_e: AllocError) -> OrderFault {
        OrderFault::NoMemory
    }
}

impl<T: Drop> From<AllocFailed<T>> for OrderFault {
    ghost from_gives = { λ _ e. e ≡ NoMemory };

    fn from(_e: AllocFailed<T>) -> OrderFault {
        OrderFault::NoMemory
    }
}
