ghost use Rattle.std.specs.Prelude.{◌≡◌};
ghost use Rattle.nvm_evidence.specs.declared.witness_fault.OrderWitnessFault.TheVariants.{NoMemory};

use crate::evidence_fault::EvidenceFault;
use nvm_file::TraceFileFault;
use std::alloc::AllocError;
use thiserror::Error;

/// Why a trace's file wasn't judged by an order's.
#[derive(Clone, Copy, Debug, PartialEq, Eq, Error)]
pub enum OrderWitnessFault {
    /// The one file doesn't hold a trace: its first fault from the front.
    #[error("trace: {0}")]
    Trace(TraceFileFault),
    /// The other file doesn't hold an order: its first fault from the front.
    #[error("order: {0}")]
    Order(EvidenceFault),
    /// Memory was asked for and refused: nothing is known.
    #[error("no memory")]
    NoMemory,
}

impl From<AllocError> for OrderWitnessFault {
    ghost from_gives = { λ _ e. e ≡ NoMemory };

    fn from(_e: AllocError) -> OrderWitnessFault {
        OrderWitnessFault::NoMemory
    }
}
