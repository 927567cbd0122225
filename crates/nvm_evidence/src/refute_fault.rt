ghost use Rattle.std.specs.Prelude.{◌≡◌};
ghost use Rattle.nvm_evidence.specs.declared.refute_fault.RefuteBytesFault.TheVariants.{NoMemory};

use crate::evidence_fault::EvidenceFault;
use nvm_file::TraceFileFault;
use std::alloc::AllocError;
use thiserror::Error;

/// Why a trace's file wasn't judged by a contradiction's.
#[derive(Clone, Copy, Debug, PartialEq, Eq, Error)]
pub enum RefuteBytesFault {
    /// The one file doesn't hold a trace: its first fault from the front.
    #[error("trace: {0}")]
    Trace(TraceFileFault),
    /// The other file doesn't hold a contradiction: its first fault from the front.
    #[error("contradiction: {0}")]
    Contradiction(EvidenceFault),
    /// Memory was asked for and refused: nothing is known.
    #[error("no memory")]
    NoMemory,
}

impl From<AllocError> for RefuteBytesFault {
    ghost from_gives = { λ _ e. e ≡ NoMemory };

    fn from(_e: AllocError) -> RefuteBytesFault {
        RefuteBytesFault::NoMemory
    }
}
