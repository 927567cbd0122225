ghost use Rattle.std.specs.Prelude.{◌≡◌};
ghost use Rattle.nvm_evidence.specs.declared.evidence_fault.EvidenceFault.TheVariants.{NoMemory};

use std::alloc::{AllocError, AllocFailed};
use thiserror::Error;

/// Why the bytes of a file give no evidence.
#[derive(Clone, Copy, Debug, PartialEq, Eq, Error)]
pub enum EvidenceFault {
    /// The file doesn't begin with the four bytes `NVE1`.
    #[error("bad name")]
    BadName,
    /// A field isn't whole; it begins at offset `at`, in bytes.
    #[error("truncated at {at}")]
    Truncated { at: u64 },
    /// There are bytes after the last item; they begin at offset `at`, in bytes.
    #[error("trailing at {at}")]
    Trailing { at: u64 },
    /// The byte at offset `at` stands for nothing.
    #[error("bad value at {at}")]
    BadValue { at: u64 },
    /// Memory was asked for and refused.
    #[error("no memory")]
    NoMemory,
}

impl From<AllocError> for EvidenceFault {
    ghost from_gives = { λ _ e. e ≡ NoMemory };

    fn from(_e: AllocError) -> EvidenceFault {
        EvidenceFault::NoMemory
    }
}

impl<T: Drop> From<AllocFailed<T>> for EvidenceFault {
    ghost from_gives = { λ _ e. e ≡ NoMemory };

    fn from(_e: AllocFailed<T>) -> EvidenceFault {
        EvidenceFault::NoMemory
    }
}
