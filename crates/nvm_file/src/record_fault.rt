ghost use Rattle.std.specs.Prelude.{◌≡◌};
ghost use Rattle.nvm_file.specs.declared.record_fault.RecordFault.TheVariants.{NoMemory};

use std::alloc::{AllocError, AllocFailed};
use thiserror::Error;

/// Why the bytes of a file give no record.
#[derive(Clone, Copy, Debug, PartialEq, Eq, Error)]
pub enum RecordFault {
    /// The file doesn't begin with the three bytes `NVR`.
    #[error("bad name")]
    BadName,
    /// The byte behind the name is neither `1` nor `2`, or is missing.
    #[error("unknown version")]
    Version,
    /// A field isn't whole; it begins at offset `at`, in bytes.
    #[error("truncated at {at}")]
    Truncated { at: u64 },
    /// Bytes stand behind the last field; they begin at offset `at`, in bytes.
    #[error("trailing at {at}")]
    Trailing { at: u64 },
    /// A field has a value that isn't allowed there; it begins at offset `at`, in bytes.
    #[error("bad value at {at}")]
    BadValue { at: u64 },
    /// Memory was asked for and refused.
    #[error("no memory")]
    NoMemory,
}

impl From<AllocError> for RecordFault {
    ghost from_gives = { λ _ e. e ≡ NoMemory };

    fn from(_e: AllocError) -> RecordFault {
        RecordFault::NoMemory
    }
}

impl<T: Drop> From<AllocFailed<T>> for RecordFault {
    ghost from_gives = { λ _ e. e ≡ NoMemory };

    fn from(_e: AllocFailed<T>) -> RecordFault {
        RecordFault::NoMemory
    }
}
