ghost use Rattle.std.specs.Prelude.{◌≡◌};
ghost use Rattle.nvm_file.specs.TraceFields.{fault_of};
ghost use Rattle.nvm_file.specs.declared.trace_file_fault.TraceFileFault.TheVariants.{NoMemory};

use crate::record_fault::RecordFault;
use std::alloc::{AllocError, AllocFailed};
use thiserror::Error;

/// Why the bytes of a file give no trace.
#[derive(Clone, Copy, Debug, PartialEq, Eq, Error)]
pub enum TraceFileFault {
    /// The file doesn't begin with the four bytes `NVT1`.
    #[error("bad name")]
    BadName,
    /// A field isn't whole; it begins at offset `at`, in bytes.
    #[error("truncated at {at}")]
    Truncated { at: u64 },
    /// Bytes stand behind the last field; they begin at offset `at`, in bytes.
    #[error("trailing at {at}")]
    Trailing { at: u64 },
    /// A field has a value that isn't allowed there; it begins at offset `at`, in bytes.
    #[error("bad value at {at}")]
    BadValue { at: u64 },
    /// A job began at 0; the time begins at offset `at`, in bytes.
    #[error("began at zero at {at}")]
    BeganAtZero { at: u64 },
    /// A job ended before it began; the time of its end begins at offset `at`, in bytes.
    #[error("ended before at {at}")]
    EndedBefore { at: u64 },
    /// Memory was asked for and refused.
    #[error("no memory")]
    NoMemory,
}

impl From<RecordFault> for TraceFileFault {
    ghost from_gives = { λ fault e. e ≡ fault_of fault };

    fn from(fault: RecordFault) -> TraceFileFault {
        match fault {
            RecordFault::BadName | RecordFault::Version => TraceFileFault::BadName,
            RecordFault::Truncated { at } => TraceFileFault::Truncated { at },
            RecordFault::Trailing { at } => TraceFileFault::Trailing { at },
            RecordFault::BadValue { at } => TraceFileFault::BadValue { at },
            RecordFault::NoMemory => TraceFileFault::NoMemory,
        }
    }
}

impl From<AllocError> for TraceFileFault {
    ghost from_gives = { λ _ e. e ≡ NoMemory };

    fn from(_e: AllocError) -> TraceFileFault {
        TraceFileFault::NoMemory
    }
}

impl<T: Drop> From<AllocFailed<T>> for TraceFileFault {
    ghost from_gives = { λ _ e. e ≡ NoMemory };

    fn from(_e: AllocFailed<T>) -> TraceFileFault {
        TraceFileFault::NoMemory
    }
}
