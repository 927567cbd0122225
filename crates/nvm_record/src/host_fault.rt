ghost use Rattle.std.specs.Prelude.{◌≡◌};
ghost use Rattle.nvm_record.specs.declared.host_fault.HostFault.TheVariants.{NoMemory};

use std::alloc::{AllocError, AllocFailed};
use thiserror::Error;

/// Why the bytes of a host file give no commands.
#[derive(Clone, Copy, Debug, PartialEq, Eq, Error)]
pub enum HostFault {
    /// The file doesn't begin with the four bytes `NVQ1`.
    #[error("bad name")]
    BadName,
    /// An entry, or the data that it calls for, isn't whole; it begins at offset `at`, in bytes.
    #[error("truncated at {at}")]
    Truncated { at: u64 },
    /// Bytes remain after 65,536 commands.
    #[error("too many commands")]
    TooMany,
    /// Memory was asked for and refused.
    #[error("no memory")]
    NoMemory,
}

impl From<AllocError> for HostFault {
    ghost from_gives = { λ _ e. e ≡ NoMemory };

    fn from(_e: AllocError) -> HostFault {
        HostFault::NoMemory
    }
}

impl<T: Drop> From<AllocFailed<T>> for HostFault {
    ghost from_gives = { λ _ e. e ≡ NoMemory };

    fn from(_e: AllocFailed<T>) -> HostFault {
        HostFault::NoMemory
    }
}
