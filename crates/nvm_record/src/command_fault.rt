ghost use Rattle.std.specs.Prelude.{◌≡◌};
ghost use Rattle.nvm_record.specs.declared.command_fault.CommandFault.TheVariants.{NoMemory};

use std::alloc::AllocError;
use thiserror::Error;

/// Why bytes don't begin with a command.
#[derive(Clone, Copy, Debug, PartialEq, Eq, Error)]
pub enum CommandFault {
    /// There are fewer than the 64 bytes of an entry.
    #[error("entry cut")]
    CutEntry,
    /// The entry is whole, and the data that it calls for isn't.
    #[error("data cut")]
    CutData,
    /// Memory was asked for and refused.
    #[error("no memory")]
    NoMemory,
}

impl From<AllocError> for CommandFault {
    ghost from_gives = { λ _ e. e ≡ NoMemory };

    fn from(_e: AllocError) -> CommandFault {
        CommandFault::NoMemory
    }
}
