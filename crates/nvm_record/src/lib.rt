//! Commands, statuses, completions and host files of the NVM Command Set, and, in specs alone, what
//! a medium is and what a command does to it.
//!
//! A host file holds the commands of one host: [`read_host`] reads it, [`host_bytes`] writes it. A command
//! alone, its submission entry and then its data, is read by [`read_command`] and written by
//! [`push_spelling`].
#![tactic(auto)]

mod block;
mod block_size;
mod command;
mod command_fault;
mod completion;
mod entry;
mod equality;
mod host_fault;
mod host_file;
pub mod laws;
mod lba_range;
mod op;
mod payload;
mod payload_ref;
mod range_attributes;
mod read_data;
mod spelling;
mod status;

pub use block::Block;
pub use block_size::BlockSize;
pub use command::Command;
pub use command_fault::CommandFault;
pub use completion::{Completion, completion_bytes};
pub use entry::{ENTRY_BYTES, EntryFields, command_bytes, entry_fields};
pub use equality::are_equal;
pub use host_fault::HostFault;
pub use host_file::{MOST_COMMANDS, host_bytes, read_host};
pub use lba_range::{LbaRange, MOST_RANGES, RANGE_BYTES, range_count, ranges_data};
pub use op::{Fuse, Op};
pub use payload::Payload;
pub use payload_ref::PayloadRef;
pub use read_data::ReadData;
pub use spelling::{push_spelling, read_command};
pub use status::{Status, Statuses};

/// Memory was asked for and refused.
pub type NoMemory = std::alloc::AllocError;
