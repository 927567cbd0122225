ghost use Rattle.std.specs.Prelude.{◌≡◌, ◌↔◌, IsTrue};
ghost use Rattle.nvm_record.specs.Entry.{HasRanges, IsUnknownDataset, IsWhole};

use crate::block_size::BlockSize;
use crate::lba_range::{MOST_RANGES, range_count};
use crate::op::{DATASET_MANAGEMENT, Fuse, Op};
use crate::payload::Payload;
use crate::range_attributes::has_no_attributes;
use std::alloc::AllocError;

/// A command of one host: the fields of its submission entry that this project reads, and its data.
#[derive(Debug, PartialEq, Eq, Drop)]
pub struct Command {
    /// The command identifier (CID), which the completion repeats.
    pub cid: u16,
    /// The number of logical blocks, zeroes-based: 0 is one block. It is 0 for a Dataset Management.
    pub nlb: u16,
    /// The namespace identifier.
    pub nsid: u32,
    /// The command's place in a fused operation.
    pub fuse: Fuse,
    /// The opcode.
    pub op: Op,
    /// The starting LBA. It is 0 for a Dataset Management.
    pub slba: u64,
    /// The data: `nlb + 1` blocks for a Write and a Compare, 1 to 256 ranges of 16 bytes with context
    /// attributes of 0 for a Dataset Management, none for the rest.
    pub payload: Payload,
}

impl Command {
    /// Whether the command has exactly the data that it calls for, in blocks of `size`, and a proper opcode. A
    /// Dataset Management has 1 to 256 ranges with context attributes of 0, and an LBA and an NLB of 0.
    pub fn is_whole(&self, size: BlockSize) -> bool
        ensures { IsTrue result ↔ IsWhole size self.now }
    {
        if self.op.carries_ranges() {
            self.has_ranges()
        } else {
            self.payload.len() == self.op.data_length(self.nlb, 0, size) && self.op.is_proper()
        }
    }

    /// Whether it is a Dataset Management as what was kept before this opcode was read holds it: an
    /// `Other` of opcode 09h, without data.
    pub fn is_unknown_dataset(&self) -> bool
        ensures { IsTrue result ↔ IsUnknownDataset self.now }
    {
        self.op == Op::Other(DATASET_MANAGEMENT) && self.payload.is_empty()
    }

    /// Whether it is as a Dataset Management is read.
    fn has_ranges(&self) -> bool
        ensures { IsTrue result ↔ HasRanges self.now }
    {
        let payload = self.payload.as_slice();
        let count = range_count(payload);
        self.slba == 0
            && self.nlb == 0
            && count > 0
            && count <= MOST_RANGES
            && has_no_attributes(payload)
    }
}

/// A copy of the command, which shares its data.
impl Clone for Command {
    ghost is_clone = { λ command copy. copy ≡ command };

    fn clone(&self) -> Result<Command, AllocError> {
        let payload = self.payload.clone()?;
        Ok(Command {
            cid: self.cid,
            nsid: self.nsid,
            fuse: self.fuse,
            op: self.op,
            slba: self.slba,
            nlb: self.nlb,
            payload,
        })
    }
}
