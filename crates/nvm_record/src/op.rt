ghost use Rattle.std.specs.Prelude.{◌≡◌, ◌↔◌, ◌<◌, IsTrue};
ghost use Rattle.nvm_record.specs.Entry as entry;
ghost use Rattle.nvm_record.specs.Op as op;
ghost use Rattle.nvm_record.specs.Op.{op_of, opcode_of, IsProperOp, fuse_of, bits_of};

use crate::block_size::BlockSize;
use crate::lba_range::RANGE_BYTES;

/// What a submission entry asks for, by its opcode (NVM Command Set Specification, "NVM Command Set
/// opcodes").
#[derive(Clone, Copy, Debug, PartialEq, Eq, Hash)]
pub enum Op {
    /// 01h: the blocks take the data that follows the entry.
    Write,
    /// 02h: the blocks' bytes are answered.
    Read,
    /// 04h: the blocks are marked, and can't be read until they are written or zeroed.
    WriteUncorrectable,
    /// 05h: the blocks are compared with the data that follows the entry.
    Compare,
    /// 08h: the blocks become zero bytes.
    WriteZeroes,
    /// 09h, Dataset Management: with the Deallocate bit the blocks of the ranges that follow the entry
    /// become zero bytes, and without it nothing is done.
    Dataset { deallocate: bool },
    /// Any other opcode.
    Other(u8),
}

/// The FUSE bits of a submission entry, byte 1, bits 1:0 (Base Specification, "Fused operation").
#[derive(Clone, Copy, Debug, PartialEq, Eq, Hash)]
pub enum Fuse {
    /// 00b: not a part of a fused operation.
    Normal,
    /// 01b: the first command of a fused operation.
    First,
    /// 10b: the second command of a fused operation.
    Second,
    /// 11b: reserved by the standard.
    Reserved,
}

/// The opcode of Write.
const WRITE: u8 = 0x01;
/// The opcode of Read.
const READ: u8 = 0x02;
/// The opcode of Write Uncorrectable.
const WRITE_UNCORRECTABLE: u8 = 0x04;
/// The opcode of Compare.
const COMPARE: u8 = 0x05;
/// The opcode of Write Zeroes.
const WRITE_ZEROES: u8 = 0x08;
/// The opcode of Dataset Management.
pub const DATASET_MANAGEMENT: u8 = 0x09;

/// The bit for Deallocate in the lowest byte of command dword 11.
const DEALLOCATE: u8 = 0x04;

impl Op {
    /// What an opcode asks for. The Deallocate bit counts for Dataset Management alone. An `Other` never
    /// holds an opcode that has a name of its own.
    pub fn of_opcode(opcode: u8, deallocate: bool) -> Op
        ensures value { result ≡ op_of opcode deallocate }
        ensures proper { IsProperOp result }
    {
        match opcode {
            WRITE => Op::Write,
            READ => Op::Read,
            WRITE_UNCORRECTABLE => Op::WriteUncorrectable,
            COMPARE => Op::Compare,
            WRITE_ZEROES => Op::WriteZeroes,
            DATASET_MANAGEMENT => Op::Dataset { deallocate },
            _ => Op::Other(opcode),
        }
    }

    /// The opcode that asks for it.
    pub fn opcode(self) -> u8
        ensures { result ≡ opcode_of self }
    {
        match self {
            Op::Write => WRITE,
            Op::Read => READ,
            Op::WriteUncorrectable => WRITE_UNCORRECTABLE,
            Op::Compare => COMPARE,
            Op::WriteZeroes => WRITE_ZEROES,
            Op::Dataset { .. } => DATASET_MANAGEMENT,
            Op::Other(opcode) => opcode,
        }
    }

    /// Whether blocks of data follow the entry: they do for Write and Compare.
    pub fn carries_blocks(self) -> bool
        ensures { result ≡ op.carries_blocks self }
    {
        matches!(self, Op::Write | Op::Compare)
    }

    /// Whether ranges follow the entry: they do for Dataset Management.
    pub fn carries_ranges(self) -> bool
        ensures { result ≡ op.carries_ranges self }
    {
        matches!(self, Op::Dataset { .. })
    }

    /// How many bytes of data follow the entry: those of `nlb + 1` blocks of `size`, of `nr + 1` ranges of
    /// 16 bytes, or none.
    pub fn data_length(self, nlb: u16, nr: u8, size: BlockSize) -> usize
        ensures { result ≡ entry.data_length size self nlb nr }
    {
        if self.carries_blocks() {
            (nlb as usize + 1) * size.bytes() as usize
        } else if self.carries_ranges() {
            (nr as usize + 1) * RANGE_BYTES
        } else {
            0
        }
    }

    /// The lowest byte of command dword 11, its other bits being 0, of a Dataset Management. It is 0 for the
    /// rest.
    pub fn attributes(self) -> u8
        ensures { result ≡ op.attributes_of self }
    {
        match self {
            Op::Dataset { deallocate: true } => DEALLOCATE,
            _ => 0,
        }
    }

    /// Whether it isn't an `Other` with an opcode that has a name of its own.
    pub fn is_proper(self) -> bool
        ensures { IsTrue result ↔ IsProperOp self }
    {
        match self {
            Op::Other(opcode) => Op::of_opcode(opcode, false) == self,
            _ => true,
        }
    }
}

/// Whether the lowest byte of command dword 11 has the Deallocate bit, bit 2.
pub fn has_deallocate(attributes: u8) -> bool
    ensures { result ≡ op.deallocate_of attributes }
{
    attributes / DEALLOCATE % 2 == 1
}

impl Fuse {
    /// What the two bits say.
    pub fn of_bits(bits: u8) -> Fuse
        requires { bits < 4 }
        ensures { result ≡ fuse_of bits }
    {
        match bits {
            0 => Fuse::Normal,
            1 => Fuse::First,
            2 => Fuse::Second,
            _ => Fuse::Reserved,
        }
    }

    /// The two bits.
    pub fn bits(self) -> u8
        ensures value { result ≡ bits_of self }
        ensures valid { result < 4 }
    {
        match self {
            Fuse::Normal => 0,
            Fuse::First => 1,
            Fuse::Second => 2,
            Fuse::Reserved => 3,
        }
    }
}
