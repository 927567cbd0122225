ghost use Rattle.std.specs.Prelude.{◌≡◌, ◌<◌, IfOk, SomeIff};
ghost use Rattle.nvm_record.specs.Ranges as ranges;
ghost use Rattle.nvm_record.specs.Ranges.{FitsItsBytes, cut_range, data_of_ranges, range_at, ranges_of};

use crate::NoMemory;
use crate::payload::Payload;
use byteorder::{ByteOrder, LittleEndian};
use std::alloc::Global;

/// The number of bytes of a range definition.
pub const RANGE_BYTES: usize = 16;
/// The most ranges of a command.
pub const MOST_RANGES: usize = 256;

/// The length in logical blocks begins at this byte of a range definition. The context attributes come before it.
const BLOCKS_AT: usize = 4;
/// The starting LBA begins at this byte of a range definition.
const FIRST_AT: usize = 8;

/// A range of LBAs, as a Dataset Management names them (NVM Command Set Specification, "Dataset Management command").
/// A range without a block is one that does nothing.
#[derive(Clone, Copy, Debug, PartialEq, Eq, Hash)]
pub struct LbaRange {
    /// The first LBA.
    pub first: u64,
    /// The number of logical blocks, not zeroes-based.
    pub blocks: u32,
}

impl LbaRange {
    /// The range at this place of a command's data, counted from 0. Its context attributes aren't read.
    pub fn at(payload: &[u8], place: usize) -> LbaRange
        requires { place < ranges.range_count payload.now }
        ensures { result ≡ range_at payload.now place }
    {
        let definition = place * RANGE_BYTES;
        LbaRange {
            first: LittleEndian::read_u64(&payload[definition + FIRST_AT..]),
            blocks: LittleEndian::read_u32(&payload[definition + BLOCKS_AT..]),
        }
    }

    /// The range definition, with context attributes of 0.
    pub fn bytes(self) -> [u8; 16]
        ensures bytes { result ≡ ranges.range_bytes self }
        ensures fits { FitsItsBytes self }
    {
        let mut definition = [0; RANGE_BYTES];
        LittleEndian::write_u32(&mut definition[BLOCKS_AT..], self.blocks);
        LittleEndian::write_u64(&mut definition[FIRST_AT..], self.first);
        definition
    }

    /// What of the range lies among the `blocks` LBAs from `first`, or `None` where nothing does. Either range may end
    /// above the highest LBA that a number holds.
    pub fn cut(self, first: u64, blocks: u32) -> Option<LbaRange>
        ensures { SomeIff result (0 < (cut_range first blocks self).blocks) (cut_range first blocks self) }
    {
        let lowest = first.max(self.first);
        let of_range = u64::from(self.blocks).saturating_sub(lowest - self.first);
        let of_blocks = u64::from(blocks).saturating_sub(lowest - first);
        let left = of_range.min(of_blocks) as u32;
        if left == 0 {
            return None;
        }
        Some(LbaRange {
            first: lowest,
            blocks: left,
        })
    }
}

/// How many ranges the data of a command holds.
pub fn range_count(payload: &[u8]) -> usize
    ensures { result ≡ ranges.range_count payload.now }
{
    payload.len() / RANGE_BYTES
}

/// The data of these ranges, one range definition after the other.
pub fn ranges_data(alloc: Global, ranges: &[LbaRange]) -> Result<Payload, NoMemory>
    ensures bytes { IfOk result (λ p. p ≡ data_of_ranges ranges.now) }
    ensures again { IfOk result (λ p. ranges_of p ≡ ranges.now) }
{
    let mut payload = Vec::with_capacity(alloc, ranges.len().saturating_mul(RANGE_BYTES))?;
    for range in ranges {
        payload.extend_from_slice(&range.bytes())?;
    }
    Payload::new(alloc, payload)
}
