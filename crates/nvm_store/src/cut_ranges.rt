ghost use Rattle.std.specs.Prelude.{◌≡◌, ◌⊎◌, ◌↔◌, ℕ, ◌+◌, ◌<◌, ◌≤◌, ◌∷◌, [], drop, IfNone, IfOk, IfSome, IsTrue, false, true};
ghost use Rattle.nvm_record.specs.PayloadRef.{lent_bytes};
ghost use Rattle.nvm_record.specs.Ranges as data_ranges;
ghost use Rattle.nvm_record.specs.Ranges.{cut_ranges, ranges_of, range_has, ranges_have, AreRangesWithin};

use nvm_record::laws::{cut_ranges_lie_within, ranges_are_read_back};
use nvm_record::{LbaRange, NoMemory, Payload, PayloadRef, RANGE_BYTES, range_count};
use std::alloc::Global;
use std::marker::Model;

/// What of a Deallocate's ranges lies among the `blocks` LBAs from `first`: each range cut to them, in the
/// command's order, without those of which no block is left. It takes no memory.
///
/// Contracts see the list of those that are still to come.
#[derive(Drop)]
pub struct CutRanges<'a> {
    first: u64,
    blocks: u32,
    ranges: &'a [u8],
    place: usize,
}

impl<'a> Model for CutRanges<'a> {
    ghost use Rattle.std.specs.Prelude.{List, drop};
    ghost use Rattle.nvm_record.specs.declared.lba_range.LbaRange.{LbaRange};
    ghost use Rattle.nvm_record.specs.Ranges.{cut_ranges, ranges_of};

    ghost Value = { List LbaRange };

    ghost view = { λ c. cut_ranges c.first c.blocks (drop c.place (ranges_of c.ranges.now)) };
}

impl<'a> CutRanges<'a> {
    /// What of the ranges lies among the `blocks` LBAs from `first`.
    pub fn new(first: u64, blocks: u32, ranges: &'a [u8]) -> CutRanges<'a>
        ensures { result ≡ cut_ranges first blocks (ranges_of ranges.now) }
    {
        CutRanges {
            first,
            blocks,
            ranges,
            place: 0,
        }
    }
}

impl Iterator for CutRanges<'_> {
    ghost use Rattle.std.specs.Iterator.{YieldsFirst, item_count};

    type Item = LbaRange;

    ghost next_gives = { YieldsFirst (λ ranges. ranges) };

    ghost remaining = { item_count (λ ranges. ranges) };

    fn next(&mut self) -> Option<LbaRange> {
        let (place, range) = next_cut(self.first, self.blocks, self.ranges, self.place)?;
        self.place = place + 1;
        Some(range)
    }
}

/// The first range from place `from` on of which a block is left, and its place.
fn next_cut(first: u64, blocks: u32, ranges: &[u8], from: usize) -> Option<(usize, LbaRange)>
    ensures found { IfSome result (λ found. cut_ranges first blocks (drop from (ranges_of ranges.now))
        ≡ found.1 ∷ cut_ranges first blocks (drop (found.0 + 1) (ranges_of ranges.now))) }
    ensures place { IfSome result (λ found. found.0 < data_ranges.range_count ranges.now) }
    ensures none { IfNone result (cut_ranges first blocks (drop from (ranges_of ranges.now)) ≡ []) }
{
    ranges_are_read_back();
    for place in from..range_count(ranges) {
        if let Some(range) = LbaRange::at(ranges, place).cut(first, blocks) {
            return Some((place, range));
        }
    }
    None
}

/// Whether a block of the ranges is among the `blocks` LBAs from `first`.
pub fn is_left(first: u64, blocks: u32, ranges: &[u8]) -> bool
    ensures { IsTrue result ↔ AreRangesWithin first blocks (cut_ranges first blocks (ranges_of ranges.now)) }
{
    cut_ranges_lie_within();
    CutRanges::new(first, blocks, ranges).next().is_some()
}

/// Of what is left of the ranges that which begins first, and of several that begin there the longest.
pub fn lowest_cut(first: u64, blocks: u32, ranges: &[u8]) -> Option<LbaRange>
    ensures some { IfSome result
        (λ r. (0 < r.blocks) × (first ≤ r.first) × (r.first + r.blocks ≤ first + blocks)) }
    ensures had { IfSome result (λ r. (lba : ℕ) → range_has r lba ≡ true
        → ranges_have (cut_ranges first blocks (ranges_of ranges.now)) lba ≡ true) }
    ensures lowest { IfSome result (λ r. (lba : ℕ) → lba < r.first
        → ranges_have (cut_ranges first blocks (ranges_of ranges.now)) lba ≡ false) }
    ensures none { IfNone result (cut_ranges first blocks (ranges_of ranges.now) ≡ []) }
{
    cut_ranges_lie_within();
    let mut cuts = CutRanges::new(first, blocks, ranges);
    let mut lowest = cuts.next()?;
    for range in cuts {
        lowest = lower(lowest, range);
    }
    Some(lowest)
}

/// That of the two which begins first, and where both begin there the longer one.
fn lower(one: LbaRange, other: LbaRange) -> LbaRange
    ensures either { (result ≡ one) ⊎ (result ≡ other) }
    ensures one { result.first ≤ one.first }
    ensures other { result.first ≤ other.first }
{
    if one.first < other.first || one.first == other.first && one.blocks >= other.blocks {
        one
    } else {
        other
    }
}

/// Whether what is left of the ranges is exactly what is kept, range by range.
pub fn are_left(first: u64, blocks: u32, ranges: &[u8], kept: &[u8]) -> bool
    ensures { IsTrue result ↔ (cut_ranges first blocks (ranges_of ranges.now) ≡ ranges_of kept.now) }
{
    ranges_are_read_back();
    let mut cuts = CutRanges::new(first, blocks, ranges);
    for place in 0..range_count(kept) {
        if cuts.next() != Some(LbaRange::at(kept, place)) {
            return false;
        }
    }
    cuts.next().is_none()
}

/// Whether both are data of the same ranges.
pub fn are_same(one: &[u8], other: &[u8]) -> bool
    ensures { IsTrue result ↔ (ranges_of one.now ≡ ranges_of other.now) }
{
    ranges_are_read_back();
    let count = range_count(one);
    if range_count(other) != count {
        return false;
    }
    for place in 0..count {
        if LbaRange::at(one, place) != LbaRange::at(other, place) {
            return false;
        }
    }
    true
}

/// The data of what is left. Where that is some of the ranges in a row, and none of them is cut, it shares their bytes and
/// takes no memory; else it has a payload of its own.
pub fn left_data(
    alloc: Global,
    first: u64,
    blocks: u32,
    ranges: PayloadRef<'_>,
) -> Result<Payload, NoMemory>
    ensures { IfOk result
        (λ p. ranges_of p ≡ cut_ranges first blocks (ranges_of (lent_bytes ranges.entry))) }
{
    cut_ranges_lie_within();
    ranges_are_read_back();
    let bytes = ranges.as_slice();
    let Some((place, range)) = next_cut(first, blocks, bytes, 0) else {
        return Ok(Payload::empty());
    };
    if range == LbaRange::at(bytes, place) {
        let count = CutRanges::new(first, blocks, bytes).count();
        if count <= range_count(bytes) - place {
            let row = ranges.part(place * RANGE_BYTES, (place + count) * RANGE_BYTES);
            if are_left(first, blocks, bytes, row.as_slice()) {
                return row.share(alloc);
            }
        }
    }
    cut_data(alloc, first, blocks, bytes)
}

/// The data of what is left, in a payload of its own, whose room is reserved once, at its exact length.
fn cut_data(alloc: Global, first: u64, blocks: u32, ranges: &[u8]) -> Result<Payload, NoMemory>
    ensures { IfOk result (λ p. ranges_of p ≡ cut_ranges first blocks (ranges_of ranges.now)) }
{
    cut_ranges_lie_within();
    ranges_are_read_back();
    let count = CutRanges::new(first, blocks, ranges).count();
    let mut bytes = Vec::with_capacity(alloc, count * RANGE_BYTES)?;
    for range in CutRanges::new(first, blocks, ranges) {
        bytes.extend_from_slice(&range.bytes())?;
    }
    Payload::new(alloc, bytes)
}
