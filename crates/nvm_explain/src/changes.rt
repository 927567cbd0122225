//! Which entry of a history changed some blocks last.
ghost use Rattle.std.specs.Prelude.{◌≡◌, ◌+◌, ◌<◌, ◌&&◌, nat_le, nat_lt, IfSome, length, option_map};
ghost use Rattle.std.specs.List.{list_any, range_with_len};
ghost use Rattle.nvm_record.specs.Ranges.{ranges_have, ranges_of};
ghost use Rattle.nvm_store.specs.Act.{operation_of};
ghost use Rattle.nvm_explain.specs.LastChange as spec;

use nvm_record::{LbaRange, range_count};
use nvm_store::{Act, Entry};

/// The last of the entries, each of which succeeded, that changes a block of the range, if one does, with its place among them. It takes
/// no memory and one walk over the entries, with a walk over the ranges of each Deallocate. The range may end above the highest LBA.
pub fn last_change(entries: &[Entry], range: LbaRange) -> Option<(usize, &Entry)>
    ensures last { option_map (λ found. (found.0, found.1.now)) result ≡ spec.last_change range entries.now }
    ensures place { IfSome result (λ found. found.0 < length entries.now) }
{
    let mut last = None;
    for (place, entry) in entries.iter().enumerate() {
        if changes_one(&entry.act, range) {
            last = Some((place, entry));
        }
    }
    last
}

/// Whether the act changes one of the blocks, where it succeeds.
fn changes_one(act: &Act, range: LbaRange) -> bool
    ensures { result ≡ spec.reaches_one range (operation_of act.now) }
{
    match act {
        Act::Write { first, blocks, .. }
        | Act::Zeroes { first, blocks }
        | Act::Uncorrectable { first, blocks }
        | Act::Pair { first, blocks, .. } => meet(range, *first, *blocks),
        Act::Deallocate {
            first,
            blocks,
            ranges,
        } => match range.cut(*first, *blocks) {
            Some(range) => have_one(ranges.as_slice(), range),
            None => false,
        },
    }
}

/// Whether one of the blocks is among the `blocks` from `first`.
fn meet(range: LbaRange, first: u64, blocks: u32) -> bool
    ensures { result ≡ list_any (λ lba. nat_le first lba && nat_lt lba (first + blocks)) (range_with_len range.first range.blocks) }
{
    range.cut(first, blocks).is_some()
}

/// Whether one of the blocks is in one of the ranges that the data names.
fn have_one(payload: &[u8], range: LbaRange) -> bool
    ensures { result ≡ list_any (λ lba. ranges_have (ranges_of payload.now) lba) (range_with_len range.first range.blocks) }
{
    for place in 0..range_count(payload) {
        let named = LbaRange::at(payload, place);
        if named.cut(range.first, range.blocks).is_some() {
            return true;
        }
    }
    false
}
