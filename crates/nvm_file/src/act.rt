//! What an entry of a unit's history did, in a record file.
ghost use Rattle.std.specs.Prelude.{◌≡◌};
ghost use Rattle.nvm_store.specs.Act.{operation_of};
ghost use Rattle.nvm_file.specs.EntryReading as spec;
ghost use Rattle.nvm_file.specs.EntryReading.{deallocate_at, fused_at, operation_at, operation_of_kind, range_in, uncorrectable_at, write_at, zeroes_at};
ghost use Rattle.nvm_file.specs.Fields.{Gives, items_at};
ghost use Rattle.nvm_file.specs.Inside.Rest.{left_of};

use crate::fields::{data_of, refused, u8_in, u16_in, u32_of, u64_of};
use crate::items::items_of;
use crate::record_fault::RecordFault;
use crate::rest::Rest;
use nvm_audit::Version;
use nvm_record::{LbaRange, ranges_data};
use nvm_store::{Act, Place};
use std::alloc::Global;

/// A range of a Deallocate has so many bytes.
const RANGE_BYTES: usize = 12;

/// A Deallocate has at most so many ranges.
const MOST_RANGES: u16 = 256;

/// What was done: its kind, and then by the kind.
#[tactic(auto, unfolding(crate::specs::EntryReading::operation_at))]
pub fn act_of<'a>(
    alloc: Global,
    total: usize,
    version: Version,
    place: &Place,
    rest: Rest<'a>,
) -> Result<(Act, Rest<'a>), RecordFault>
    ensures { Gives (λ x. (operation_of x.0, left_of x.1)) result (operation_at total version place.now (left_of rest.entry)) }
{
    let (kind, rest) = u8_in(total, 1, last_kind(version), rest)?;
    act_of_kind(alloc, kind, total, place, rest)
}

/// The highest kind of an entry that the version has.
fn last_kind(version: Version) -> u8
    ensures { result ≡ spec.last_kind version }
{
    match version {
        Version::One => 4,
        Version::Two => 5,
    }
}

/// What the kind says.
fn act_of_kind<'a>(
    alloc: Global,
    kind: u8,
    total: usize,
    place: &Place,
    rest: Rest<'a>,
) -> Result<(Act, Rest<'a>), RecordFault>
    ensures { Gives (λ x. (operation_of x.0, left_of x.1)) result (operation_of_kind kind total place.now (left_of rest.entry)) }
{
    match kind {
        1 => write_of(total, place, rest),
        2 => zeroes_of(total, place, rest),
        3 => uncorrectable_of(total, place, rest),
        4 => fused_of(total, place, rest),
        _ => deallocate_of(alloc, total, place, rest),
    }
}

/// A Write: its range, then its blocks.
#[tactic(auto, unfolding(crate::specs::EntryReading::write_at))]
fn write_of<'a>(total: usize, place: &Place, rest: Rest<'a>) -> Result<(Act, Rest<'a>), RecordFault>
    ensures { Gives (λ x. (operation_of x.0, left_of x.1)) result (write_at total place.now (left_of rest.entry)) }
{
    let (range, rest) = range_of(total, place, rest)?;
    let count = range.blocks as usize * place.size.bytes() as usize;
    let (payload, rest) = data_of(total, count, rest)?;
    let act = Act::Write {
        first: range.first,
        blocks: range.blocks,
        payload,
    };
    Ok((act, rest))
}

/// A Write Zeroes.
#[tactic(auto, unfolding(crate::specs::EntryReading::zeroes_at))]
fn zeroes_of<'a>(
    total: usize,
    place: &Place,
    rest: Rest<'a>,
) -> Result<(Act, Rest<'a>), RecordFault>
    ensures { Gives (λ x. (operation_of x.0, left_of x.1)) result (zeroes_at total place.now (left_of rest.entry)) }
{
    let (range, rest) = range_of(total, place, rest)?;
    let act = Act::Zeroes {
        first: range.first,
        blocks: range.blocks,
    };
    Ok((act, rest))
}

/// A Write Uncorrectable.
#[tactic(auto, unfolding(crate::specs::EntryReading::uncorrectable_at))]
fn uncorrectable_of<'a>(
    total: usize,
    place: &Place,
    rest: Rest<'a>,
) -> Result<(Act, Rest<'a>), RecordFault>
    ensures { Gives (λ x. (operation_of x.0, left_of x.1)) result (uncorrectable_at total place.now (left_of rest.entry)) }
{
    let (range, rest) = range_of(total, place, rest)?;
    let act = Act::Uncorrectable {
        first: range.first,
        blocks: range.blocks,
    };
    Ok((act, rest))
}

/// A fused pair: its range, then the blocks of the Compare and those of the Write.
#[tactic(auto, unfolding(crate::specs::EntryReading::fused_at, crate::specs::Fields::bytes_at))]
fn fused_of<'a>(total: usize, place: &Place, rest: Rest<'a>) -> Result<(Act, Rest<'a>), RecordFault>
    ensures { Gives (λ x. (operation_of x.0, left_of x.1)) result (fused_at total place.now (left_of rest.entry)) }
{
    let (range, rest) = range_of(total, place, rest)?;
    let count = range.blocks as usize * place.size.bytes() as usize;
    let (both, rest) = data_of(total, 2 * count, rest)?;
    let compare = both.part(0, count)?;
    let write = both.part(count, both.len())?;
    let act = Act::Pair {
        first: range.first,
        blocks: range.blocks,
        compare,
        write,
    };
    Ok((act, rest))
}

/// A Deallocate on the unit: how many ranges it has, and each of them.
#[tactic(auto, unfolding(crate::specs::EntryReading::deallocate_at))]
fn deallocate_of<'a>(
    alloc: Global,
    total: usize,
    place: &Place,
    rest: Rest<'a>,
) -> Result<(Act, Rest<'a>), RecordFault>
    ensures { Gives (λ x. (operation_of x.0, left_of x.1)) result (deallocate_at total place.now (left_of rest.entry)) }
{
    let (count, rest) = u16_in(total, 1, MOST_RANGES, rest)?;
    let (ranges, rest) = ranges_of(alloc, total, place, count, rest)?;
    let act = Act::Deallocate {
        first: place.first,
        blocks: place.blocks,
        ranges: ranges_data(alloc, &ranges)?,
    };
    Ok((act, rest))
}

/// So many ranges in the unit.
fn ranges_of<'a>(
    alloc: Global,
    total: usize,
    place: &Place,
    count: u16,
    from: Rest<'a>,
) -> Result<(Vec<LbaRange>, Rest<'a>), RecordFault>
    ensures { Gives (λ x. (x.0.items, left_of x.1)) result (items_at (λ _. range_in total place.now) 0 count (left_of from.entry)) }
{
    items_of(
        alloc,
        count as u32,
        RANGE_BYTES,
        from,
        |_, rest| range_of(total, place, rest),
    )
}

/// A first LBA and a number of blocks, all inside the unit.
#[tactic(auto, unfolding(crate::specs::EntryReading::range_in))]
fn range_of<'a>(
    total: usize,
    place: &Place,
    rest: Rest<'a>,
) -> Result<(LbaRange, Rest<'a>), RecordFault>
    ensures { Gives (λ x. (x.0, left_of x.1)) result (range_in total place.now (left_of rest.entry)) }
{
    let (first, rest) = u64_of(total, rest)?;
    let (blocks, after) = u32_of(total, rest)?;
    let range = LbaRange { first, blocks };
    if !lies_in(place, range) {
        return Err(refused(total, rest));
    }
    Ok((range, after))
}

/// Whether the range has a block, and lies in the unit.
fn lies_in(place: &Place, range: LbaRange) -> bool
    ensures { result ≡ spec.lies_in place.now range }
{
    let blocks = u64::from(place.blocks);
    range.blocks > 0
        && range.first >= place.first
        && range.first - place.first <= blocks
        && u64::from(range.blocks) <= blocks - (range.first - place.first)
}
