//! What the points of a trace find and put in a block, and whose that is.
use crate::precedence::order_of;
use nvm_standard::{Deallocated, Fact, Found, Point, Points, Presence, Put};
use nvm_trace::Start;

/// What a point found in a block that it has.
#[derive(Clone, Copy)]
pub(crate) struct FoundBlock<'a, 't> {
    /// The number of the point.
    pub number: u32,
    pub point: &'a Point<'t>,
    /// The block's LBA.
    pub block: u32,
    pub bytes: &'t [u8],
}

/// Whether the point has the block.
pub(crate) fn has(point: &Point<'_>, block: u32) -> bool {
    block >= point.first && block - point.first < point.blocks
}

/// The bytes of one block of a point, of those of all its blocks. Those that aren't there are left out.
fn bytes_at<'t>(points: &Points<'_>, point: &Point<'_>, block: u32, bytes: &'t [u8]) -> &'t [u8] {
    let size = points.block_size.bytes() as usize;
    let skipped = (block.saturating_sub(point.first) as usize).saturating_mul(size);
    let from = skipped.min(bytes.len());
    let to = skipped.saturating_add(size).min(bytes.len());
    &bytes[from..to]
}

/// The bytes that the point found in the block, where it says which.
pub(crate) fn found_at<'t>(points: &Points<'_>, point: &Point<'t>, block: u32) -> Option<&'t [u8]> {
    match point.found {
        Found::Bytes(bytes) if has(point, block) => Some(bytes_at(points, point, block, bytes)),
        _ => None,
    }
}

/// The bytes of data that the point put in the block.
pub(crate) fn put_at<'t>(points: &Points<'_>, point: &Point<'t>, block: u32) -> Option<&'t [u8]> {
    match point.put {
        Put::Bytes(bytes) if has(point, block) => Some(bytes_at(points, point, block, bytes)),
        _ => None,
    }
}

/// Whether all of the bytes are this one.
pub(crate) fn is_filled(bytes: &[u8], byte: u8) -> bool {
    bytes.iter().all(|it| *it == byte)
}

/// Whether the block has these bytes after the point, by what it puts there.
pub(crate) fn puts(points: &Points<'_>, point: &Point<'_>, block: u32, bytes: &[u8]) -> bool {
    if !has(point, block) {
        return false;
    }
    match point.put {
        Put::Bytes(put) => bytes_at(points, point, block, put) == bytes,
        Put::Zeroes => is_filled(bytes, 0),
        Put::Deallocated => reads_as_deallocated(points.deallocated, bytes),
        Put::Nothing | Put::Mark | Put::Anything => false,
    }
}

/// Whether a deallocated block may read as these bytes.
fn reads_as_deallocated(deallocated: Deallocated, bytes: &[u8]) -> bool {
    match deallocated {
        Deallocated::Zeroes => is_filled(bytes, 0),
        Deallocated::Ones => is_filled(bytes, 0xff),
        Deallocated::Either => is_filled(bytes, 0) || is_filled(bytes, 0xff),
    }
}

/// Whether the block is known to have held these bytes at first.
pub(crate) fn was_at_first(points: &Points<'_>, bytes: &[u8]) -> bool {
    points.start == Start::Zeroes && is_filled(bytes, 0)
}

/// What the block surely was after a point that is there, if it wasn't these bytes.
#[derive(Clone, Copy, Debug, PartialEq, Eq)]
pub(crate) enum Other {
    /// Other data was put there.
    Put,
    /// Other data was found there.
    Found,
}

/// Whether after the point the block surely was something else than these bytes.
pub(crate) fn other_at(
    points: &Points<'_>,
    point: &Point<'_>,
    block: u32,
    bytes: &[u8],
) -> Option<Other> {
    if point.presence != Presence::Sure || !has(point, block) {
        return None;
    }
    match point.put {
        Put::Bytes(_) | Put::Zeroes | Put::Mark => {
            if puts(points, point, block, bytes) {
                None
            } else {
                Some(Other::Put)
            }
        }
        Put::Nothing => match found_at(points, point, block) {
            Some(found) if found != bytes => Some(Other::Found),
            _ => None,
        },
        Put::Deallocated | Put::Anything => None,
    }
}

/// Whether a fact says that of these two points the one comes before the other: by time or in this block, if there is one, or else in any.
fn says_before(fact: Fact, before: u32, after: u32, block: Option<u32>) -> bool {
    match order_of(fact) {
        Some(order) => {
            let is_there = block.is_none() || order.lba.is_none() || order.lba == block;
            is_there && order.before == before && order.after == after
        }
        None => false,
    }
}

/// Whether the one point was over before the other began. A Deallocate isn't done after a later write, however late it may be.
fn is_earlier(before: &Point<'_>, after: &Point<'_>) -> bool {
    let is_write = !matches!(after.put, Put::Nothing);
    match before.until {
        Some(until) => until < after.from,
        None => match before.over {
            Some(over) => is_write && over < after.from,
            None => false,
        },
    }
}

/// Whether the one point comes before the other in the block, by their times or by one of the facts. Points that are done at one moment come so
/// in each block or in none.
pub(crate) fn is_before(
    points: &Points<'_>,
    facts: &[Fact],
    before: u32,
    after: u32,
    block: u32,
) -> bool {
    let (Some(first), Some(second)) = (
        points.points.get(before as usize),
        points.points.get(after as usize),
    ) else {
        return false;
    };
    let at = if first.each || second.each {
        Some(block)
    } else {
        None
    };
    is_earlier(first, second)
        || facts
            .iter()
            .any(|fact| says_before(*fact, before, after, at))
}

/// Whether one of the facts puts the point before or after another.
pub(crate) fn is_named(facts: &[Fact], point: u32) -> bool {
    facts.iter().any(|fact| match order_of(*fact) {
        Some(order) => order.before == point || order.after == point,
        None => false,
    })
}
