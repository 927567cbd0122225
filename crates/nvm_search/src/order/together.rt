//! Pairs of which nothing says whether they were done.
use crate::numbers::{Numbers, block_at, to_u32};
use crate::order::acts::NONE;
use crate::order::known::Known;
use nvm_record::NoMemory;
use nvm_standard::{Deallocated, Found, Point, Points, Presence, Put};
use nvm_trace::Start;
use std::alloc::Global;

/// Whether the point may put these bytes in the block at this place of it. A point that is done together, or after such a one, isn't asked.
fn may_put(points: &Points<'_>, point: &Point<'_>, place: usize, bytes: &[u8]) -> bool {
    match point.put {
        Put::Nothing | Put::Mark => false,
        Put::Bytes(payload) => block_at(payload, points.block_size, place) == bytes,
        Put::Zeroes => are_all(bytes, 0),
        Put::Deallocated => {
            (points.deallocated != Deallocated::Ones && are_all(bytes, 0))
                || (points.deallocated != Deallocated::Zeroes && are_all(bytes, 0xff))
        }
        Put::Anything => true,
    }
}

/// Whether all bytes are this one.
fn are_all(bytes: &[u8], one: u8) -> bool {
    for byte in bytes {
        if *byte != one {
            return false;
        }
    }
    true
}

/// Whether somebody found what the point puts in one of its blocks, and nobody else can have put it there.
fn was_seen(points: &Points<'_>, number: usize) -> bool {
    let Some(point) = points.points.get(number) else {
        return false;
    };
    let Put::Bytes(payload) = point.put else {
        return false;
    };
    for place in 0..point.blocks {
        let block = point.first.saturating_add(place);
        let bytes = block_at(payload, points.block_size, place as usize);
        let of_start = points.start == Start::Unknown || are_all(bytes, 0);
        // The latest beginning of those who found it, and the first time at which the start's content was surely gone.
        let mut found = None;
        let mut written = u64::MAX;
        let mut is_put = false;
        for other in 0..points.points.len() {
            let reader = &points.points[other];
            let place = block.checked_sub(reader.first).unwrap_or(NONE);
            if other == number || place >= reader.blocks {
                continue;
            }
            let until = reader.until.unwrap_or(u64::MAX);
            if reader.presence == Presence::Sure {
                if let Found::Bytes(payload) = reader.found {
                    let is_same = block_at(payload, points.block_size, place as usize) == bytes;
                    if is_same && until >= point.from {
                        found = Some(reader.from.max(found.unwrap_or(0)));
                    }
                }
                if !matches!(&reader.put, Put::Nothing) {
                    written = written.min(until);
                }
            }
            is_put = is_put || may_put(points, reader, place as usize, bytes);
        }
        if let Some(found) = found {
            if !is_put && (written < found || !of_start) {
                return true;
            }
        }
    }
    false
}

/// Which points that are done together are to be done, by number: those whose pair's data was found where nobody else can have put it.
pub fn done_together(alloc: Global, points: &Points<'_>) -> Result<Numbers, NoMemory> {
    let mut done = Numbers::new(alloc, points.points.len(), 0)?;
    for number in 0..points.points.len() {
        let is_together = points.points[number].presence == Presence::Together;
        if is_together && was_seen(points, number.saturating_add(1)) {
            done.put(to_u32(number), 1);
        }
    }
    Ok(done)
}

/// Whether the point of this number is left out in a part: one that is done together or not, isn't surely done, and has blocks in other
/// parts, or what comes after such a one.
pub fn is_left_out(known: &Known<'_, '_>, point: &Point<'_>, number: u32) -> bool {
    let first = match point.presence {
        Presence::Together => number,
        _ if point.after => number.checked_sub(1).unwrap_or(NONE),
        _ => return false,
    };
    let is_together = match known.points.points.get(first as usize) {
        Some(point) => point.presence == Presence::Together,
        None => false,
    };
    is_together && known.is_split(number) && known.together.at(first) == 0
}
