//! Whose data a command of a trace found in a block.
use crate::blocks::{found_at, put_at, puts, was_at_first};
use crate::point_name::command_of;
use nvm_record::NoMemory;
use nvm_standard::{Point, Points};
use std::alloc::Global;

/// So many commands are named at most that put the same bytes in a block.
const NAMED: usize = 3;
/// So many parts of a torn block are told at most.
const PARTS: usize = 8;
/// A part of a block that is so long, or ends the block, isn't some command's by chance.
const CHANCE: usize = 8;

/// Whose a part of a block's bytes are.
#[derive(Clone, Copy, Debug, PartialEq, Eq)]
pub(crate) enum Owner {
    /// No command put them there.
    Nobody,
    /// They are zeroes, as all was at first.
    Zeroes,
    /// The command of this number did.
    Job(u32),
}

/// A part of a block's bytes, and whose they are.
#[derive(Clone, Copy, Debug)]
pub(crate) struct Part {
    from: usize,
    to: usize,
    pub(crate) owner: Owner,
}

/// How many bytes both begin with.
fn common(one: &[u8], other: &[u8]) -> usize {
    for (place, byte) in one.iter().enumerate() {
        if other.get(place) != Some(byte) {
            return place;
        }
    }
    one.len()
}

/// How many zeroes the bytes begin with.
fn zeroes(bytes: &[u8]) -> usize {
    bytes
        .iter()
        .position(|byte| *byte != 0)
        .unwrap_or(bytes.len())
}

/// The bytes from this place on.
fn rest(bytes: &[u8], from: usize) -> &[u8] {
    &bytes[from.min(bytes.len())..]
}

/// A part of the bytes from a place on that is as long as can be, and whose they are.
fn longest_from(
    points: &Points<'_>,
    reader: &Point<'_>,
    block: u32,
    bytes: &[u8],
    from: usize,
) -> Part {
    let wanted = rest(bytes, from);
    let mut owner = Owner::Zeroes;
    let mut longest = if was_at_first(points, &[]) {
        zeroes(wanted)
    } else {
        0
    };
    for point in &points.points {
        if let Some(put) = put_at(points, point, block) {
            let length = common(wanted, rest(put, from));
            if length > longest && point.command != reader.command {
                owner = Owner::Job(point.command);
                longest = length;
            }
        }
    }
    if longest < CHANCE.min(wanted.len()) || longest == 0 {
        owner = Owner::Nobody;
        longest = 1;
    }
    Part {
        from,
        to: from.saturating_add(longest),
        owner,
    }
}

/// The parts of the bytes, each as long as can be.
pub(crate) fn parts_of(
    alloc: Global,
    points: &Points<'_>,
    reader: &Point<'_>,
    block: u32,
    bytes: &[u8],
) -> Result<Vec<Part>, NoMemory> {
    let mut parts = Vec::new(alloc);
    let mut last = Part {
        from: 0,
        to: 0,
        owner: Owner::Nobody,
    };
    for place in 0..bytes.len() {
        if place >= last.to {
            let next = longest_from(points, reader, block, bytes, place);
            if next.owner == last.owner {
                last.to = next.to;
            } else {
                put_part(&mut parts, last)?;
                last = next;
            }
        }
    }
    put_part(&mut parts, last)?;
    Ok(parts)
}

/// Appends the part, unless it is empty.
fn put_part(parts: &mut Vec<Part>, part: Part) -> Result<(), NoMemory> {
    if part.from < part.to {
        parts.push(part)?;
    }
    Ok(())
}

/// The numbers of the points of other commands after which the block has these bytes.
pub(crate) fn writers_of(
    alloc: Global,
    points: &Points<'_>,
    reader: &Point<'_>,
    block: u32,
    bytes: &[u8],
) -> Result<Vec<u32>, NoMemory> {
    let mut writers = Vec::new(alloc);
    for (place, point) in points.points.iter().enumerate() {
        if let Ok(number) = u32::try_from(place) {
            if point.command != reader.command && puts(points, point, block, bytes) {
                writers.push(number)?;
            }
        }
    }
    Ok(writers)
}

/// Whose data the reader found in the block, or nothing if it found no bytes there.
pub(crate) fn source_of(
    alloc: Global,
    points: &Points<'_>,
    reader: &Point<'_>,
    block: u32,
) -> Result<String, NoMemory> {
    let mut text = String::new(alloc);
    let Some(bytes) = found_at(points, reader, block) else {
        return Ok(text);
    };
    let writers = writers_of(alloc, points, reader, block, bytes)?;
    if was_at_first(points, bytes) {
        text.push_str("zeroes, as at first")?;
        if !writers.is_empty() {
            text.push_str(", or of ")?;
        }
    } else if writers.is_empty() {
        let parts = parts_of(alloc, points, reader, block, bytes)?;
        push_parts(&mut text, &parts)?;
    }
    push_writers(&mut text, points, &writers)?;
    Ok(text)
}

/// Appends the names of the commands of these points.
fn push_writers(text: &mut String, points: &Points<'_>, writers: &[u32]) -> Result<(), NoMemory> {
    for (place, number) in writers.iter().take(NAMED).enumerate() {
        if place > 0 {
            text.push_str(" or ")?;
        }
        let job = command_of(points, *number);
        write!(text, "job {job}")?;
    }
    let more = writers.len().saturating_sub(NAMED);
    if more > 0 {
        write!(text, " or {more} more")?;
    }
    Ok(())
}

/// Whether the parts are of several commands, and each is of one.
pub(crate) fn are_torn(parts: &[Part]) -> bool {
    parts.len() > 1 && !parts.iter().any(|part| part.owner == Owner::Nobody)
}

/// Appends whose the parts of a block are that isn't one command's.
fn push_parts(text: &mut String, parts: &[Part]) -> Result<(), NoMemory> {
    if are_torn(parts) {
        text.push_str("torn: ")?;
    }
    for (place, part) in parts.iter().take(PARTS).enumerate() {
        if place > 0 {
            text.push_str(", ")?;
        }
        push_part(text, *part)?;
    }
    if parts.len() > PARTS {
        text.push_str(", ..")?;
    }
    Ok(())
}

/// Appends whose the part is.
fn push_part(text: &mut String, part: Part) -> Result<(), NoMemory> {
    let from = part.from;
    let last = part.to.saturating_sub(1);
    write!(text, "bytes {from} to {last} of ")?;
    match part.owner {
        Owner::Nobody => text.push_str("no command"),
        Owner::Zeroes => text.push_str("the first zeroes"),
        Owner::Job(job) => write!(text, "job {job}"),
    }
}
