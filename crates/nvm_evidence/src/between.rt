//! What came between a block's writer and its reader.
use crate::blocks::{FoundBlock, Other, is_before, is_named, other_at};
use nvm_standard::{Fact, Points};

/// A command after which a block was something else, and why; and how well it is known to whoever reads the facts.
#[derive(Clone, Copy)]
pub(crate) struct Between {
    pub job: u32,
    pub other: Other,
    rank: u32,
}

/// A command after which the block was surely something else, after the writer, if there is one, and before the reader: one that the facts
/// name, if there is one, and one that put something there, if there is one.
pub(crate) fn came_between(
    points: &Points<'_>,
    facts: &[Fact],
    read: &FoundBlock<'_, '_>,
    writer: Option<u32>,
) -> Option<Between> {
    let mut best = None;
    for place in 0..points.points.len() {
        if let Ok(number) = u32::try_from(place) {
            best = better(best, between_at(points, facts, read, writer, number));
        }
    }
    best
}

/// What came between by the point of this number, if it did.
fn between_at(
    points: &Points<'_>,
    facts: &[Fact],
    read: &FoundBlock<'_, '_>,
    writer: Option<u32>,
    number: u32,
) -> Option<Between> {
    let block = read.block;
    let point = points.points.get(number as usize)?;
    let other = other_at(points, point, block, read.bytes)?;
    if let Some(writer) = writer {
        if !is_before(points, facts, writer, number, block) {
            return None;
        }
    }
    if number == read.number || !is_before(points, facts, number, read.number, block) {
        return None;
    }
    let by_name = if is_named(facts, number) { 2 } else { 0 };
    let by_deed = if other == Other::Put { 1 } else { 0 };
    Some(Between {
        job: point.command,
        other,
        rank: by_name + by_deed,
    })
}

/// The one that is better known, or else the first.
fn better(first: Option<Between>, second: Option<Between>) -> Option<Between> {
    match (first, second) {
        (Some(one), Some(other)) if other.rank > one.rank => second,
        (None, _) => second,
        _ => first,
    }
}
