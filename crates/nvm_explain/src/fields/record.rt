//! The fields of a record.

use crate::fields::job::{Sizes, found_in_answer, found_in_job};
use crate::fields::numbers::{behind, u8_at, u16_at, u32_at, u64_at};
use crate::fields::walk::Walk;
use nvm_geometry::Geometry;
use nvm_record::NoMemory;
use std::alloc::Global;

/// The kinds of entries that have data or ranges.
const WRITE: u8 = 1;

const PAIR: u8 = 4;

const DEALLOCATE: u8 = 5;

/// Whether a field of a record, over which the walk begins, has the offset.
pub(crate) fn found_in_record(alloc: Global, walk: &mut Walk<'_>) -> Result<bool, NoMemory> {
    let bytes = walk.rest();
    let is_first_version = u8_at(bytes, 3) == b'1';
    let limit = if is_first_version { 2 } else { 4 };
    let is_in_head = walk.finds(&[
        ("the name", 4),
        ("the numbers of the namespace", 20),
        ("the limit", limit),
        ("the number of workers", 2),
        ("the number of jobs", 4),
    ])?;
    if is_in_head {
        return Ok(true);
    }
    let sizes = Sizes {
        block: u16_at(bytes, 12) as usize,
        has_ranges: !is_first_version,
    };
    let mut jobs = Vec::new(alloc);
    for number in 0..u32_at(bytes, 26 + limit) {
        jobs.push(walk.rest())?;
        if found_in_job(walk, sizes)? {
            return walk.found_in("job", number);
        }
    }
    for unit in 0..units_of(bytes) {
        if found_in_history(walk, sizes)? {
            return walk.found_in("unit", u32::from(unit));
        }
    }
    for worker in 0..u16_at(bytes, 24 + limit) {
        if found_in_work(walk, sizes, &jobs)? {
            return walk.found_in("worker", u32::from(worker));
        }
    }
    Ok(false)
}

/// How many units there are; none where the numbers are those of no namespace.
fn units_of(bytes: &[u8]) -> u16 {
    let geometry = Geometry::new(
        u64_at(bytes, 4),
        u32_at(bytes, 12),
        u16_at(bytes, 16),
        u16_at(bytes, 18),
        u16_at(bytes, 20),
        u16_at(bytes, 22),
    );
    match geometry {
        Ok(geometry) => geometry.units(),
        Err(_) => 0,
    }
}

/// Whether a field of a unit's history, which is next, has the offset.
fn found_in_history(walk: &mut Walk<'_>, sizes: Sizes) -> Result<bool, NoMemory> {
    let entries = u32_at(walk.rest(), 0);
    if walk.finds(&[("the number of entries", 4)])? {
        return Ok(true);
    }
    for place in 0..entries {
        if found_in_entry(walk, sizes)? {
            return walk.found_in("entry", place);
        }
    }
    Ok(false)
}

/// Whether a field of an entry, which is next, has the offset.
fn found_in_entry(walk: &mut Walk<'_>, sizes: Sizes) -> Result<bool, NoMemory> {
    let entry = walk.rest();
    let kind = u8_at(entry, 6);
    if walk.finds(&[("the pass", 2), ("the job", 4), ("the kind", 1)])? {
        return Ok(true);
    }
    if kind == DEALLOCATE {
        return found_in_ranges(walk, u16_at(entry, 7));
    }
    let blocks = (u32_at(entry, 15) as usize).saturating_mul(sizes.block);
    let written = match kind {
        WRITE => blocks,
        PAIR => blocks.saturating_mul(2),
        _ => 0,
    };
    walk.finds(&[
        ("the first LBA", 8),
        ("the number of blocks", 4),
        ("the data", written),
    ])
}

/// Whether a field of an entry's ranges, of which there are so many, has the offset.
fn found_in_ranges(walk: &mut Walk<'_>, ranges: u16) -> Result<bool, NoMemory> {
    if walk.finds(&[("the number of ranges", 2)])? {
        return Ok(true);
    }
    for range in 0..ranges {
        if walk.finds(&[("the first LBA", 8), ("the number of blocks", 4)])? {
            return walk.found_in("range", u32::from(range));
        }
    }
    Ok(false)
}

/// Whether a field of what a worker did, which is next, has the offset. The jobs begin with these bytes.
fn found_in_work(walk: &mut Walk<'_>, sizes: Sizes, jobs: &[&[u8]]) -> Result<bool, NoMemory> {
    let count = u32_at(walk.rest(), 0);
    if walk.finds(&[("the number of done jobs", 4)])? {
        return Ok(true);
    }
    for number in 0..count {
        if found_in_done(walk, sizes, jobs)? {
            return walk.found_in("done job", number);
        }
    }
    Ok(false)
}

/// Whether a field of a done job, which is next, has the offset.
fn found_in_done(walk: &mut Walk<'_>, sizes: Sizes, jobs: &[&[u8]]) -> Result<bool, NoMemory> {
    let done = walk.rest();
    let job = match jobs.get(u32_at(done, 0) as usize) {
        Some(job) => *job,
        None => behind(done, done.len()),
    };
    if walk.finds(&[("the job", 4), ("the number of parts", 2)])? {
        return Ok(true);
    }
    for part in 0..u16_at(done, 4) {
        if walk.finds(&[("the unit", 2), ("the point", 4), ("the result", 1)])? {
            return walk.found_in("part", u32::from(part));
        }
    }
    found_in_answer(walk, sizes, job)
}
