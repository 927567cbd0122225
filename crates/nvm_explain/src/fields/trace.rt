//! The fields of a trace.

use crate::fields::job::{Sizes, found_in_answer, found_in_job};
use crate::fields::numbers::{u16_at, u32_at, u64_at};
use crate::fields::walk::Walk;
use nvm_record::NoMemory;

/// Whether a field of a trace, over which the walk begins, has the offset.
pub(crate) fn found_in_trace(walk: &mut Walk<'_>) -> Result<bool, NoMemory> {
    let bytes = walk.rest();
    let is_in_head = walk.finds(&[
        ("the name", 4),
        ("the numbers of the namespace", 20),
        ("the LBA at which the window begins", 8),
        ("what was known of the blocks before", 1),
        ("what the device promises", 1),
        ("the number of jobs", 4),
    ])?;
    if is_in_head {
        return Ok(true);
    }
    let sizes = Sizes {
        block: u16_at(bytes, 12) as usize,
        has_ranges: true,
    };
    for number in 0..u32_at(bytes, 34) {
        if found_in_traced(walk, sizes)? {
            return walk.found_in("job", number);
        }
    }
    Ok(false)
}

/// Whether a field of a job with its times and what came back, which is next, has the offset.
fn found_in_traced(walk: &mut Walk<'_>, sizes: Sizes) -> Result<bool, NoMemory> {
    let job = walk.rest();
    if found_in_job(walk, sizes)? {
        return Ok(true);
    }
    let has_ended = u64_at(walk.rest(), 8) != u64::MAX;
    if walk.finds(&[("the beginning", 8), ("the end", 8)])? {
        return Ok(true);
    }
    if has_ended {
        found_in_answer(walk, sizes, job)
    } else {
        Ok(false)
    }
}
