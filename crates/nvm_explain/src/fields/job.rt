//! The fields of jobs, which records and traces have alike.

use crate::fields::numbers::{behind, u8_at, u16_at};
use crate::fields::walk::Walk;
use nvm_record::NoMemory;

/// The bytes of a command's submission queue entry.
const ENTRY: usize = 64;
/// Where the entry of a job's first command begins, after the host and the kind.
pub(crate) const FIRST_ENTRY: usize = 3;
/// The kind of a job that is a fused pair.
const PAIR: u8 = 1;

/// What the lengths of fields depend on.
#[derive(Clone, Copy)]
pub(crate) struct Sizes {
    /// The bytes of a block.
    pub(crate) block: usize,
    /// Whether ranges follow the entry of opcode 09h.
    pub(crate) has_ranges: bool,
}

/// Whether a field of a job, which is next, has the offset. If none has, the walk goes past the job.
pub(crate) fn found_in_job(walk: &mut Walk<'_>, sizes: Sizes) -> Result<bool, NoMemory> {
    let job = walk.rest();
    let first = data_length(sizes, behind(job, FIRST_ENTRY));
    if u8_at(job, 2) != PAIR {
        return walk.finds(&[
            ("the host", 2),
            ("the kind", 1),
            ("the command", ENTRY),
            ("the data", first),
        ]);
    }
    let second = FIRST_ENTRY.saturating_add(ENTRY).saturating_add(first);
    let second = data_length(sizes, behind(job, second));
    walk.finds(&[
        ("the host", 2),
        ("the kind", 1),
        ("the first command", ENTRY),
        ("the data of the first command", first),
        ("the second command", ENTRY),
        ("the data of the second command", second),
    ])
}

/// Whether a field of what came back of a job, which is next, has the offset: its statuses, and a Read's data. The job begins with these bytes.
pub(crate) fn found_in_answer(
    walk: &mut Walk<'_>,
    sizes: Sizes,
    job: &[u8],
) -> Result<bool, NoMemory> {
    let statuses = if u8_at(job, 2) == PAIR { 4 } else { 2 };
    let read = if u8_at(walk.rest(), statuses) == 1 {
        blocks_length(sizes, behind(job, FIRST_ENTRY))
    } else {
        0
    };
    walk.finds(&[
        ("the status", statuses),
        ("the flag of the data", 1),
        ("the data", read),
    ])
}

/// The bytes of the data that follows a command's entry.
fn data_length(sizes: Sizes, entry: &[u8]) -> usize {
    match u8_at(entry, 0) {
        1 | 5 => blocks_length(sizes, entry),
        9 if sizes.has_ranges => (u8_at(entry, 40) as usize + 1) * 16,
        _ => 0,
    }
}

/// The bytes of the blocks of a command with this entry.
fn blocks_length(sizes: Sizes, entry: &[u8]) -> usize {
    (u16_at(entry, 48) as usize + 1).saturating_mul(sizes.block)
}
