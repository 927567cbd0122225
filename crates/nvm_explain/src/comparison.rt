//! What is said of a comparison that is recorded as equal where it isn't, or as one that didn't hold where no byte differs.
ghost use Rattle.nvm_plan.specs.LentPart.{part_operation_of};
ghost use Rattle.nvm_store.specs.Contents.{Covers, place_of};
ghost use Rattle.nvm_store.specs.Place.{IsWithin};

use crate::difference::{difference_of, push_difference};
use crate::unit_at::UnitAt;
use nvm_plan::{LentPart, PartResult};
use nvm_record::{NoMemory, Status, Statuses};
use nvm_store::{ActRef, Answer, Look, answer};
use std::alloc::Global;

/// Appends what is said of the part's comparison, if it is one, which is recorded to have ended so: the byte that differs from what
/// the unit holds, or that none does, where it is recorded otherwise.
pub(crate) fn push_comparison(
    text: &mut String,
    alloc: Global,
    at: &UnitAt<'_>,
    part: &LentPart<'_>,
    recorded: Statuses,
    ended: PartResult,
) -> Result<(), NoMemory>
    requires { Covers at.now.blocks (part_operation_of part.now) }
{
    match *part {
        LentPart::Look(
            Look::Compare {
                first,
                blocks,
                payload,
            },
        ) => push_compared(text, alloc, at, recorded, ended, first, blocks, payload),
        LentPart::Act(
            ActRef::Pair {
                first,
                blocks,
                compare,
                ..
            },
        ) => push_compared(
            text,
            alloc,
            at,
            recorded,
            ended,
            first,
            blocks,
            compare.as_slice(),
        ),
        _ => Ok(()),
    }
}

/// Appends the same of the comparison of this data with the blocks from `first`, where they can be read.
fn push_compared(
    text: &mut String,
    alloc: Global,
    at: &UnitAt<'_>,
    recorded: Statuses,
    ended: PartResult,
    first: u64,
    blocks: u32,
    bytes: &[u8],
) -> Result<(), NoMemory>
    requires { IsWithin (place_of at.now.blocks) first blocks }
{
    let Answer::Payload(held) = answer(alloc, &at.blocks, Look::Read { first, blocks })? else {
        return Ok(());
    };
    let (Statuses::One(status) | Statuses::Two(status, _)) = recorded;
    // Whether it is recorded as one that didn't hold, by its status or by how the part of a pair ended.
    let is_failed = ended == PartResult::Failed || status != Status::SUCCESSFUL_COMPLETION;
    match difference_of(first, at.blocks.place().size, bytes, held.as_slice()) {
        None if is_failed => write!(text, "first difference: none\n"),
        Some(found) if status != Status::COMPARE_FAILURE => {
            push_difference(text, " compared ", " held ", at, Some(found))
        }
        _ => Ok(()),
    }
}
