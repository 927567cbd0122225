ghost use Rattle.std.specs.Prelude.{◌≡◌, ◌*◌, IfOk, IsSome, IsTrue, OnErr, length};
ghost use Rattle.nvm_record.specs.declared.status.Statuses.TheVariants.{One};
ghost use Rattle.nvm_record.specs.Deeds.{is_read};
ghost use Rattle.nvm_record.specs.Medium.{Medium};
ghost use Rattle.nvm_record.specs.Step.{statuses_of, data_of, medium_after};
ghost use Rattle.nvm_store.specs.ActRef.{lent_operation_of};
ghost use Rattle.nvm_store.specs.Look.{look_operation_of};
ghost use Rattle.nvm_store.specs.Answer.{IsAnswer, IsAnswerInto, IsRoomFor, HasBytes};
ghost use Rattle.nvm_store.specs.Contents.{Holds, Covers, Succeeds, StaysInPlace, place_of};
ghost use Rattle.nvm_store.specs.Operation.{read_operation};
ghost use Rattle.nvm_store.specs.Place.{IsWithin};

use crate::act_ref::ActRef;
use crate::comparison::{compare_range, pair_statuses};
use crate::look::{Answer, Look};
use crate::unit_blocks::UnitBlocks;
use nvm_record::{NoMemory, ReadData, Status, Statuses};
use std::alloc::Global;

/// The statuses that the act's command, or its two commands, complete with on these blocks: 0/00 for a
/// single command. A pair has its comparison's status first, and then 0/00 where that is 0/00, else 0/09.
/// It takes no memory, and changes nothing.
#[inline(always)]
pub fn judge(unit: &UnitBlocks, act: ActRef<'_>) -> Statuses
    requires { Covers unit.now (lent_operation_of act) }
    ensures { (m : Medium) → Holds unit.now m
        → result ≡ statuses_of (lent_operation_of act.entry) m }
{
    match act {
        ActRef::Write { .. }
        | ActRef::Zeroes { .. }
        | ActRef::Uncorrectable { .. }
        | ActRef::Deallocate { .. } => Statuses::One(Status::SUCCESSFUL_COMPLETION),
        ActRef::Pair {
            first,
            blocks,
            compare,
            write: _,
        } => pair_statuses(unit, first, blocks, compare.as_slice()),
    }
}

/// The status that the look's command completes with on these blocks: 2/81 where a block is marked, for a
/// Compare else 2/85 where a byte differs, and else 0/00. It takes no memory.
pub fn judge_look(unit: &UnitBlocks, look: Look<'_>) -> Status
    requires { Covers unit.now (look_operation_of look) }
    ensures { (m : Medium) → Holds unit.now m
        → One result ≡ statuses_of (look_operation_of look.entry) m }
{
    match look {
        Look::Read { first, blocks } => {
            if unit.has_mark(first, blocks) {
                Status::UNRECOVERED_READ_ERROR
            } else {
                Status::SUCCESSFUL_COMPLETION
            }
        }
        Look::Compare {
            first,
            blocks,
            payload,
        } => compare_range(unit, first, blocks, payload),
    }
}

/// The unit after the act's step, which shares all other blocks. The unit that is lent stays as it is.
pub fn apply(alloc: Global, unit: &UnitBlocks, act: ActRef<'_>) -> Result<UnitBlocks, NoMemory>
    requires covered { Covers unit.now (lent_operation_of act) }
    requires success { Succeeds unit.now (lent_operation_of act) }
    ensures step { IfOk result (λ after. (m : Medium) → Holds unit.now m
        → Holds after (medium_after unit.now.size (lent_operation_of act.entry) m)) }
    ensures place { IfOk result (StaysInPlace unit.now) }
{
    let mut after = unit.share()?;
    after.change(alloc, act)?;
    Ok(after)
}

/// What the look is answered on these blocks. A Read's data has its room reserved once, at its full
/// length. A Read that fails takes no memory, and a Compare takes none: it is always answered.
#[inline(always)]
pub fn answer(alloc: Global, unit: &UnitBlocks, look: Look<'_>) -> Result<Answer, NoMemory>
    requires { Covers unit.now (look_operation_of look) }
    ensures step { IfOk result (λ answer. (m : Medium) → Holds unit.now m
        → IsAnswer (look_operation_of look.entry) m answer) }
    ensures length { IfOk result (HasBytes ((look_operation_of look.entry).blocks * unit.now.size)) }

    // Only the data of a Read wants memory.
    ensures memory { OnErr result ((m : Medium) → Holds unit.now m
        → IsSome (data_of (look_operation_of look.entry) m)) }
    ensures always { OnErr result (IsTrue (is_read (look_operation_of look.entry).deed)) }
{
    match look {
        Look::Read { first, blocks } => read(alloc, unit, first, blocks),
        Look::Compare {
            first,
            blocks,
            payload,
        } => Ok(Answer::Status(compare_range(unit, first, blocks, payload))),
    }
}

/// The answer of a Read of the `blocks` LBAs from `first`.
fn read(alloc: Global, unit: &UnitBlocks, first: u64, blocks: u32) -> Result<Answer, NoMemory>
    requires { IsWithin (place_of unit.now) first blocks }
    ensures step { IfOk result (λ answer. (m : Medium) → Holds unit.now m
        → IsAnswer (read_operation first blocks) m answer) }
    ensures length { IfOk result (HasBytes (blocks * unit.now.size)) }
    ensures memory { OnErr result ((m : Medium) → Holds unit.now m
        → IsSome (data_of (read_operation first blocks) m)) }
{
    if unit.has_mark(first, blocks) {
        return Ok(Answer::Status(Status::UNRECOVERED_READ_ERROR));
    }
    let bytes = unit.bytes(alloc, first, blocks)?;
    Ok(Answer::Payload(ReadData::new(bytes)))
}

/// What the look is answered on these blocks: its status. With 0/00 a Read's data is in the buffer, which has its length. Else the buffer is as
/// it was. It takes no memory.
#[inline(always)]
pub fn answer_into(unit: &UnitBlocks, look: Look<'_>, buffer: &mut [u8]) -> Status
    requires covered { Covers unit.now (look_operation_of look) }
    requires room { IsRoomFor (look_operation_of look) unit.now.size buffer.old }
    ensures { (m : Medium) → Holds unit.now m
        → IsAnswerInto (look_operation_of look.entry) m result buffer.old buffer.new }
{
    match look {
        Look::Read { first, blocks } => read_into(unit, first, blocks, buffer),
        Look::Compare {
            first,
            blocks,
            payload,
        } => compare_range(unit, first, blocks, payload),
    }
}

/// The status of a Read of the `blocks` LBAs from `first`, whose data goes into the buffer.
#[inline(always)]
fn read_into(unit: &UnitBlocks, first: u64, blocks: u32, buffer: &mut [u8]) -> Status
    requires range { IsWithin (place_of unit.now) first blocks }
    requires room { length buffer.old ≡ blocks * unit.now.size }
    ensures { (m : Medium) → Holds unit.now m
        → IsAnswerInto (read_operation first blocks) m result buffer.old buffer.new }
{
    if unit.read_into(first, blocks, buffer) {
        return Status::UNRECOVERED_READ_ERROR;
    }
    Status::SUCCESSFUL_COMPLETION
}
