ghost use Rattle.nvm_store.specs.Contents.{Covers};

use crate::comparison::push_comparison;
use crate::difference::push_byte;
use crate::given::{OutcomeText, given_on, push_operation};
use crate::looked_up::{entries_of, job_of};
use crate::unit_at::{UnitAt, unit_at};
use crate::written::written_apart;
use nvm_audit::{Record, Spot};
use nvm_listing::push_entry;
use nvm_plan::{LentPart, PartResult, job_part_in};
use nvm_record::{NoMemory, Status, Statuses};
use nvm_store::Entry;
use std::alloc::Global;

/// Appends an entry as it is recorded, the part that its job has in the unit, the first byte that the entry writes otherwise, and what the step
/// gives the entry at its place, if each entry before succeeds.
pub(crate) fn push_entry_story(
    text: &mut String,
    alloc: Global,
    run: &Record,
    number: u32,
    spot: Spot,
) -> Result<(), NoMemory> {
    let Spot { unit, place } = spot;
    let Some(history) = entries_of(run, unit) else {
        return Ok(());
    };
    let Some(entry) = history.get(place as usize) else {
        return Ok(());
    };
    text.push_str("recorded: ")?;
    push_entry(text, usize::from(unit), place as usize, entry)?;
    push_own_part(text, alloc, run, number, unit, entry)?;
    match unit_at(alloc, &run.geometry, unit, history, place)? {
        Some(at) => push_given(text, alloc, &at, entry),
        None => Ok(()),
    }
}

/// Appends what the step gives an entry in this unit, and the first byte that differs where it is of a pair that doesn't compare
/// equal there.
fn push_given(
    text: &mut String,
    alloc: Global,
    at: &UnitAt<'_>,
    entry: &Entry,
) -> Result<(), NoMemory>
    requires { Covers at.now.blocks entry.now.operation }
{
    let act = LentPart::Act(entry.act.as_ref());
    let given = given_on(alloc, &at.blocks, &act)?;
    let gives = OutcomeText(given.statuses, given.data());
    write!(text, "the step gives: status {gives}\n")?;
    let recorded = Statuses::One(Status::SUCCESSFUL_COMPLETION);
    push_comparison(text, alloc, at, &act, recorded, PartResult::Done)
}

/// Appends the part that the job of this number has in the unit, if there is such a job, and the first byte that the entry writes
/// otherwise, where both write the same number of blocks from one LBA.
fn push_own_part(
    text: &mut String,
    alloc: Global,
    run: &Record,
    number: u32,
    unit: u16,
    entry: &Entry,
) -> Result<(), NoMemory> {
    let Some(job) = job_of(run, number) else {
        return Ok(());
    };
    let Some(part) = job_part_in(&run.geometry, job, unit) else {
        return text.push_str("the job's part: none\n");
    };
    text.push_str("the job's part:")?;
    push_operation(text, alloc, &part)?;
    text.push_str("\n")?;
    match written_apart(run.geometry.block_size(), &entry.act, &part) {
        Some(found) => push_byte(text, " recorded ", " sent ", found),
        None => Ok(()),
    }
}
