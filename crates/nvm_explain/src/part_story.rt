ghost use Rattle.std.specs.Prelude.{◌≡◌, option_map};
ghost use Rattle.nvm_plan.specs.LentPart.{part_operation_of};
ghost use Rattle.nvm_store.specs.Contents.{Covers};
ghost use Rattle.nvm_explain.specs.Difference as spec;

use crate::comparison::push_comparison;
use crate::difference::{Difference, difference_of, push_difference};
use crate::doing::{DonePart, done_of, part_of};
use crate::given::{Given, OutcomeText, given_on, push_operation};
use crate::looked_up::{entries_of, job_of};
use crate::recorded_data::recorded_data;
use crate::unit_at::{UnitAt, unit_at};
use nvm_audit::{Record, Spot};
use nvm_plan::{LentPart, job_part_in};
use nvm_record::{BlockSize, NoMemory};
use std::alloc::Global;

/// Appends what the part of this job in the unit does, what is recorded of it, and what the step gives at its point, if each entry
/// before succeeds.
pub(crate) fn push_part_story(
    text: &mut String,
    alloc: Global,
    run: &Record,
    number: u32,
    spot: Spot,
) -> Result<(), NoMemory> {
    let Some(job) = job_of(run, number) else {
        return Ok(());
    };
    let Some(done) = done_of(&run.done, number) else {
        return Ok(());
    };
    let Some(recorded) = part_of(done, spot.unit) else {
        return Ok(());
    };
    let Some(history) = entries_of(run, spot.unit) else {
        return Ok(());
    };
    let Some(asked) = job_part_in(&run.geometry, job, spot.unit) else {
        return Ok(());
    };
    let point = recorded.part.point;
    let Some(at) = unit_at(alloc, &run.geometry, spot.unit, history, point)? else {
        return Ok(());
    };
    let payload = recorded_data(run.geometry.block_size(), job, done, &asked);
    push_part(text, alloc, &at, &asked, recorded, payload)
}

/// Appends what the part does, what is recorded of it, with this data of a Read, and what the step gives in this unit.
fn push_part(
    text: &mut String,
    alloc: Global,
    at: &UnitAt<'_>,
    part: &LentPart<'_>,
    recorded: DonePart,
    payload: Option<&[u8]>,
) -> Result<(), NoMemory>
    requires { Covers at.now.blocks (part_operation_of part.now) }
{
    let given = given_on(alloc, &at.blocks, part)?;
    write!(text, "part: unit {} point {}", at.unit, recorded.part.point)?;
    push_operation(text, alloc, part)?;
    let ended = OutcomeText(recorded.statuses, payload);
    let gives = OutcomeText(given.statuses, given.data());
    write!(
        text,
        "\nrecorded: status {ended}\nthe step gives: status {gives}\n"
    )?;
    let size = at.blocks.place().size;
    let found = read_difference(part.first(), size, payload, &given);
    push_difference(text, " recorded ", " given ", at, found)?;
    push_comparison(
        text,
        alloc,
        at,
        part,
        recorded.statuses,
        recorded.part.result,
    )
}

/// The first byte of recorded data that differs from what the step gives, where both are there.
fn read_difference(
    first: u64,
    size: BlockSize,
    payload: Option<&[u8]>,
    given: &Given,
) -> Option<Difference>
    ensures { result ≡ spec.read_difference first size (option_map (λ bytes. bytes.now) payload.entry) given.now.payload }
{
    match (payload, given.data()) {
        (Some(bytes), Some(read)) => difference_of(first, size, bytes, read),
        _ => None,
    }
}
