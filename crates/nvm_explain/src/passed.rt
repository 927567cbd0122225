ghost use Rattle.std.specs.Prelude.{◌≡◌, ◌<◌, IfSome, length};
ghost use Rattle.nvm_explain.specs.Passed as spec;

use crate::doing::part_of;
use nvm_audit::{DoneJob, Record, Spot};
use nvm_listing::push_part;
use nvm_plan::{Part, PartResult};
use nvm_record::NoMemory;

/// Appends the first part that the worker of this job had in the unit before, and which had passed the point.
pub(crate) fn push_passed(
    text: &mut String,
    run: &Record,
    number: u32,
    spot: Spot,
) -> Result<(), NoMemory> {
    for (worker, work) in run.done.iter().enumerate() {
        if let Some(place) = place_in(work, number) {
            let Some((job, part)) = first_passed(&work[..place], spot) else {
                return Ok(());
            };
            text.push_str("before that: ")?;
            return push_part(text, worker, job, part);
        }
    }
    Ok(())
}

/// Where the job of this number is first among those that a worker did.
#[tactic(auto, unfolding(crate::specs::Passed::job_place))]
fn place_in(work: &[DoneJob], number: u32) -> Option<usize>
    ensures is { result ≡ spec.job_place number work.now }
    ensures there { IfSome result (λ place. place < length work.now) }
{
    work.iter().position(|done| done.job == number)
}

/// The first part in the unit that had passed the point, with the number of its job.
fn first_passed(work: &[DoneJob], spot: Spot) -> Option<(u32, Part)>
    ensures { result ≡ spec.first_passed spot work.now }
{
    for done in work {
        if let Some(found) = part_of(done, spot.unit) {
            if has_passed(found.part, spot.place) {
                return Some((done.job, found.part));
            }
        }
    }
    None
}

/// Whether the worker of the part had passed the point: its own was later, or it made the entry there.
fn has_passed(part: Part, point: u32) -> bool
    ensures { result ≡ spec.has_passed point part }
{
    part.point > point || part.point == point && part.result == PartResult::Done
}
