//! What was done of a job, and of its part in a unit.
ghost use Rattle.std.specs.Prelude.{◌≡◌, IfSome, map};
ghost use Rattle.std.specs.Option.{option_map};
ghost use Rattle.nvm_explain.specs.Doing as spec;

use nvm_audit::DoneJob;
use nvm_plan::Part;
use nvm_record::{Status, Statuses};

/// A part of a done job in one unit, and the statuses that its host was sent of it.
#[derive(Clone, Copy)]
pub struct DonePart {
    pub part: Part,
    /// The job's statuses of its last part, and success of one that has others after it.
    pub statuses: Statuses,
}

/// What was done of the job of this number by the first worker that did it, if one did.
pub(crate) fn done_of<'a>(all: &'a [Vec<DoneJob>], number: u32) -> Option<&'a DoneJob>
    ensures { option_map (λ done. done.now) result ≡ spec.first_done number (map (λ work. work.items) all.now) }
{
    for work in all {
        for done in work {
            if done.job == number {
                return Some(done);
            }
        }
    }
    None
}

/// The done job's first part in this unit, if it has one.
pub(crate) fn part_of(done: &DoneJob, unit: u16) -> Option<DonePart>
    ensures is { result ≡ spec.part_of_done unit done.now }
    ensures there { IfSome result (λ found. found.part.unit ≡ unit) }
{
    for (place, part) in done.parts.as_slice().iter().enumerate() {
        if part.unit == unit {
            let is_last = place + 1 == done.parts.len();
            let statuses = if is_last {
                done.statuses
            } else {
                Statuses::One(Status::SUCCESSFUL_COMPLETION)
            };
            return Some(DonePart {
                part: *part,
                statuses,
            });
        }
    }
    None
}
