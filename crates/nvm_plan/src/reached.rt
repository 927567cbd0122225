//! The LBAs at which the parts of a job begin, on a namespace of any size.
ghost use Rattle.std.specs.Prelude.{◌≡◌, ◌+◌, ◌<◌, ◌≤◌, ◌^◌, ◌||◌, ◌↔◌, ℕ, Bool, [], ◌∷◌, All, IfNone, IfSome, IsSome, IsTrue, None};
ghost use Rattle.nvm_record.specs.Ranges.{range_has, ranges_have, ranges_of};
ghost use Rattle.nvm_geometry.specs.Boundaries.{unit_number};
ghost use Rattle.nvm_geometry.specs.Lowest.{IsLowest};
ghost use Rattle.nvm_plan.specs.Checks.{refusal_of};
ghost use Rattle.nvm_plan.specs.Inside.Reach.{EndsLow, IsReachedFrom, reach_has};
ghost use Rattle.nvm_plan.specs.JobPart.{job_part_in, job_units_from};

use crate::job::Job;
use crate::laws::{parts_of_jobs, ready_jobs};
use crate::reach::{Reach, reach_of};
use nvm_geometry::{Geometry, LargeGeometry, laws};
use nvm_record::{LbaRange, range_count};

/// The lowest LBA that a job reaches, where no check applies to the job: its first part is in that LBA's unit. It is `None` where the job has no part.
/// It takes no memory and a constant number of steps, and for a Dataset Management a walk over its ranges.
pub fn first_reached(geometry: &LargeGeometry, job: &Job) -> Option<u64>
    requires { refusal_of geometry.now job.now ≡ None }
    ensures first { IfSome result (λ lba. job_units_from geometry.now job.now 0
        ≡ unit_number geometry.now lba ∷ job_units_from geometry.now job.now (unit_number geometry.now lba + 1)) }
    ensures known { IfSome result (λ lba. lba < geometry.now.nsze) }
    ensures none { IfNone result (job_units_from geometry.now job.now 0 ≡ []) }
{
    reached_from(geometry, job, 0)
}

/// The lowest LBA that a job reaches behind the unit in which this LBA lies, where no check applies to the job: its next part is in that LBA's unit. It
/// is `None` where the job has no part there. It takes no memory and a constant number of steps, and for a Dataset Management a walk over its ranges.
#[inline(always)]
pub fn next_reached(geometry: &LargeGeometry, job: &Job, lba: u64) -> Option<u64>
    requires free { refusal_of geometry.now job.now ≡ None }
    requires known { lba < geometry.now.nsze }
    ensures first { IfSome result (λ next. job_units_from geometry.now job.now (unit_number geometry.now lba + 1)
        ≡ unit_number geometry.now next ∷ job_units_from geometry.now job.now (unit_number geometry.now next + 1)) }
    ensures known { IfSome result (λ next. next < geometry.now.nsze) }
    ensures none { IfNone result (job_units_from geometry.now job.now (unit_number geometry.now lba + 1) ≡ []) }
{
    laws::units_number_the_namespace();
    reached_from(geometry, job, geometry.unit_end(lba))
}

/// Whether a job has a part in a unit, where no check applies to the job. It has none where no unit has that number.
pub(crate) fn has_part(geometry: &Geometry, job: &Job, unit: u16) -> bool
    requires { refusal_of geometry.now job.now ≡ None }
    ensures { IsTrue result ↔ IsSome (job_part_in geometry.now job.now unit) }
{
    laws::units_met_are_those_reached();
    ready_jobs();
    parts_of_jobs();
    if unit >= geometry.units() {
        return false;
    }
    let (first, blocks) = geometry.unit_range(unit);
    let found = reached_from(&geometry.large(), job, first);
    let end = first + u64::from(blocks);
    found.unwrap_or(end) < end
}

/// The lowest LBA from `from` on that a job reaches, where no check applies to the job.
fn reached_from(geometry: &LargeGeometry, job: &Job, from: u64) -> Option<u64>
    requires { refusal_of geometry.now job.now ≡ None }
    ensures { IsReachedFrom geometry.now job.now from result }
{
    laws::the_lowest_lba_is_met_first();
    ready_jobs();
    parts_of_jobs();

    // For the proof alone: how large the namespace can be.
    let _nsze = geometry.nsze();
    lowest_reached(reach_of(&job.body), from)
}

/// The lowest LBA from `from` on that a job's operation reaches.
fn lowest_reached(reach: Reach<'_>, from: u64) -> Option<u64>
    requires { EndsLow reach }
    ensures { IsLowest (reach_has reach.entry) from result }
{
    match reach {
        Reach::Range { first, blocks } => lowest_of_range(LbaRange { first, blocks }, from),
        Reach::Ranges(ranges) => lowest_of_ranges(ranges.as_slice(), from),
    }
}

/// The lowest LBA from `from` on that is in one of the ranges.
fn lowest_of_ranges(ranges: &[u8], from: u64) -> Option<u64>
    requires { All (λ r. r.first + r.blocks ≤ 2 ^ 40) (ranges_of ranges.now) }
    ensures { IsLowest (ranges_have (ranges_of ranges.now)) from result }
{
    let mut lowest = None;
    for place in 0..range_count(ranges) {
        let next = lowest_of_range(LbaRange::at(ranges, place), from);
        lowest = lower(lowest, next);
    }
    lowest
}

/// The lowest LBA from `from` on that is in the range.
fn lowest_of_range(range: LbaRange, from: u64) -> Option<u64>
    requires { range.first + range.blocks ≤ 2 ^ 40 }
    ensures { IsLowest (range_has range) from result }
{
    if range.blocks == 0 || from >= range.first + u64::from(range.blocks) {
        return None;
    }
    Some(range.first.max(from))
}

/// The lower of two LBAs, where there are any.
fn lower(a: Option<u64>, b: Option<u64>) -> Option<u64>
    ensures { (p q : ℕ → Bool) (from : ℕ) → IsLowest p from a → IsLowest q from b
        → IsLowest (λ k. p k || q k) from result }
{
    match (a, b) {
        (Some(a), Some(b)) => Some(a.min(b)),
        (Some(a), None) => Some(a),
        (None, b) => b,
    }
}
