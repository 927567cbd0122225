ghost use Rattle.std.specs.Prelude.{◌≡◌, ◌≤◌, None, length};
ghost use Rattle.nvm_geometry.specs.Boundaries.{units_of};
ghost use Rattle.nvm_plan.specs.Checks.{refusal_of};
ghost use Rattle.nvm_plan.specs.JobPart as spec;

use crate::checks::plan;
use crate::decision::Plan;
use crate::job::Job;
use crate::laws::{parts_of_jobs, ready_jobs};
use crate::reach::{Reach, reach_of};
use crate::reached::{first_reached, next_reached};
use nvm_geometry::{Geometry, laws};
use std::marker::Model;

/// The numbers of the units in which a job has a part, ascending: what [`job_units`] gives.
///
/// A number takes a constant number of steps, and that of a Dataset Management one walk over its ranges. It takes no
/// memory. A contract sees it as the list of the numbers that are left.
#[derive(Debug, Drop)]
pub struct JobUnits<'a> {
    geometry: Geometry,
    job: &'a Job,
    /// The lowest LBA that the job reaches in the units that are left.
    next: Option<u64>,
}

impl<'a> Model for JobUnits<'a> {
    ghost use Rattle.std.specs.Prelude.{List, ℕ};
    ghost use Rattle.nvm_plan.specs.Inside.UnitsLeft.{units_left, IsFoundIn};

    ghost Value = { List ℕ };

    ghost view = { λ units. units_left units.geometry units.job.now units.next };

    ghost invariant = { λ units. IsFoundIn units.geometry units.job.now units.next };
}

/// The numbers of the units in which a job has a part, ascending. There are none where a check refuses the job, and
/// none of a Dataset Management without the Deallocate bit, or without a range that has a block. It takes no memory.
pub fn job_units<'a>(geometry: &Geometry, job: &'a Job) -> JobUnits<'a>
    ensures { result ≡ spec.job_units geometry.now job.now }
{
    parts_of_jobs();
    match plan(geometry, job) {
        Plan::Refused(_) => JobUnits {
            geometry: *geometry,
            job,
            next: None,
        },
        Plan::Ready => ready_job_units(geometry, job),
    }
}

/// The units in which a job has a part, in their order, where no check applies to the job: what [`job_units`] gives. It makes no plan, and
/// takes no memory.
pub fn ready_job_units<'a>(geometry: &Geometry, job: &'a Job) -> JobUnits<'a>
    requires { refusal_of geometry.now job.now ≡ None }
    ensures { result ≡ spec.job_units geometry.now job.now }
{
    laws::ranges_meet_their_units();
    ready_jobs();
    parts_of_jobs();
    JobUnits {
        geometry: *geometry,
        job,
        next: first_reached(&geometry.large(), job),
    }
}

/// In how many units a job has a part: 0 where a check refuses it. It takes no memory and a constant number of
/// steps, and for a Dataset Management a walk over its ranges for each of its parts.
pub fn job_part_count(geometry: &Geometry, job: &Job) -> u16
    ensures value { result ≡ length (spec.job_units geometry.now job.now) }
    ensures valid { result ≤ units_of geometry.now }
{
    parts_of_jobs();
    match plan(geometry, job) {
        Plan::Refused(_) => 0,
        Plan::Ready => ready_part_count(geometry, job),
    }
}

/// In how many units a job has a part, where no check applies to the job: what [`job_part_count`] gives. It makes no plan, takes no memory,
/// and costs as many steps.
#[inline(always)]
pub fn ready_part_count(geometry: &Geometry, job: &Job) -> u16
    requires { refusal_of geometry.now job.now ≡ None }
    ensures value { result ≡ length (spec.job_units geometry.now job.now) }
    ensures valid { result ≤ units_of geometry.now }
{
    laws::units_met_are_those_reached();
    laws::whole_ranges_are_reached();
    ready_jobs();
    parts_of_jobs();
    match reach_of(&job.body) {
        Reach::Range { first, blocks } => geometry.piece_count(first, blocks),
        Reach::Ranges(_) => {
            // For the proof alone: how many units there can be.
            let _units = geometry.units();
            ready_job_units(geometry, job).count() as u16
        }
    }
}

impl<'a> Iterator for JobUnits<'a> {
    ghost use Rattle.std.specs.Iterator.{YieldsFirst, item_count};

    type Item = u16;

    ghost next_gives = { YieldsFirst (λ units. units) };

    ghost remaining = { item_count (λ units. units) };

    #[inline(always)]
    fn next(&mut self) -> Option<u16> {
        let lba = self.next?;
        self.next = next_reached(&self.geometry.large(), self.job, lba);
        Some(self.geometry.unit_of(lba))
    }
}
