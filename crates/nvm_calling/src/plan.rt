ghost use Rattle.std.specs.Prelude.{[], ◌∷◌, IfOk, map};
ghost use Rattle.std.specs.List.{All};
ghost use Rattle.nvm_plan.specs.Jobs.{IsJobList};
ghost use Rattle.nvm_plan.specs.Ready.{IsPlan};

use nvm_geometry::Geometry;
use nvm_plan::{Job, Plan, jobs, plan};
use nvm_record::{Command, NoMemory};
use std::alloc::Global;

/// A job, and whether a check refuses it.
#[derive(Drop)]
pub struct PlannedJob {
    pub job: Job,
    pub plan: Plan,
}

/// The jobs of two hosts' commands, in the order in which one worker does them, each with its plan.
pub fn planned_jobs(
    alloc: Global,
    geometry: &Geometry,
    of_host_1: Vec<Command>,
    of_host_2: Vec<Command>,
) -> Result<Vec<PlannedJob>, NoMemory>
    ensures jobs { IfOk result (λ planned. IsJobList (of_host_1.items ∷ of_host_2.items ∷ [])
        (map (λ p. p.job) planned.items)) }
    ensures plans { IfOk result (λ planned. All (λ p. IsPlan geometry.now p.job p.plan) planned.items) }
{
    let mut hosts = Vec::with_capacity(alloc, 2)?;
    hosts.push(of_host_1)?;
    hosts.push(of_host_2)?;
    let jobs = jobs(alloc, hosts)?;
    let mut planned = Vec::with_capacity(alloc, jobs.len())?;
    for job in jobs {
        let plan = plan(geometry, &job);
        planned.push(PlannedJob { job, plan })?;
    }
    Ok(planned)
}
