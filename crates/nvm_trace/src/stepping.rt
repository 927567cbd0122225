ghost use Rattle.std.specs.Prelude.{◌≡◌, ◌++◌, IfOk, OnOk, map};
ghost use Rattle.nvm_trace.specs.Steps as spec;
ghost use Rattle.nvm_trace.specs.Steps.{steps_of_part, steps_of_job, steps_of_work};

use crate::owner::Owner;
use crate::step::{Step, Times};
use nvm_audit::DoneJob;
use nvm_plan::{Part, PartResult};
use nvm_record::NoMemory;
use std::alloc::Global;

/// When the job of this number began and ended. One that isn't the trace's did so before it.
fn times_of(owners: &Vec<Owner<'_>>, number: u32) -> Times
    ensures { result ≡ spec.times_of (map (λ o. o.whole.now) owners.now.items) number }
{
    let number = number as usize;
    if number >= owners.len() {
        return Times {
            began: 0,
            ended: Some(0),
        };
    }
    let job = owners[number].whole;
    let ended = match &job.ended {
        Some(ending) => Some(ending.time),
        None => None,
    };
    Times {
        began: job.began,
        ended,
    }
}

/// Puts the step of the part at the end, if it is one.
fn put_part(times: Times, job: u32, part: Part, steps: &mut Vec<Step>) -> Result<(), NoMemory>
    ensures { OnOk result (steps.new.items ≡ steps.old.items ++ steps_of_part times job part) }
{
    let made = match part.result {
        PartResult::Done => true,
        PartResult::Failed | PartResult::Looked => false,
        PartResult::NoMemory | PartResult::Full => return Ok(()),
    };
    steps.push(Step {
        job,
        unit: part.unit,
        point: part.point,
        made,
        began: times.began,
        ended: times.ended,
    })?;
    Ok(())
}

/// Puts the steps of the job at the end.
fn put_job(owners: &Vec<Owner<'_>>, done: &DoneJob, steps: &mut Vec<Step>) -> Result<(), NoMemory>
    ensures { OnOk result (steps.new.items ≡ steps.old.items ++ steps_of_job (map (λ o. o.whole.now) owners.now.items) done.now) }
{
    let times = times_of(owners, done.job);
    let parts = done.parts.as_slice();
    for i in 0..parts.len() {
        put_part(times, done.job, parts[i], steps)?;
    }
    Ok(())
}

/// Puts the steps of what a worker did at the end.
fn put_work(
    owners: &Vec<Owner<'_>>,
    work: &Vec<DoneJob>,
    steps: &mut Vec<Step>,
) -> Result<(), NoMemory>
    ensures { OnOk result (steps.new.items ≡ steps.old.items ++ steps_of_work (map (λ o. o.whole.now) owners.now.items) work.now.items) }
{
    // Most jobs have one part.
    steps.reserve(work.len())?;
    for k in 0..work.len() {
        put_job(owners, &work[k], steps)?;
    }
    Ok(())
}

/// The steps that a record shows, by worker and in the worker's order.
pub fn steps_of(
    alloc: Global,
    owners: &Vec<Owner<'_>>,
    done: &Vec<Vec<DoneJob>>,
) -> Result<Vec<Step>, NoMemory>
    ensures { IfOk result (λ steps. steps.items ≡ spec.steps_of (map (λ o. o.whole.now) owners.now.items) (map (λ work. work.items) done.now.items)) }
{
    let mut steps = Vec::new(alloc);
    for worker in 0..done.len() {
        put_work(owners, &done[worker], &mut steps)?;
    }
    Ok(steps)
}
