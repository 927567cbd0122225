//! What one worker does.
ghost use Rattle.std.specs.Prelude.{◌≡◌, ◌<◌, [], All, IfOk, length, true};
ghost use Rattle.nvm_plan.specs.Fits.{FitsNamespace};
ghost use Rattle.nvm_space.specs.Ports.{IsPortOf};
ghost use Rattle.nvm_unit.specs.Ends.{views_of};
ghost use Rattle.nvm_engine.specs.DoneJobs.{HasDoneJob};
ghost use Rattle.nvm_engine.specs.Inside.Working.{recorded_job, HasWorked};

use crate::claim::Claim;
use crate::counter::Counter;
use nvm_audit::DoneJob;
use nvm_geometry::laws::few_units_are_regions;
use nvm_plan::laws::{data_comes_with_success, each_command_has_a_status};
use nvm_plan::{Completions, Job};
use nvm_record::{NoMemory, Statuses};
use nvm_space::{JobDone, Port, Space};
use nvm_unit::Gate;
use std::alloc::Global;
use std::sync::Wait;

/// A worker that has ended: its tokens, and what it did, in its order.
#[derive(Drop)]
pub struct Worker {
    pub claim: Claim,
    pub port: Port,
    pub done: Vec<DoneJob>,
}

/// Draws the number of the next job, does it by the port, reports it to the gate, and goes on until no job is left. The place in
/// the list of done jobs is reserved before a number is drawn, so a job that is drawn is recorded.
pub(crate) fn work<R: Wait, G: Gate>(
    rt: &R,
    alloc: Global,
    counter: &Counter,
    space: &Space,
    jobs: &[Job],
    claim: Claim,
    port: Port,
    gate: &G,
) -> Result<Worker, NoMemory>
    requires counter { claim.table ≡ counter.now.table }
    requires new { claim.drawn ≡ [] }
    requires jobs { counter.now.jobs ≡ length jobs.now }
    requires of { IsPortOf space.now port }
    requires lists { space.now.lists ≡ true }
    requires fit { All (FitsNamespace space.now.namespace) jobs.now }
    ensures { IfOk result (HasWorked counter.now space.now jobs.now port) }
{
    let mut claim = claim;
    let mut port = port;
    let mut done = Vec::new(alloc);
    for _ in rt.forever() {
        done.reserve(1)?;
        let Some(number) = counter.draw(&mut claim) else {
            return Ok(Worker { claim, port, done });
        };
        done.push_reserved(do_job(rt, alloc, space, jobs, &mut port, number, gate));
        gate.after_job(number);
    }
    unreachable!()
}

/// Does the job of this number by the port. Gives what a record shows of it.
fn do_job<R: Wait, G: Gate>(
    rt: &R,
    alloc: Global,
    space: &Space,
    jobs: &[Job],
    port: &mut Port,
    number: u32,
    gate: &G,
) -> DoneJob
    requires of { IsPortOf space.now port.old }
    requires lists { space.now.lists ≡ true }
    requires job { number < length jobs.now }
    requires fit { All (FitsNamespace space.now.namespace) jobs.now }
    ensures of { IsPortOf space.now port.new }
    ensures number { port.new.number ≡ port.old.number }
    ensures job { result.job ≡ number }
    ensures done { HasDoneJob space.now.namespace jobs.now result (views_of port.old.passes) (views_of port.new.passes) }
{
    each_command_has_a_status();
    data_comes_with_success();
    few_units_are_regions();
    // For the proof alone: where the run is recorded, each unit is a region.
    let _recorded = space.recorded();
    let _nsze = space.geometry().nsze();
    let done = space.run_job(rt, alloc, port, number, &jobs[number as usize], gate);
    recorded(number, done)
}

/// What a record shows of the job of this number, for which this was answered.
fn recorded(number: u32, done: JobDone) -> DoneJob
    ensures { result ≡ recorded_job number done }
{
    let JobDone { completions, parts } = done;
    let (statuses, payload) = match completions {
        Completions::One(completion) => (Statuses::One(completion.status), completion.payload),
        Completions::Two(first, second) => (Statuses::Two(first.status, second.status), None),
    };
    DoneJob {
        job: number,
        parts,
        statuses,
        payload,
    }
}
