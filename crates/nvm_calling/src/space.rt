ghost use Rattle.std.specs.Prelude.{◌≡◌, ℕ, List, IfErr, IfOk, map};
ghost use Rattle.nvm_calling.specs.JobAlone.{IsJobAlone};
ghost use Rattle.nvm_plan.specs.Fits.{FitsNamespace};
ghost use Rattle.nvm_space.specs.Ports.{IsPortOf};
ghost use Rattle.nvm_space.specs.Progress.{IsProgress};
ghost use Rattle.nvm_space.specs.Shuffle.{AreLawfulHistories};
ghost use Rattle.nvm_space.specs.declared.space_fault.SpaceFault.TheVariants.{NoMemory};
ghost use Rattle.nvm_unit.specs.Ends.{views_of};
ghost use Rattle.nvm_unit.specs.declared.views.PassView.{PassView};

use nvm_geometry::Geometry;
use nvm_geometry::laws::few_units_are_regions;
use nvm_plan::Job;
use nvm_space::laws::{ports_are_changed_in_place, units_end_with_lawful_histories};
use nvm_space::{JobDone, Port, Progress, Space, SpaceFault};
use nvm_store::{History, Limit};
use nvm_unit::Open;
use std::alloc::Global;
use std::sync::Wait;

/// A job that was done on a new namespace, and what that left.
#[derive(Drop)]
pub struct JobAlone {
    /// What its host is told, and the parts that were done.
    pub done: JobDone,
    /// The history of each unit, in the order of the units.
    pub histories: Vec<History>,
}

/// Does one job on a namespace of zero bytes, by one port. Each unit's history may have as many entries as the limit says.
pub fn job_alone<R: Wait>(
    rt: &R,
    alloc: Global,
    geometry: Geometry,
    limit: Limit,
    job: &Job,
) -> Result<JobAlone, SpaceFault>
    requires { FitsNamespace geometry job.now }
    ensures alone { IfOk result (λ alone. IsJobAlone geometry job.now alone.done
        (map (λ history. history.items) alone.histories.items)) }
    ensures lawful { IfOk result (λ alone. AreLawfulHistories geometry
        (map (λ history. history.items) alone.histories.items)) }
    ensures fault { IfErr result (λ fault. fault ≡ NoMemory) }
{
    // For the proof alone: the namespace has no more units than there can be regions, so each unit is a region.
    let _nsze = geometry.nsze();
    few_units_are_regions();
    ports_are_changed_in_place();
    units_end_with_lawful_histories();
    let (space, mut ports) = Space::new(alloc, geometry, 1, limit)?;
    let done = space.run_job(rt, alloc, &mut ports[0], 0, job, &Open);
    let histories = space.close(alloc, ports)?;
    Ok(JobAlone { done, histories })
}

/// One turn of a poller for a job that `Space::begin_job` began: goes on with it, unless it is done. It waits for nothing.
pub fn poll_turn(
    alloc: Global,
    space: &Space,
    port: &mut Port,
    job: &Job,
    progress: Progress,
) -> Progress
    requires of { IsPortOf space.now port.old }
    requires fits { FitsNamespace space.now.namespace job.now }
    requires begun { (number : ℕ) × (start : List PassView)
        × IsProgress space.now.namespace space.now.lists number job.now start (views_of port.old.passes) progress }
    ensures of { IsPortOf space.now port.new }
    ensures number { port.new.number ≡ port.old.number }
    ensures goes { (number : ℕ) (start : List PassView)
        → IsProgress space.now.namespace space.now.lists number job.now start (views_of port.old.passes) progress
        → IsProgress space.now.namespace space.now.lists number job.now start (views_of port.new.passes) result }
{
    match progress {
        Progress::Done(done) => Progress::Done(done),
        Progress::Pending(under_way) => space.poll_job(alloc, port, job, under_way, &Open),
    }
}
