ghost use Rattle.std.specs.Prelude.{◌≡◌, ◌≤◌, All, length, map, IfOk, IfErr};
ghost use Rattle.nvm_plan.specs.Fits.{FitsNamespace};
ghost use Rattle.nvm_audit.specs.declared.version.Version.TheVariants.{Two};
ghost use Rattle.nvm_audit.specs.Recordable.{most_jobs, HoldsBody};
ghost use Rattle.nvm_audit.specs.OneThreadRun.{IsOneThreadRun};
ghost use Rattle.nvm_engine.specs.Counters.{IsWorkerCount};
ghost use Rattle.nvm_engine.specs.Inside.Gathering.{run_record, IsOfWorkers};
ghost use Rattle.nvm_engine.specs.RunFaults.{IsRunFault};
ghost use Rattle.nvm_engine.specs.RunRecord.{IsRecordOfRun};

use crate::counter::Counter;
use crate::laws::{each_job_is_done_once, gathered_records_are_lawful};
use crate::run_fault::{RunFailed, RunFault};
use crate::workers::all_work;
use nvm_audit::laws::{done_jobs_are_outcomes, lawful_records_can_be_held, lawful_units_are_runs};
use nvm_audit::{DoneJob, Record, Version};
use nvm_geometry::Geometry;
use nvm_plan::Job;
use nvm_space::Space;
use nvm_store::{History, Limit};
use nvm_unit::Gate;
use std::alloc::Global;
use std::sync::Wait;
use std::thread::Threads;

/// Does the jobs on a namespace of zero bytes by `workers` workers, 1 to 64, each on a thread of its own where one can be made, and
/// gives the record of the run, which owns the jobs. Each unit's history may have as many entries as the limit says.
///
/// The gate learns by `before_jobs` how many there are. Each worker draws the number of the next job, does it by its own port, has
/// it reported to the gate by `after_job`, and goes on until no job is left. The record is lawful, and of exactly these jobs.
///
/// `Workers` says that there can't be that many workers. `NoMemory` says that a growth outside a job was refused: all workers
/// have ended then, and what they did is lost. Either hands the jobs back, for another run. A job that finds no memory ends with
/// 0/06, and is recorded so. It waits for the units.
pub fn run<R: Threads + Wait + Sync, G: Gate + Sync>(
    rt: &R,
    alloc: Global,
    geometry: Geometry,
    jobs: Vec<Job>,
    workers: u16,
    limit: Limit,
    gate: &G,
) -> Result<Record, RunFailed>
    requires few { length jobs.items ≤ most_jobs }
    requires fit { All (FitsNamespace geometry) jobs.items }
    requires known { All (λ job. HoldsBody Two job.body) jobs.items }
    // The record is lawful, and of exactly these jobs.
    ensures record { IfOk result (IsRecordOfRun geometry limit workers jobs.items) }
    // Each unit is a one-thread block store: its entries, and between them each part that looked or whose pair failed, are a run of
    // the step in which each has the answer that it got, each worker's in its order.
    ensures one_thread { IfOk result IsOneThreadRun }
    ensures fault { IfErr result (λ failed. IsRunFault workers failed.fault) }
    // A run that gives no record hands the jobs back.
    ensures back { IfErr result (λ failed. failed.jobs.items ≡ jobs.items) }
{
    done_jobs_are_outcomes();
    gathered_records_are_lawful();
    lawful_records_can_be_held();
    lawful_units_are_runs();
    let (units, done) = match done_by_workers(rt, alloc, geometry, &jobs, workers, limit, gate) {
        Ok(ended) => ended,
        Err(fault) => return Err(RunFailed { fault, jobs }),
    };
    Ok(Record {
        version: Version::Two,
        geometry,
        limit,
        workers,
        jobs,
        units,
        done,
    })
}

/// Has `workers` workers do the jobs in a new space. Gives the histories with which its units end, and what each worker did.
fn done_by_workers<R: Threads + Wait + Sync, G: Gate + Sync>(
    rt: &R,
    alloc: Global,
    geometry: Geometry,
    jobs: &[Job],
    workers: u16,
    limit: Limit,
    gate: &G,
) -> Result<(Vec<History>, Vec<Vec<DoneJob>>), RunFault>
    requires few { length jobs.now ≤ most_jobs }
    requires fit { All (FitsNamespace geometry) jobs.now }
    ensures taken { IfOk result (λ ended. IsWorkerCount workers) }
    ensures gathered { IfOk result (λ ended. IsOfWorkers (run_record geometry limit workers jobs.now
        (map (λ history. history.items) ended.0.items) (map (λ work. work.items) ended.1.items))) }
    ensures fault { IfErr result (IsRunFault workers) }
{
    each_job_is_done_once();
    // For the proof alone: that the geometry and the limit are sound.
    let _nsze = geometry.nsze();
    let _entries = limit.entries();
    gate.before_jobs(jobs.len() as u32);
    let (counter, claims) = Counter::new(alloc, jobs.len() as u32, workers)?;
    let Ok((space, ports)) = Space::open(alloc, geometry, workers, limit, false) else {
        return Err(RunFault::NoMemory);
    };
    let (claims, ports, done) = all_work(rt, alloc, &counter, &space, jobs, claims, ports, gate)?;
    let _drawn = counter.close(claims);
    let units = space.close(alloc, ports)?;
    Ok((units, done))
}
