ghost use Rattle.std.specs.Prelude.{◌↔◌, IfOk, IfSome, IsTrue};
ghost use Rattle.nvm_plan.specs.Fits.{FitsNamespace};
ghost use Rattle.nvm_audit.specs.Recordable.{HoldsBody};
ghost use Rattle.nvm_audit.specs.declared.version.Version.TheVariants.{Two};
ghost use Rattle.nvm_engine.specs.RunRecord.{IsRecordOfRun};

use nvm_audit::{MOST_JOBS, Record, Version};
use nvm_engine::{RunFault, run};
use nvm_geometry::Geometry;
use nvm_plan::{Job, fits};
use nvm_store::Limit;
use nvm_unit::Open;
use std::alloc::Global;
use std::sync::Wait;
use std::thread::Threads;

/// Runs jobs of whatever origin on a namespace of zero bytes, and gives the record of the run, or `None` where there are too many, or one that can't be
/// run there. The jobs that are lent stay.
pub fn record_of<R: Threads + Wait + Sync>(
    rt: &R,
    alloc: Global,
    geometry: Geometry,
    jobs: &[Job],
    workers: u16,
    limit: Limit,
) -> Result<Option<Record>, RunFault>
    ensures { IfOk result (λ found. IfSome found (IsRecordOfRun geometry limit workers jobs.now)) }
{
    if jobs.len() > MOST_JOBS as usize {
        return Ok(None);
    }
    for place in 0..jobs.len() {
        if !can_be_run(&geometry, &jobs[place]) {
            return Ok(None);
        }
    }
    let Ok(copies) = Vec::from_clones(alloc, jobs) else {
        return Err(RunFault::NoMemory);
    };
    match run(rt, alloc, geometry, copies, workers, limit, &Open) {
        Ok(record) => Ok(Some(record)),
        Err(failed) => Err(failed.fault),
    }
}

/// Whether the job fits the namespace, and has no opcode 09h as an unknown one.
fn can_be_run(geometry: &Geometry, job: &Job) -> bool
    ensures { IsTrue result ↔ (FitsNamespace geometry.now job.now × HoldsBody Two job.now.body) }
{
    fits(&geometry.large(), job) && Version::Two.holds(&job.body)
}
