ghost use Rattle.std.specs.Prelude.{ℕ, ◌<◌, ◌≤◌, List, IfOk, length};
ghost use Rattle.nvm_record.specs.Lists.{IsAt};
ghost use Rattle.nvm_plan.specs.declared.job.Job.{Job};
ghost use Rattle.nvm_plan.specs.Shape.{IsForEach};
ghost use Rattle.nvm_audit.specs.LawfulRecord.{IsLawfulRecord};
ghost use Rattle.nvm_audit.specs.Recordable.{most_jobs};
ghost use Rattle.nvm_audit.specs.RecordedJob.{RecordedJob};
ghost use Rattle.nvm_audit.specs.DoneJobs.{IsDoneJob};
ghost use Rattle.nvm_audit.specs.DonePlaces.{AreDonePlaces, IsNoted};

use crate::done_job::DoneJob;
use crate::record::Record;
use nvm_record::NoMemory;
use std::alloc::Global;
use std::marker::Model;

/// Where a done job is in a record: which worker did it, and at which place of what that worker did.
#[derive(Clone, Copy, Debug)]
pub(crate) struct DonePlace {
    pub(crate) worker: u16,
    pub(crate) place: u32,
}

/// The done job of each job of a lawful record, by the number of the job.
///
/// It holds where each of them is in the record, 8 bytes a job, and borrows nothing, so it can be kept beside the record.
///
/// Contracts see the list of these places, each at its job's number.
#[derive(Debug, Drop)]
pub struct DoneJobs {
    places: Vec<DonePlace>,
}

impl Model for DoneJobs {
    ghost use Rattle.std.specs.Prelude.{List};
    ghost use Rattle.nvm_audit.specs.declared.done_jobs.DonePlace.{DonePlace};

    ghost Value = { List DonePlace };

    ghost view = { λ found. found.places.items };
}

impl DoneJobs {
    /// The done jobs of a record, which are found in one pass over them.
    ///
    /// `NoMemory` is answered where the room for their places was refused.
    pub fn of(alloc: Global, run: &Record) -> Result<DoneJobs, NoMemory>
        requires { IsLawfulRecord run.now }
        ensures { IfOk result (λ found. AreDonePlaces run.now found) }
    {
        let jobs = run.jobs.len();
        let done = run.done.as_slice();
        let mut places = Vec::with_capacity(alloc, jobs)?;
        places.resize(
            jobs,
            DonePlace {
                worker: 0,
                place: 0,
            },
        )?;
        for (worker, work) in done.iter().enumerate() {
            note(&mut places, worker as u16, work);
        }
        Ok(DoneJobs { places })
    }

    /// The done job of the job of this number, in the record in which it was found.
    pub fn job<'a>(&self, run: &'a Record, number: usize) -> &'a DoneJob
        requires found { AreDonePlaces run.now self.now }
        requires number { number < length run.now.jobs }
        ensures its { IsDoneJob run.now.done number result.now }
        ensures statuses { (job : Job) → IsAt run.now.jobs number job → IsForEach job.body result.now.statuses }
    {
        let there = self.places[number];
        let done = run.done.as_slice();
        &done[usize::from(there.worker)][there.place as usize]
    }
}

/// Notes where the done jobs are that are what this worker did.
fn note(places: &mut [DonePlace], worker: u16, work: &[DoneJob])
    requires few { length work.now ≤ most_jobs }
    requires numbers { (place : ℕ) (d : RecordedJob) → IsAt work.now place d → d.job < length places.old }
    ensures kept { (done : List (List RecordedJob)) (number : ℕ) → IsAt done worker work.now
        → IsNoted done places.old number → IsNoted done places.new number }
    ensures noted { (done : List (List RecordedJob)) (place : ℕ) (d : RecordedJob) → IsAt done worker work.now
        → IsAt work.now place d → IsNoted done places.new d.job }
{
    for (place, job) in work.iter().enumerate() {
        places[job.job as usize] = DonePlace {
            worker,
            place: place as u32,
        };
    }
}
