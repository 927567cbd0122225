ghost use Rattle.std.specs.Prelude.{◌≡◌, ◌+◌, ◌<◌, ◌≤◌, ℕ, nat_eq, List, IfOk, length, map, count_by};
ghost use Rattle.nvm_record.specs.Lists.{IsAt};
ghost use Rattle.nvm_audit.specs.Inside.Occurrences.{AreOfJobs, AreCounted, IsCounted, IsOccurrence, IsDoneJob};
ghost use Rattle.nvm_audit.specs.Inside.Search.{IsFound};
ghost use Rattle.nvm_audit.specs.RecordChecks.{count_checks};
ghost use Rattle.nvm_audit.specs.RecordView.{RecordView};
ghost use Rattle.nvm_audit.specs.RecordedJob.{RecordedJob};
ghost use Rattle.nvm_audit.specs.Recordable.{most_jobs};

use crate::audit_fault::AuditFault;
use crate::done_job::DoneJob;
use nvm_record::NoMemory;
use std::alloc::Global;

/// How often a job was done.
#[derive(Clone, Copy, Debug)]
pub(crate) enum Occurrence<'a> {
    Never,
    /// Once, and this is what was done.
    Once(&'a DoneJob),
    /// More than once.
    Often,
}

/// How often it was done after once more.
fn once_more<'a>(before: Occurrence<'a>, done: &'a DoneJob) -> Occurrence<'a>
    ensures { (all : List (List RecordedJob)) (number times : ℕ) → IsDoneJob all number done.now
        → IsOccurrence all number times before.entry → IsOccurrence all number (times + 1) result }
{
    match before {
        Occurrence::Never => Occurrence::Once(done),
        Occurrence::Once(_) | Occurrence::Often => Occurrence::Often,
    }
}

/// Counts what one worker did.
fn count_work<'a>(found: &mut Vec<Occurrence<'a>>, work: &'a Vec<DoneJob>)
    requires { (place : ℕ) (d : RecordedJob) → IsAt work.now.items place d → d.job < length found.old.items }
    ensures long { length found.new.items ≡ length found.old.items }
    ensures counted { (all : List (List RecordedJob)) (worker number times : ℕ) → IsAt all worker work.now.items
        → IsCounted all found.old.items number times
        → IsCounted all found.new.items number (times + count_by (λ d. nat_eq d.job number) work.now.items) }
{
    for done in work {
        let number = done.job as usize;
        found[number] = once_more(found[number], done);
    }
}

/// How often each job below `jobs` was done, at the place of the job's number. It goes over what was done once.
pub(crate) fn occurrences<'a>(
    alloc: Global,
    jobs: usize,
    done: &'a Vec<Vec<DoneJob>>,
) -> Result<Vec<Occurrence<'a>>, NoMemory>
    requires numbers { AreOfJobs jobs (map (λ work. work.items) done.now.items) }
    ensures { IfOk result (λ found. AreCounted jobs (map (λ work. work.items) done.now.items) found.items) }
{
    let mut found = Vec::with_capacity(alloc, jobs)?;
    found.resize(jobs, Occurrence::Never)?;
    for work in done {
        count_work(&mut found, work);
    }
    Ok(found)
}

/// The first job that wasn't done once, as an audit names it.
pub(crate) fn count_fault(found: &Vec<Occurrence<'_>>) -> Option<AuditFault>
    requires { length found.now.items ≤ most_jobs }
    ensures { (r : RecordView) → AreCounted (length r.jobs) r.done found.now.items
        → IsFound r (count_checks (length r.jobs)) result }
{
    for number in 0..found.len() {
        let job = number as u32;
        match found[number] {
            Occurrence::Never => return Some(AuditFault::JobMissing { job }),
            Occurrence::Once(_) => {}
            Occurrence::Often => return Some(AuditFault::JobTwice { job }),
        }
    }
    None
}
