ghost use Rattle.std.specs.Prelude.{◌≡◌, ◌≤◌, List, All, length, map, count_by};
ghost use Rattle.std.specs.List.{sum_by};
ghost use Rattle.nvm_audit.specs.Inside.Occurrences.{most_entries};
ghost use Rattle.nvm_audit.specs.Recordable.{most_jobs, most_workers};
ghost use Rattle.nvm_audit.specs.Verdict as spec;
ghost use Rattle.nvm_audit.specs.Verdict.{has_refusal, refused_jobs, IsVerdict};

use crate::done_job::DoneJob;
use crate::record::Record;
use crate::verdict::Verdict;
use nvm_record::{Status, Statuses};
use nvm_store::History;

/// Whether the status is 0/06.
fn is_refusal(status: Status) -> bool
    ensures { result ≡ spec.is_refusal status }
{
    status.sct == Status::INTERNAL_ERROR.sct && status.sc == Status::INTERNAL_ERROR.sc
}

/// Whether memory was refused to the job, or a unit's history was full.
fn is_refused(done: &DoneJob) -> bool
    ensures { result ≡ has_refusal done.now.statuses }
{
    match done.statuses {
        Statuses::One(status) => is_refusal(status),
        Statuses::Two(first, second) => is_refusal(first) || is_refusal(second),
    }
}

/// To how many of the jobs that a worker did memory was refused, or a unit's history was full.
fn refused_in_work(work: &Vec<DoneJob>) -> u32
    requires few { length work.now.items ≤ most_jobs }
    ensures value { result ≡ count_by (λ d. has_refusal d.statuses) work.now.items }
    ensures few { result ≤ most_jobs }
{
    let mut refused = 0;
    for done in work {
        if is_refused(done) {
            refused += 1;
        }
    }
    refused
}

/// To how many jobs memory was refused, or a unit's history was full.
fn refused(done: &Vec<Vec<DoneJob>>) -> u32
    requires workers { length done.now.items ≤ most_workers }
    requires few { All (λ work. length work.items ≤ most_jobs) done.now.items }
    ensures { result ≡ refused_jobs (map (λ work. work.items) done.now.items) }
{
    let mut refused = 0;
    for work in done {
        refused += refused_in_work(work);
    }
    refused
}

/// How many entries the histories have together.
fn changes(units: &Vec<History>) -> u64
    requires units { length units.now.items ≤ 65536 }
    requires few { All (λ history. length history.items ≤ most_entries) units.now.items }
    ensures { result ≡ sum_by (λ history. length history) (map (λ history. history.items) units.now.items) }
{
    let mut changes = 0;
    for history in units {
        changes += history.len() as u64;
    }
    changes
}

/// How much there is in the record.
pub(crate) fn verdict(record: &Record) -> Verdict
    ensures { IsVerdict «record».now result }
{
    Verdict {
        jobs: record.jobs.len() as u32,
        units: record.units.len() as u16,
        changes: changes(&record.units),
        refused: refused(&record.done),
    }
}
