//! With which statuses jobs ended, and how many jobs with each.
ghost use Rattle.std.specs.Prelude.{◌≡◌, ◌≤◌, All, IfOk, OnOk, length, map};
ghost use Rattle.nvm_audit.specs.Recordable.{most_jobs, most_workers};
ghost use Rattle.nvm_explain.specs.Ended as spec;

use nvm_audit::DoneJob;
use nvm_record::{NoMemory, Statuses};
use nvm_text::StatusesText;
use std::alloc::Global;

/// Appends how many jobs ended with which statuses, in the order in which they first occur.
pub(crate) fn push_ended(
    text: &mut String,
    alloc: Global,
    done: &[Vec<DoneJob>],
) -> Result<(), NoMemory>
    requires workers { length done.now ≤ most_workers }
    requires jobs { All (λ work. length work.items ≤ most_jobs) done.now }
{
    let met = different_statuses(alloc, done)?;
    for statuses in &met {
        let jobs = jobs_with(done, *statuses);
        write!(text, "status {} jobs {jobs}\n", StatusesText(*statuses))?;
    }
    Ok(())
}

/// The statuses with which jobs ended, in the order in which they first occur.
#[tactic(auto, using(crate::proofs::Telling::none_met))]
fn different_statuses(alloc: Global, done: &[Vec<DoneJob>]) -> Result<Vec<Statuses>, NoMemory>
    ensures { IfOk result (λ met. met.items ≡ spec.different_statuses (map (λ work. work.items) done.now)) }
{
    let mut met = Vec::new(alloc);
    for work in done {
        for it in work {
            meet(&mut met, it.statuses)?;
        }
    }
    Ok(met)
}

/// Takes the statuses up, if they weren't met before.
fn meet(met: &mut Vec<Statuses>, statuses: Statuses) -> Result<(), NoMemory>
    ensures { OnOk result (met.new.items ≡ spec.met_with met.old.items statuses) }
{
    if !is_met(met, statuses) {
        met.push(statuses)?;
    }
    Ok(())
}

/// Whether these statuses are among those that were met.
fn is_met(met: &[Statuses], statuses: Statuses) -> bool
    ensures { result ≡ spec.is_met met.now statuses }
{
    met.iter().any(|other| statuses == *other)
}

/// How many jobs ended with these statuses.
fn jobs_with(done: &[Vec<DoneJob>], statuses: Statuses) -> u64
    requires workers { length done.now ≤ most_workers }
    requires jobs { All (λ work. length work.items ≤ most_jobs) done.now }
    ensures { result ≡ spec.jobs_with statuses (map (λ work. work.items) done.now) }
{
    let mut jobs = 0;
    for work in done {
        jobs += work.iter().filter(|it| it.statuses == statuses).count() as u64;
    }
    jobs
}
