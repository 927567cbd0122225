//! What is counted in each unit.
ghost use Rattle.std.specs.Prelude.{◌≡◌, ◌<◌, All, IfOk, length, map};
ghost use Rattle.nvm_audit.specs.Recordable.{most_workers};
ghost use Rattle.nvm_explain.specs.Distinct as spec;

use nvm_record::NoMemory;
use nvm_store::{Entry, History};
use std::alloc::Global;

/// The most workers of a run.
const MOST_WORKERS: usize = 64;

/// How many entries each unit has.
pub(crate) fn entry_counts(alloc: Global, units: &[History]) -> Result<Vec<u64>, NoMemory>
    ensures { IfOk result (λ counts. counts.items ≡ map (λ history. length history.items) units.now) }
{
    let mut counts = Vec::with_capacity(alloc, units.len())?;
    for history in units {
        counts.push(history.len() as u64)?;
    }
    Ok(counts)
}

/// How many workers have entries in each unit.
pub(crate) fn worker_counts(alloc: Global, units: &[History]) -> Result<Vec<u64>, NoMemory>
    requires { All (λ history. All (λ entry. entry.pass < most_workers) history.items) units.now }
    ensures { IfOk result (λ counts. counts.items ≡ map (λ history. spec.workers_in history.items) units.now) }
{
    let mut counts = Vec::with_capacity(alloc, units.len())?;
    for history in units {
        counts.push(workers_in(history))?;
    }
    Ok(counts)
}

/// How many workers have entries there.
fn workers_in(history: &[Entry]) -> u64
    requires { All (λ entry. entry.pass < most_workers) history.now }
    ensures { result ≡ spec.workers_in history.now }
{
    let mut seen = [false; MOST_WORKERS];
    let mut count = 0;
    for entry in history {
        let worker = usize::from(entry.pass);
        if !seen[worker] {
            seen[worker] = true;
            count += 1;
        }
    }
    count
}
