//! The histories of the units, as the changes that ports made tell them.
ghost use Rattle.std.specs.Prelude.{◌≡◌, ◌≤◌, ℕ, List, All, IfOk, length, map};
ghost use Rattle.nvm_record.specs.Lists.{IsAt};
ghost use Rattle.nvm_geometry.specs.Boundaries.{units_of};
ghost use Rattle.nvm_plan.specs.Fits.{FitsNamespace};
ghost use Rattle.nvm_store.specs.HistoryEntry.{HistoryEntry};
ghost use Rattle.nvm_c.specs.Inside.Gathering.{IsEntryOf, IsHistoryOf};

use crate::gather_fault::GatherFault;
use nvm_audit::DoneJob;
use nvm_geometry::Geometry;
use nvm_plan::{Job, LentPart, PartResult, job_part_in};
use nvm_record::NoMemory;
use nvm_store::laws::acts_and_looks;
use nvm_store::{Entry, History, Limit};
use std::alloc::Global;

/// A change of a unit: at which place of its history it stands, which port made it, and of which job.
#[derive(Clone, Copy, Debug, PartialEq, Eq, PartialOrd, Ord)]
pub struct Change {
    point: u32,
    pass: usize,
    job: u32,
}

/// The history of each unit, in the order of the units.
pub(crate) fn histories(
    alloc: Global,
    geometry: Geometry,
    limit: Limit,
    jobs: &Vec<Job>,
    done: &Vec<Vec<DoneJob>>,
) -> Result<Vec<History>, GatherFault>
    requires fit { All (FitsNamespace geometry) jobs.now.items }
    requires few { length done.now.items ≤ 64 }
    ensures count { IfOk result (λ units. length units.items ≡ units_of geometry) }
    ensures each { IfOk result (λ units. (unit : ℕ) (history : List HistoryEntry)
        → IsAt (map (λ h. h.items) units.items) unit history
        → IsHistoryOf geometry limit jobs.now.items (length done.now.items) unit history) }
{
    let changes = changes_of(alloc, geometry, done)?;
    let count = geometry.units();
    let mut units = Vec::with_capacity(alloc, usize::from(count))?;
    for unit in 0..count {
        let Some(made) = changes.get(usize::from(unit)) else {
            return Err(GatherFault::Unlawful);
        };
        let history = history_of(alloc, geometry, limit, jobs, done.len(), unit, made)?;
        units.push(history)?;
    }
    if units.len() != usize::from(count) {
        return Err(GatherFault::Unlawful);
    }
    Ok(units)
}

/// The changes of each unit, in their order.
fn changes_of(
    alloc: Global,
    geometry: Geometry,
    done: &Vec<Vec<DoneJob>>,
) -> Result<Vec<Vec<Change>>, NoMemory> {
    let mut changes = Vec::with_capacity(alloc, usize::from(geometry.units()))?;
    for _ in 0..geometry.units() {
        changes.push(Vec::new(alloc))?;
    }
    for (pass, work) in done.iter().enumerate() {
        for did in work {
            add_changes(&mut changes, pass, did)?;
        }
    }
    for unit in 0..changes.len() {
        changes[unit].sort_unstable();
    }
    Ok(changes)
}

/// Adds the changes that were made of a job.
fn add_changes(changes: &mut Vec<Vec<Change>>, pass: usize, did: &DoneJob) -> Result<(), NoMemory> {
    for part in did.parts.as_slice() {
        let unit = usize::from(part.unit);
        if part.result == PartResult::Done && unit < changes.len() {
            changes[unit].push(Change {
                point: part.point,
                pass,
                job: did.job,
            })?;
        }
    }
    Ok(())
}

/// The history of a unit with these changes.
fn history_of(
    alloc: Global,
    geometry: Geometry,
    limit: Limit,
    jobs: &Vec<Job>,
    workers: usize,
    unit: u16,
    changes: &Vec<Change>,
) -> Result<History, GatherFault>
    requires fit { All (FitsNamespace geometry) jobs.now.items }
    requires few { workers ≤ 64 }
    ensures { IfOk result (λ history. IsHistoryOf geometry limit jobs.now.items workers unit history.items) }
{
    let mut history = Vec::with_capacity(alloc, changes.len())?;
    for i in 0..changes.len() {
        let entry = entry_of(alloc, geometry, jobs, workers, unit, changes[i])?;
        history.push(entry)?;
    }
    if history.len() > limit.entries() as usize {
        return Err(GatherFault::Unlawful);
    }
    Ok(history)
}

/// The entry of a change in the unit.
fn entry_of(
    alloc: Global,
    geometry: Geometry,
    jobs: &Vec<Job>,
    workers: usize,
    unit: u16,
    change: Change,
) -> Result<Entry, GatherFault>
    requires fit { All (FitsNamespace geometry) jobs.now.items }
    requires few { workers ≤ 64 }
    ensures { IfOk result (IsEntryOf geometry jobs.now.items workers unit) }
{
    acts_and_looks();
    if change.pass >= workers {
        return Err(GatherFault::Unlawful);
    }
    if change.job as usize >= jobs.len() {
        return Err(GatherFault::Unlawful);
    }
    let job = &jobs[change.job as usize];
    let Some(part) = job_part_in(&geometry, job, unit) else {
        return Err(GatherFault::Unlawful);
    };
    let LentPart::Act(act) = part else {
        return Err(GatherFault::Unlawful);
    };
    let made = act.to_act(alloc)?;
    Ok(Entry {
        pass: change.pass as u16,
        job: change.job,
        act: made,
    })
}
