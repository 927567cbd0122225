ghost use Rattle.std.specs.Prelude.{◌≡◌, ℕ, ◌+◌, ◌<◌, ◌≤◌, ◌++◌, ◌∷◌, [], IfOk, OnOk, List, length, map, Bool};
ghost use Rattle.nvm_audit.specs.Inside.Grouped.{AreGrouped, HasUnits, HaveUnits, AllHaveUnits};
ghost use Rattle.nvm_audit.specs.RecordedPart.{RecordedPart, parts_left, parts_of_work, parts_of_workers};

use crate::done_job::DoneJob;
use crate::done_part::DonePart;
use crate::gathering::part_of;
use nvm_record::NoMemory;
use std::alloc::Global;

/// No parts yet, for each unit below `units`.
fn no_groups<'a>(alloc: Global, units: usize) -> Result<Vec<Vec<DonePart<'a>>>, NoMemory>
    ensures { IfOk result (λ groups. AreGrouped units [] (map (λ group. group.items) groups.items)) }
{
    let mut groups = Vec::with_capacity(alloc, units)?;
    for _unit in 0..units {
        groups.push(Vec::new(alloc))?;
    }
    Ok(groups)
}

/// Puts the part after the others of its unit.
fn put<'a>(part: DonePart<'a>, groups: &mut Vec<Vec<DonePart<'a>>>) -> Result<(), NoMemory>
    requires { part.part.unit < length groups.old.items }
    ensures long { OnOk result (length groups.new.items ≡ length groups.old.items) }
    ensures grouped { OnOk result ((units : ℕ) (parts : List RecordedPart)
        → AreGrouped units parts (map (λ group. group.items) groups.old.items)
        → AreGrouped units (parts ++ part.entry ∷ []) (map (λ group. group.items) groups.new.items)) }
{
    let unit = part.part.unit as usize;
    groups[unit].push(part)?;
    Ok(())
}

/// Puts the parts of a done job after the others of their units.
fn put_job<'a>(
    worker: u16,
    done: &'a DoneJob,
    groups: &mut Vec<Vec<DonePart<'a>>>,
) -> Result<(), NoMemory>
    requires { HasUnits (length groups.old.items) done.now }
    ensures long { OnOk result (length groups.new.items ≡ length groups.old.items) }
    ensures grouped { OnOk result ((units : ℕ) (parts : List RecordedPart)
        → AreGrouped units parts (map (λ group. group.items) groups.old.items)
        → AreGrouped units (parts ++ parts_left worker done.now done.now.parts) (map (λ group. group.items) groups.new.items)) }
{
    let parts = done.parts.as_slice();
    let count = parts.len();
    for i in 0..count {
        put(part_of(worker, done, parts[i], i + 1 == count), groups)?;
    }
    Ok(())
}

/// Puts the parts of what a worker did after the others of their units.
fn put_work<'a>(
    worker: u16,
    work: &'a Vec<DoneJob>,
    groups: &mut Vec<Vec<DonePart<'a>>>,
) -> Result<(), NoMemory>
    requires { HaveUnits (length groups.old.items) work.now.items }
    ensures long { OnOk result (length groups.new.items ≡ length groups.old.items) }
    ensures grouped { OnOk result ((units : ℕ) (parts : List RecordedPart)
        → AreGrouped units parts (map (λ group. group.items) groups.old.items)
        → AreGrouped units (parts ++ parts_of_work worker work.now.items) (map (λ group. group.items) groups.new.items)) }
{
    for k in 0..work.len() {
        put_job(worker, &work[k], groups)?;
    }
    Ok(())
}

/// The parts that name each unit below `units`, at the place of the unit's number: by worker, and in the worker's order. It is
/// one pass over all that was done.
pub(crate) fn parts_by_unit<'a>(
    alloc: Global,
    units: usize,
    done: &'a Vec<Vec<DoneJob>>,
) -> Result<Vec<Vec<DonePart<'a>>>, NoMemory>
    requires few { length done.now.items ≤ 64 }
    requires inside { AllHaveUnits units (map (λ work. work.items) done.now.items) }
    ensures { IfOk result (λ groups. AreGrouped units (parts_of_workers 0 (map (λ work. work.items) done.now.items))
        (map (λ group. group.items) groups.items)) }
{
    let mut groups = no_groups(alloc, units)?;
    for worker in 0..done.len() {
        put_work(worker as u16, &done[worker], &mut groups)?;
    }
    Ok(groups)
}
