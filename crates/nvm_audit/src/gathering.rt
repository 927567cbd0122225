ghost use Rattle.std.specs.Prelude.{◌≡◌, ◌+◌, ◌<◌, ◌≤◌, ◌++◌, ◌==◌, IfOk, OnOk, length, map, nat_eq, Bool};
ghost use Rattle.nvm_audit.specs.Inside.Gathered.{naming};
ghost use Rattle.nvm_audit.specs.RecordedPart.{recorded_part, parts_left, parts_of_work, parts_in_unit};

use crate::done_job::DoneJob;
use crate::done_part::DonePart;
use nvm_plan::Part;
use nvm_record::NoMemory;
use std::alloc::Global;

/// A part that a worker did of a job.
pub(crate) fn part_of<'a>(worker: u16, done: &'a DoneJob, part: Part, is_last: bool) -> DonePart<'a>
    ensures { result ≡ recorded_part worker done.now part is_last }
{
    DonePart {
        worker,
        done,
        part,
        is_last,
    }
}

/// Puts the parts of a done job that name the unit after the others.
fn gather_job<'a>(
    unit: u16,
    worker: u16,
    done: &'a DoneJob,
    parts: &mut Vec<DonePart<'a>>,
) -> Result<(), NoMemory>
    ensures { OnOk result (parts.new.items ≡ parts.old.items ++ naming unit (parts_left worker done.now done.now.parts)) }
{
    let all = done.parts.as_slice();
    let count = all.len();
    for i in 0..count {
        let part = all[i];
        if part.unit == unit {
            parts.push(part_of(worker, done, part, i + 1 == count))?;
        }
    }
    Ok(())
}

/// Puts the parts of what a worker did that name the unit after the others.
fn gather_work<'a>(
    unit: u16,
    worker: u16,
    work: &'a Vec<DoneJob>,
    parts: &mut Vec<DonePart<'a>>,
) -> Result<(), NoMemory>
    ensures { OnOk result (parts.new.items ≡ parts.old.items ++ naming unit (parts_of_work worker work.now.items)) }
{
    for k in 0..work.len() {
        gather_job(unit, worker, &work[k], parts)?;
    }
    Ok(())
}

/// The parts that name the unit, by worker and in the worker's order: one pass over all that was done.
pub(crate) fn parts_of_unit<'a>(
    alloc: Global,
    done: &'a Vec<Vec<DoneJob>>,
    unit: u16,
) -> Result<Vec<DonePart<'a>>, NoMemory>
    requires { length done.now.items ≤ 64 }
    ensures { IfOk result (λ parts. parts.items ≡ parts_in_unit unit (map (λ work. work.items) done.now.items)) }
{
    let mut parts = Vec::new(alloc);
    for worker in 0..done.len() {
        gather_work(unit, worker as u16, &done[worker], &mut parts)?;
    }
    Ok(parts)
}
