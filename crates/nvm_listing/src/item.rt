//! What a record holds, item by item.
ghost use Rattle.std.specs.Prelude.{◌≡◌, ◌++◌, IfOk, OnOk, map};
ghost use Rattle.nvm_listing.specs.Items as spec;

use nvm_audit::{DoneJob, Record};
use nvm_plan::Job;
use nvm_record::NoMemory;
use nvm_store::{Entry, History};
use std::alloc::Global;

/// A thing that a record holds. Jobs, units, places in a history and workers count from 0.
#[derive(Clone, Copy, Debug)]
pub enum Item<'a> {
    /// The job of a number.
    Job {
        number: usize,
        job: &'a Job,
    },
    /// The entry at a place of a unit's history.
    Entry {
        unit: usize,
        place: usize,
        entry: &'a Entry,
    },
    /// A job that a worker did, with all of its parts.
    Done {
        worker: usize,
        done: &'a DoneJob,
    },
}

/// What the record holds beside the numbers of its head: each job, then each entry of each unit, then each job that each worker did,
/// all in the order of the record. It goes over the record once. The record may be unlawful.
///
/// `NoMemory` is answered where the room for the items was refused.
pub fn items<'a>(alloc: Global, run: &'a Record) -> Result<Vec<Item<'a>>, NoMemory>
    ensures { IfOk result (λ items. map spec.held_by items.items ≡ spec.items_of run.now) }
{
    let mut items = Vec::new(alloc);
    push_jobs(&mut items, &run.jobs)?;
    push_units(&mut items, &run.units)?;
    push_workers(&mut items, &run.done)?;
    Ok(items)
}

/// Appends jobs, of which the first has number 0.
fn push_jobs<'a>(items: &mut Vec<Item<'a>>, jobs: &'a [Job]) -> Result<(), NoMemory>
    ensures { OnOk result (map spec.held_by items.new.items ≡ map spec.held_by items.old.items ++ spec.job_items 0 jobs.now) }
{
    for (number, job) in jobs.iter().enumerate() {
        items.push(Item::Job { number, job })?;
    }
    Ok(())
}

/// Appends the entries of units, of which the first has number 0.
fn push_units<'a>(items: &mut Vec<Item<'a>>, units: &'a [History]) -> Result<(), NoMemory>
    ensures { OnOk result (map spec.held_by items.new.items
        ≡ map spec.held_by items.old.items ++ spec.unit_items 0 (map (λ history. history.items) units.now)) }
{
    for (unit, history) in units.iter().enumerate() {
        push_history(items, unit, history)?;
    }
    Ok(())
}

/// Appends the entries of a unit's history.
fn push_history<'a>(
    items: &mut Vec<Item<'a>>,
    unit: usize,
    history: &'a [Entry],
) -> Result<(), NoMemory>
    ensures { OnOk result (map spec.held_by items.new.items ≡ map spec.held_by items.old.items ++ spec.entry_items unit 0 history.now) }
{
    for (place, entry) in history.iter().enumerate() {
        items.push(Item::Entry { unit, place, entry })?;
    }
    Ok(())
}

/// Appends what workers did, of which the first has number 0.
fn push_workers<'a>(items: &mut Vec<Item<'a>>, done: &'a [Vec<DoneJob>]) -> Result<(), NoMemory>
    ensures { OnOk result (map spec.held_by items.new.items
        ≡ map spec.held_by items.old.items ++ spec.worker_items 0 (map (λ work. work.items) done.now)) }
{
    for (worker, work) in done.iter().enumerate() {
        push_work(items, worker, work)?;
    }
    Ok(())
}

/// Appends what a worker did.
fn push_work<'a>(
    items: &mut Vec<Item<'a>>,
    worker: usize,
    work: &'a [DoneJob],
) -> Result<(), NoMemory>
    ensures { OnOk result (map spec.held_by items.new.items ≡ map spec.held_by items.old.items ++ spec.done_items worker work.now) }
{
    for done in work {
        items.push(Item::Done { worker, done })?;
    }
    Ok(())
}
