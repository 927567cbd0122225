use crate::around::push_around;
use crate::entry_story::push_entry_story;
use crate::jobs::push_job;
use crate::meaning::sense;
use crate::part_story::push_part_story;
use crate::passed::push_passed;
use crate::shape_story::push_shape;
use crate::summary::push_summary;
use nvm_audit::{AuditFault, Record, Watcher, audit_watched};
use nvm_listing::{push_fault, push_verdict};
use nvm_record::NoMemory;
use std::alloc::{AllocError, Global};
use std::thread::Threads;

/// Audits the record and explains what was found, as text: a line for each fact, in the words of a record's listing.
///
/// It is audited once, in several threads. Beside that one unit's history is replayed up to the place of the fault, and what was
/// done is gone over. The watcher learns how far the audit is. `NoMemory` is answered where a growth was refused.
pub fn explain<W: Watcher + Sync>(
    rt: &(impl Threads + Sync),
    alloc: Global,
    run: &Record,
    watcher: &W,
) -> Result<String, NoMemory> {
    let mut text = String::new(alloc);
    push_explanation(&mut text, rt, alloc, run, watcher)?;
    Ok(text)
}

/// Appends what [`explain`] gives.
pub(crate) fn push_explanation<W: Watcher + Sync>(
    text: &mut String,
    rt: &(impl Threads + Sync),
    alloc: Global,
    run: &Record,
    watcher: &W,
) -> Result<(), NoMemory> {
    match audit_watched(rt, alloc, run, watcher) {
        Ok(verdict) => {
            push_verdict(text, verdict)?;
            push_summary(text, alloc, run)
        }
        Err(fault) => push_fault_story(text, alloc, run, fault),
    }
}

/// Appends what is said of a record with this first fault. Refused memory is none: it is answered.
fn push_fault_story(
    text: &mut String,
    alloc: Global,
    run: &Record,
    fault: AuditFault,
) -> Result<(), NoMemory> {
    let Some(job) = fault.job() else {
        return Err(AllocError);
    };
    push_fault(text, fault)?;
    write!(text, "{}{}", fault.name(), sense(fault))?;
    push_job(text, run, job)?;
    push_details(text, alloc, run, job, fault)
}

/// Appends what the record shows of this job's fault, beside the job.
fn push_details(
    text: &mut String,
    alloc: Global,
    run: &Record,
    job: u32,
    fault: AuditFault,
) -> Result<(), NoMemory> {
    match fault {
        AuditFault::JobMissing { .. } | AuditFault::JobTwice { .. } | AuditFault::NoMemory => Ok(
            (),
        ),
        AuditFault::StatusWrong { spot: None, .. } => push_shape(text, run, job),
        AuditFault::EntryWrong { spot, .. } => {
            push_entry_story(text, alloc, run, job, spot)?;
            push_around(text, run, spot, None)
        }
        AuditFault::EntryUnclaimed { spot, .. } => push_around(text, run, spot, None),
        AuditFault::PointPast { spot, .. } => push_around(text, run, spot, Some(job)),
        AuditFault::PointBack { spot, .. } => {
            push_passed(text, run, job, spot)?;
            push_around(text, run, spot, Some(job))
        }
        AuditFault::StatusWrong {
            spot: Some(spot),
            ..
        }
        | AuditFault::DataWrong { spot, .. } => {
            push_part_story(text, alloc, run, job, spot)?;
            push_around(text, run, spot, Some(job))
        }
    }
}
