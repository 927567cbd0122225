use crate::explaining::push_explanation;
use crate::jobs::{push_recorded, push_traced};
use crate::ordering::{late_pair, push_late};
use crate::witness_meaning::meaning;
use nvm_audit::{Record, Spot, Unwatched};
use nvm_geometry::Geometry;
use nvm_listing::push_namespace;
use nvm_record::NoMemory;
use nvm_trace::{Judging, Trace, WitnessFault, first_pieces, steps_of, traced_pieces, witness};
use nvm_trace_text::{ExplainedLine, UnexplainedLine};
use std::alloc::{AllocError, Global};
use std::thread::Threads;

/// Judges the trace by the record, as [`witness`](nvm_trace::witness) does, and tells what was found, as text: a line for each fact.
///
/// First is the line that a witness prints. Behind that of an explained trace stands what [`explain`](crate::explain) tells of
/// the record, which is lawful. Behind that of a fault stand a line that says what such a fault means, and then: of another namespace
/// the two; of a job that differs what the trace and the record have under its number; of a job that is no preparation the record's;
/// of an unlawful record what `explain` tells of it; of a reply that differs the command with its reply, and what the record shows of
/// it; and of a step that comes too late its command and the step, the first step before it whose command began only when its own had
/// ended, and the two times.
///
/// Jobs are called by their numbers in the record. A record that is lawful, or whose fault is its own, is audited twice.
/// `NoMemory` is answered where a growth was refused.
pub fn witness_story(
    rt: &(impl Threads + Sync),
    alloc: Global,
    judging: Judging,
    trace: &Trace,
    record: &Record,
) -> Result<String, NoMemory> {
    let mut text = String::new(alloc);
    match witness(rt, alloc, judging, trace, record) {
        Ok(explained) => {
            write!(text, "{}", ExplainedLine(explained))?;
            push_explanation(&mut text, rt, alloc, record, &Unwatched)?;
        }
        Err(fault) => push_unexplained(&mut text, rt, alloc, judging, trace, record, fault)?,
    }
    Ok(text)
}

/// Appends the fault's line, what such a fault means, and what the trace and the record show of it. Refused memory is none: it is
/// answered.
fn push_unexplained(
    text: &mut String,
    rt: &(impl Threads + Sync),
    alloc: Global,
    judging: Judging,
    trace: &Trace,
    record: &Record,
    fault: WitnessFault,
) -> Result<(), NoMemory> {
    write!(text, "{}{}", UnexplainedLine(fault), meaning(fault))?;
    match fault {
        WitnessFault::NamespaceDiffers => push_namespaces(text, trace.geometry, record.geometry),
        WitnessFault::JobDiffers { job } | WitnessFault::ReplyDiffers { job } => {
            push_both(text, alloc, judging, trace, record, job)
        }
        WitnessFault::NoPreparation { job } => push_recorded(text, record, job),
        WitnessFault::Unlawful { .. } => push_explanation(text, rt, alloc, record, &Unwatched),
        WitnessFault::TimeBack { job, spot } => {
            push_order_of(text, alloc, judging, trace, record, job, spot)
        }
        WitnessFault::NoMemory => Err(AllocError),
    }
}

/// Appends the namespaces of a trace and of a record.
fn push_namespaces(
    text: &mut String,
    traced: Geometry,
    recorded: Geometry,
) -> Result<(), NoMemory> {
    text.push_str("trace ")?;
    push_namespace(text, traced)?;
    text.push_str("record ")?;
    push_namespace(text, recorded)
}

/// Appends what the trace has as the job of this number, and then the record.
fn push_both(
    text: &mut String,
    alloc: Global,
    judging: Judging,
    trace: &Trace,
    record: &Record,
    number: u32,
) -> Result<(), NoMemory> {
    let pieces = first_pieces(alloc, judging, trace, number as usize + 1)?;
    push_traced(text, &pieces, number)?;
    push_recorded(text, record, number)
}

/// Appends the first step of this job at this spot that comes too late, and one with which it is in the wrong order.
fn push_order_of(
    text: &mut String,
    alloc: Global,
    judging: Judging,
    trace: &Trace,
    record: &Record,
    job: u32,
    spot: Spot,
) -> Result<(), NoMemory> {
    let pieces = traced_pieces(alloc, judging, trace)?;
    let steps = steps_of(alloc, &pieces, &record.done)?;
    match late_pair(&steps, job, spot) {
        Some((late, earlier)) => push_late(text, &pieces, late, earlier),
        None => Ok(()),
    }
}
