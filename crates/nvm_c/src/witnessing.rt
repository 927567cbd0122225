//! A trace that C has judged by a record or an order, each as the bytes of its file.
ghost use Rattle.std.specs.Prelude.{◌≡◌, Ok, IfOk};
ghost use Rattle.nvm_file.specs.Reading.{record_at};
ghost use Rattle.nvm_c.specs.TraceAnswer.{IsAnswer};
ghost use Rattle.nvm_c.specs.Witnessed as spec;
ghost use Rattle.nvm_c.specs.Witnessed.{IsFoundByRecord, IsFoundOf, IsRuling, IsWitnessed};

use crate::auditing::unread_line;
use crate::finding::Finding;
use crate::order_witnessing::{finding_by_order, is_order};
use crate::trace_code::TraceCode;
use nvm_audit::Record;
use nvm_engine::{Witnessed, witness_record_alone};
use nvm_file::{read_record, read_trace};
use nvm_record::{NoMemory, Payload};
use nvm_trace::{Judging, Trace};
use std::alloc::Global;

/// Judges the trace of the one file by the record or the order of the other, and writes the line of that with a byte of 0 after it. Nothing is
/// written where the room is too short.
pub(crate) fn witnessed(
    alloc: Global,
    judging: Judging,
    trace: &[u8],
    evidence: &[u8],
    room: &mut [u8],
) -> TraceCode
    ensures { IsAnswer (IsWitnessed judging trace.now evidence.now) result room.old room.new }
{
    match finding_in(alloc, judging, trace, evidence) {
        Ok(finding) => finding.put(room),
        Err(_) => TraceCode::NoMemory,
    }
}

/// What is found in the bytes of the two files.
fn finding_in(
    alloc: Global,
    judging: Judging,
    trace: &[u8],
    evidence: &[u8],
) -> Result<Finding, NoMemory>
    ensures { IfOk result (λ finding. IsWitnessed judging trace.now evidence.now finding.code finding.line.items) }
{
    let trace = Payload::copy_of(alloc, trace)?;
    match read_trace(alloc, &trace) {
        Ok(seen) => finding_of(alloc, judging, &seen, evidence),
        Err(fault) => Finding::bad_trace(alloc, fault),
    }
}

/// What is found of the trace in the bytes of a record's or an order's file.
fn finding_of(
    alloc: Global,
    judging: Judging,
    trace: &Trace,
    evidence: &[u8],
) -> Result<Finding, NoMemory>
    ensures { IfOk result (λ finding. IsFoundOf judging (Ok trace.now) evidence.now finding.code finding.line.items) }
{
    if is_order(judging, evidence) {
        finding_by_order(alloc, trace, evidence)
    } else {
        finding_by_record(alloc, judging, trace, evidence)
    }
}

/// What is found of the trace in the bytes of a record's file.
fn finding_by_record(
    alloc: Global,
    judging: Judging,
    trace: &Trace,
    record: &[u8],
) -> Result<Finding, NoMemory>
    ensures { IfOk result
        (λ finding. IsFoundByRecord judging trace.now (record_at «record».now) finding.code finding.line.items) }
{
    let record = Payload::copy_of(alloc, record)?;
    match read_record(alloc, &record) {
        Ok(held) => ruling(alloc, judging, trace, &held),
        Err(fault) => Ok(Finding {
            code: TraceCode::BadRecord,
            line: unread_line(alloc, fault)?,
        }),
    }
}

/// What is found of the trace and the record.
fn ruling(
    alloc: Global,
    judging: Judging,
    trace: &Trace,
    record: &Record,
) -> Result<Finding, NoMemory>
    ensures { IfOk result (λ finding. IsRuling judging trace.now «record».now finding.code finding.line.items) }
{
    let witnessed = witness_record_alone(alloc, judging, trace, record)?;
    let line = witnessed.line(alloc)?;
    Ok(Finding {
        code: code_of(&witnessed),
        line: line.into_bytes(),
    })
}

/// The code of what a witness answered.
fn code_of(witnessed: &Witnessed) -> TraceCode
    ensures { result ≡ spec.code_of witnessed.now }
{
    if witnessed.status() == 0 {
        TraceCode::Explained
    } else {
        TraceCode::Unexplained
    }
}
