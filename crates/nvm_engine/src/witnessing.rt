ghost use Rattle.std.specs.Prelude.{◌≡◌, ◌⊎◌, Result, Ok, Err, IfOk, IfErr, MatchResult};
ghost use Rattle.nvm_audit.specs.RecordView.{RecordView};
ghost use Rattle.nvm_file.specs.Reading.{record_at};
ghost use Rattle.nvm_file.specs.RecordFile.{IsRecordFile};
ghost use Rattle.nvm_file.specs.TraceFile.{IsTraceFile};
ghost use Rattle.nvm_file.specs.TraceReading.{trace_at};
ghost use Rattle.nvm_trace.specs.ExplainedBy.{IsExplainedBy};
ghost use Rattle.nvm_trace.specs.TraceView.{TraceView};
ghost use Rattle.nvm_trace.specs.declared.explained.Explained.{Explained as Numbers};
ghost use Rattle.nvm_engine.specs.Witnessed.{IsTraceFault, IsUnwitnessedFault, IsWitnessed, IsWitnessedAs};
ghost use Rattle.nvm_engine.specs.declared.fault.Fault.TheVariants.{NoMemory as NoMemoryFault};

use crate::fault::Fault;
use crate::judging::record_of;
use crate::witnessed::Witnessed;
use nvm_audit::Record;
use nvm_file::read_trace;
use nvm_record::{NoMemory, Payload};
use nvm_trace::{Judging, Trace, witness};
use std::alloc::Global;
use std::thread::Threads;

/// Whether the record that a file holds explains the trace that another file holds: the numbers of the two, or the first fault. The trace and
/// the record are given, too: a program that ends then needn't take them apart.
///
/// Where the bytes are no trace's file, or then no record's file, the first fault from the front is returned, with its offset.
/// `NoMemory` is returned where a growth was refused: nothing is known then.
pub fn witness_bytes(
    rt: &(impl Threads + Sync),
    alloc: Global,
    judging: Judging,
    trace: &Payload,
    record: &Payload,
) -> Result<(Witnessed, Trace, Record), Fault>
    ensures witnessed { IfOk result (λ x. IsWitnessed judging trace.now «record».now x.0) }
    ensures seen { IfOk result (λ x. trace_at trace.now ≡ Ok x.1) }
    ensures held { IfOk result (λ x. record_at «record».now ≡ Ok x.2) }
    ensures fault { IfErr result (IsUnwitnessedFault trace.now «record».now) }
    // A record that explains the trace is found to do so, unless memory was refused.
    ensures accepted { (t : TraceView) (r : RecordView) → IsTraceFile trace.now t → IsRecordFile «record».now r → IsExplainedBy judging t r
        → MatchResult result (λ x. (numbers : Numbers) × (x.0 ≡ Ok numbers)) (λ fault. fault ≡ NoMemoryFault) }
{
    let seen = trace_of(alloc, trace)?;
    let held = record_of(alloc, record)?;
    let witnessed = witness_record(rt, alloc, judging, &seen, &held)?;
    Ok((witnessed, seen, held))
}

/// The trace that a file holds.
fn trace_of(alloc: Global, bytes: &Payload) -> Result<Trace, Fault>
    ensures read { IfOk result (λ t. trace_at bytes.now ≡ Ok t) }
    ensures fault { IfErr result (λ fault. IsTraceFault bytes.now fault ⊎ (fault ≡ NoMemoryFault)) }
{
    match read_trace(alloc, bytes) {
        Ok(trace) => Ok(trace),
        Err(fault) => Err(Fault::of_trace(fault)),
    }
}

/// Whether the record explains the trace: the numbers of the two, or the first fault.
pub fn witness_record(
    rt: &(impl Threads + Sync),
    alloc: Global,
    judging: Judging,
    trace: &Trace,
    record: &Record,
) -> Result<Witnessed, NoMemory>
    ensures witnessed { IfOk result (IsWitnessedAs judging trace.now «record».now) }
    ensures accepted { IsExplainedBy judging trace.now «record».now
        → IfOk result (λ witnessed. (numbers : Numbers) × (witnessed ≡ Ok numbers)) }
{
    match witness(rt, alloc, judging, trace, record) {
        Ok(explained) => Ok(Witnessed::explained(explained)),
        Err(fault) => Ok(Witnessed::unexplained(fault)?),
    }
}
