//! A trace that C has judged by a contradiction, each as the bytes of its file.
ghost use Rattle.std.specs.Prelude.{◌≡◌, ◌⊎◌, Err, IfOk};
ghost use Rattle.nvm_evidence.specs.ContradictionReading.{IsContradictionFile, contradiction_at};
ghost use Rattle.nvm_c.specs.Refuted as spec;
ghost use Rattle.nvm_c.specs.Refuted.{IsRefuted, IsRuling, IsUnread};
ghost use Rattle.nvm_c.specs.TraceAnswer.{IsAnswer};

use crate::finding::Finding;
use crate::trace_code::TraceCode;
use nvm_evidence::{
    EvidenceFault, HeldContradiction, Refuted, read_contradiction, refute_contradiction,
};
use nvm_file::read_trace;
use nvm_record::{NoMemory, Payload};
use nvm_trace::Trace;
use std::alloc::{AllocError, Global};

/// Judges the trace of the one file by the contradiction of the other, and writes the line of that with a byte of 0 after it. Nothing is
/// written where the room is too short.
pub(crate) fn refuted(
    alloc: Global,
    trace: &[u8],
    contradiction: &[u8],
    room: &mut [u8],
) -> TraceCode
    ensures { IsAnswer (IsRefuted trace.now contradiction.now) result room.old room.new }
{
    match finding_in(alloc, trace, contradiction) {
        Ok(finding) => finding.put(room),
        Err(_) => TraceCode::NoMemory,
    }
}

/// What is found in the bytes of the two files.
fn finding_in(alloc: Global, trace: &[u8], contradiction: &[u8]) -> Result<Finding, NoMemory>
    ensures { IfOk result (λ finding. IsRefuted trace.now contradiction.now finding.code finding.line.items) }
{
    let trace = Payload::copy_of(alloc, trace)?;
    match read_trace(alloc, &trace) {
        Ok(seen) => finding_of(alloc, &seen, contradiction),
        Err(fault) => Finding::bad_trace(alloc, fault),
    }
}

/// What is found of the trace in the bytes of a contradiction's file.
fn finding_of(alloc: Global, trace: &Trace, contradiction: &[u8]) -> Result<Finding, NoMemory>
    ensures { IfOk result
        (λ finding. IsUnread contradiction.now finding.code finding.line.items ⊎ IsRuling trace.now contradiction.now finding.code finding.line.items) }
{
    match read_contradiction(alloc, contradiction) {
        Ok(held) => ruling(alloc, trace, contradiction, &held),
        Err(EvidenceFault::NoMemory) => Err(AllocError),
        Err(fault) => unread(alloc, contradiction, fault),
    }
}

/// What is found of bytes that are no contradiction's file, by this fault.
fn unread(alloc: Global, bytes: &[u8], fault: EvidenceFault) -> Result<Finding, NoMemory>
    requires { contradiction_at bytes.now ≡ Err fault }
    ensures { IfOk result (λ finding. IsUnread bytes.now finding.code finding.line.items) }
{
    Finding::bad_evidence(alloc, TraceCode::BadContradiction, "contradiction", fault)
}

/// What is found of the trace and the contradiction of these bytes.
fn ruling(
    alloc: Global,
    trace: &Trace,
    bytes: &[u8],
    held: &HeldContradiction,
) -> Result<Finding, NoMemory>
    requires { IsContradictionFile bytes.now held.now }
    ensures { IfOk result (λ finding. IsRuling trace.now bytes.now finding.code finding.line.items) }
{
    let refuted = refute_contradiction(alloc, trace, held)?;
    let line = refuted.line(alloc)?;
    Ok(Finding {
        code: code_of(refuted),
        line: line.into_bytes(),
    })
}

/// The code of what the contradiction comes to.
fn code_of(refuted: Refuted) -> TraceCode
    ensures { result ≡ spec.code_of refuted }
{
    match refuted {
        Refuted::Refuted { .. } | Refuted::Wrong { .. } => TraceCode::Refuted,
        Refuted::Unrefuted(_) => TraceCode::Unrefuted,
    }
}
