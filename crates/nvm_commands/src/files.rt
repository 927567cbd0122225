//! Records, traces and evidence as they are read from paths, and the failures of that.
ghost use Rattle.std.specs.Prelude.{◌≡◌, ◌⊎◌, ℕ, true, List, Ok, IfOk, IfErr};
ghost use Rattle.nvm_file.specs.Reading.{record_at};
ghost use Rattle.nvm_file.specs.TraceFile.{IsTraceFile};
ghost use Rattle.nvm_commands.specs.Audited.{IsInputTwice};
ghost use Rattle.nvm_trace_text.specs.Texts.{IsTextOf};
ghost use Rattle.nvm_commands.specs.Fault.{IsFaultOfEvidenceAt, IsFaultOfRecordAt, IsFaultOfRecordIn, IsFaultOfText, IsFaultOfTraceAs, IsFaultOfTraceAt, IsFaultOfTraceIn};
ghost use Rattle.nvm_commands.specs.Files.{IsReadFault};
ghost use Rattle.nvm_commands.specs.Traced.{SaysTrace, begins_as_file};

use crate::conversion::{record_of, trace_of};
use crate::failure::{Failure, of_file, of_text, plain};
use crate::fault::Fault;
use crate::front::{FileFault, InputKind, Progress, is_input, read_input};
use crate::hint::{Wanted, instead, refusal};
use nvm_audit::Record;
use nvm_evidence::{Evidence, HeldOrder, read_evidence, read_order};
use nvm_record::Payload;
use nvm_trace::Trace;
use nvm_trace_text::trace_of_text;
use std::alloc::{AllocError, Global};
use std::rt::Files;

/// The bytes of a file, or of standard input. Want of memory isn't the file's fault.
pub fn bytes_of<R: Files + AllocGlobal + Input + Eprint>(
    rt: &R,
    kind: InputKind,
    path: &str,
    progress: &Progress<'_, R>,
) -> Result<Vec<u8>, Failure>
    ensures { IfErr result (λ failure. IsReadFault path.now failure.fault) }
{
    match read_input(rt, kind, path, progress) {
        Ok(bytes) => Ok(bytes),
        Err(FileFault::NoMemory) => Err(Failure::from(AllocError)),
        Err(FileFault::Refused(kind)) => Err(unread(rt.alloc(), path, refusal(kind))),
    }
}

/// The same, as bytes that are shared.
pub fn payload_of<R: Files + AllocGlobal + Input + Eprint>(
    rt: &R,
    kind: InputKind,
    path: &str,
    progress: &Progress<'_, R>,
) -> Result<Payload, Failure>
    ensures { IfErr result (λ failure. IsReadFault path.now failure.fault) }
{
    let bytes = bytes_of(rt, kind, path, progress)?;
    Ok(Payload::new(rt.alloc(), bytes)?)
}

/// The record at a path, or on standard input.
pub fn read_as_record<R: Files + AllocGlobal + Input + Eprint>(
    rt: &R,
    path: &str,
    progress: &Progress<'_, R>,
) -> Result<Record, Failure>
    ensures run { IfOk result (λ run. (file : List ℕ) × (record_at file ≡ Ok run)) }
    ensures fault { IfErr result (λ failure. IsReadFault path.now failure.fault ⊎ IsFaultOfRecordAt path.now failure.fault) }
{
    let bytes = payload_of(rt, InputKind::File, path, progress)?;
    record_in(rt.alloc(), path, &bytes)
}

/// The record in the bytes of a file that was read from a path, or the file's fault and what helps.
pub fn record_in(alloc: Global, path: &str, file: &Payload) -> Result<Record, Failure>
    ensures run { IfOk result (λ run. record_at file.now ≡ Ok run) }
    ensures fault { IfErr result (λ failure. IsFaultOfRecordIn path.now file.now failure.fault) }
{
    let named = String::from_str(alloc, path)?;
    match record_of(alloc, named, file) {
        Ok(run) => Ok(run),
        Err(fault) => Err(of_file(alloc, fault, path, file, Wanted::Record)),
    }
}

/// The order or the contradiction in the bytes of a file that was read from a path, or the file's fault.
pub fn evidence_in<'f>(alloc: Global, path: &str, file: &'f [u8]) -> Result<Evidence<'f>, Failure>
    ensures { IfErr result (λ failure. IsFaultOfEvidenceAt path.now failure.fault) }
{
    let named = String::from_str(alloc, path)?;
    match read_evidence(alloc, file) {
        Ok(held) => Ok(held),
        Err(fault) => Err(plain(Fault::of_evidence(named, fault))),
    }
}

/// The order in the bytes of a file that was read from a path, or the file's fault and what helps.
pub fn order_in<'f>(alloc: Global, path: &str, file: &'f [u8]) -> Result<HeldOrder<'f>, Failure>
    ensures { IfErr result (λ failure. IsFaultOfEvidenceAt path.now failure.fault) }
{
    let named = String::from_str(alloc, path)?;
    match read_order(alloc, file) {
        Ok(held) => Ok(held),
        Err(fault) => {
            let hint = instead(alloc, path, file, Wanted::Order);
            Err(Failure::hinted(Fault::of_evidence(named, fault), hint))
        }
    }
}

/// The trace at a path, or on standard input: its file, or its text.
pub fn read_as_trace<R: Files + AllocGlobal + Input + Eprint>(
    rt: &R,
    path: &str,
    progress: &Progress<'_, R>,
) -> Result<Trace, Failure>
    ensures trace { IfOk result (λ trace. (bytes : List ℕ) × SaysTrace bytes trace) }
    ensures fault { IfErr result (λ failure. IsReadFault path.now failure.fault ⊎ IsFaultOfTraceAt path.now failure.fault) }
{
    let bytes = payload_of(rt, InputKind::Text, path, progress)?;
    trace_in(rt.alloc(), path, &bytes)
}

/// The trace that bytes say which were read from a path, as its file where they begin with `NV`, and else as its text. Or their fault and
/// what helps.
pub fn trace_in(alloc: Global, path: &str, bytes: &Payload) -> Result<Trace, Failure>
    ensures trace { IfOk result (SaysTrace bytes.now) }
    ensures fault { IfErr result (λ failure. IsFaultOfTraceIn path.now bytes.now failure.fault) }
{
    if is_file(bytes.as_slice()) {
        trace_of_file(alloc, path, bytes)
    } else {
        trace_of_lines(alloc, path, bytes.as_slice())
    }
}

/// Whether the bytes begin as those of a file of ours.
fn is_file(bytes: &[u8]) -> bool
    ensures { result ≡ begins_as_file bytes.now }
{
    bytes.starts_with(b"NV")
}

/// The trace in the bytes of a file that was read from a path, or the file's fault and what helps.
fn trace_of_file(alloc: Global, path: &str, file: &Payload) -> Result<Trace, Failure>
    ensures trace { IfOk result (IsTraceFile file.now) }
    ensures fault { IfErr result (λ failure. IsFaultOfTraceAs true path.now file.now failure.fault) }
{
    let named = String::from_str(alloc, path)?;
    match trace_of(alloc, named, file) {
        Ok(trace) => Ok(trace),
        Err(fault) => Err(of_file(alloc, fault, path, file, Wanted::Trace)),
    }
}

/// The trace that a text says which was read from a path, or the text's fault and what helps.
pub fn trace_of_lines(alloc: Global, path: &str, text: &[u8]) -> Result<Trace, Failure>
    ensures trace { IfOk result (IsTextOf text.now) }
    ensures fault { IfErr result (λ failure. IsFaultOfText text.now failure.fault) }
{
    match trace_of_text(alloc, text) {
        Ok(trace) => Ok(trace),
        Err(fault) => Err(of_text(alloc, Fault::from(fault), path, text)),
    }
}

/// Refuses to read standard input as a trace and as its record, before anything is read.
pub fn check_apart(trace: &str, record: &str) -> Result<(), Failure>
    ensures { IfErr result (λ failure. IsInputTwice trace.now «record».now failure.fault) }
{
    if is_input(trace) && is_input(record) {
        Err(plain(Fault::InputTwice))
    } else {
        Ok(())
    }
}

/// The failure of a file that can't be read, or want of memory for its path. The hint below the fault says why.
pub fn unread(alloc: Global, path: &str, why: Option<&'static str>) -> Failure
    ensures { IsReadFault path.now result.fault }
{
    match String::from_str(alloc, path) {
        Ok(path) => Failure::because(Fault::CannotRead { path }, why),
        Err(error) => Failure::from(error),
    }
}
