//! `nvq explain`: what is wrong with a record, or what there is in a lawful one; and what a record, an order or a contradiction says of a
//! trace.
ghost use Rattle.std.specs.Prelude.{◌⊎◌, IfErr};
ghost use Rattle.nvm_commands.specs.Audited.{IsUnwitnessed};
ghost use Rattle.nvm_commands.specs.Explained.{IsStoryFault, IsUntold};
ghost use Rattle.nvm_commands.specs.Fault.{IsFaultOfEvidenceAt, IsFaultOfRecordAt, IsFaultOfRecordIn};
ghost use Rattle.nvm_commands.specs.Files.{IsReadFault};

use crate::explaining_words::ExplainWords;
use crate::failure::Failure;
use crate::files::{check_apart, evidence_in, payload_of, read_as_record, record_in, trace_in};
use crate::front::{InputKind, Progress};
use nvm_evidence::{Evidence, contradiction_story, is_evidence, order_story};
use nvm_explain::{explain, witness_story};
use nvm_record::Payload;
use nvm_trace::{Judging, Trace};
use std::alloc::Global;
use std::mem::forget;
use std::rt::Files;
use std::thread::Threads;

/// The explanation that the words ask for: of a record, or of a trace and what the file at another path says of it. The two can't both be
/// standard input.
pub fn explained<R: AllocGlobal + Files + Input + Eprint + Threads + Sync>(
    rt: &R,
    words: &ExplainWords,
    progress: &Progress<'_, R>,
) -> Result<String, Failure>
    ensures { IfErr result (λ failure. IsUntold words.now failure.fault) }
{
    match words {
        ExplainWords::Record { record } => record_explained(rt, record.as_str(), progress),
        ExplainWords::Trace {
            judging,
            trace,
            evidence,
        } => trace_explained(rt, *judging, trace.as_str(), evidence.as_str(), progress),
    }
}

/// The explanation of the record at a path.
fn record_explained<R: AllocGlobal + Files + Input + Eprint + Threads + Sync>(
    rt: &R,
    path: &str,
    progress: &Progress<'_, R>,
) -> Result<String, Failure>
    ensures fault { IfErr result (λ failure. IsReadFault path.now failure.fault ⊎ IsFaultOfRecordAt path.now failure.fault) }
{
    let run = read_as_record(rt, path, progress)?;
    let text = explain(rt, rt.alloc(), &run, progress)?;
    forget(run);
    Ok(text)
}

/// The explanation of the trace at a path, and of what the file at another says of it. The two can't both be standard input.
fn trace_explained<R: AllocGlobal + Files + Input + Eprint + Threads + Sync>(
    rt: &R,
    judging: Judging,
    trace: &str,
    evidence: &str,
    progress: &Progress<'_, R>,
) -> Result<String, Failure>
    ensures { IfErr result (λ failure. IsUnwitnessed trace.now evidence.now failure.fault) }
{
    check_apart(trace, evidence)?;
    let seen = payload_of(rt, InputKind::Text, trace, progress)?;
    let held = payload_of(rt, InputKind::File, evidence, progress)?;
    story_of(rt, judging, trace, &seen, evidence, &held)
}

/// The explanation of the trace that bytes say which were read from a path, and of the record or the evidence in those of another file; or
/// the fault of the one, or else of the other.
fn story_of<R: AllocGlobal + Threads + Sync>(
    rt: &R,
    judging: Judging,
    trace: &str,
    seen: &Payload,
    evidence: &str,
    held: &Payload,
) -> Result<String, Failure>
    ensures { IfErr result (λ failure. IsStoryFault «trace».now seen.now evidence.now held.now failure.fault) }
{
    let seen = trace_in(rt.alloc(), trace, seen)?;
    match judging {
        Judging::Standard if is_evidence(held.as_slice()) => {
            story_by_evidence(rt.alloc(), &seen, evidence, held.as_slice())
        }
        _ => story_by_record(rt, judging, &seen, evidence, held),
    }
}

/// The explanation of the trace and the record in the bytes of a file that was read from a path.
fn story_by_record<R: AllocGlobal + Threads + Sync>(
    rt: &R,
    judging: Judging,
    seen: &Trace,
    record: &str,
    held: &Payload,
) -> Result<String, Failure>
    ensures { IfErr result (λ failure. IsFaultOfRecordIn «record».now held.now failure.fault) }
{
    let held = record_in(rt.alloc(), record, held)?;
    let text = witness_story(rt, rt.alloc(), judging, seen, &held)?;
    forget(held);
    Ok(text)
}

/// The explanation of the trace and the order or the contradiction in the bytes of a file that was read from a path.
fn story_by_evidence(
    alloc: Global,
    seen: &Trace,
    path: &str,
    held: &[u8],
) -> Result<String, Failure>
    ensures { IfErr result (λ failure. IsFaultOfEvidenceAt path.now failure.fault) }
{
    match evidence_in(alloc, path, held)? {
        Evidence::Order(held) => Ok(order_story(alloc, seen, &held)?),
        Evidence::Contradiction(held) => Ok(contradiction_story(alloc, seen, &held)?),
    }
}
