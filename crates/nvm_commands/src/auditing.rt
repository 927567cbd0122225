//! `nvq audit` and `nvq witness`: whether a record is lawful, and whether it, or an order, explains a trace. Each answers one line, but for
//! `nvq audit --all`, which has one for each unit in which something is wrong.
ghost use Rattle.std.specs.Prelude.{◌≡◌, ◌⊎◌, IfOk, IfErr};
ghost use Rattle.nvm_engine.specs.VerdictLine.{answer_line};
ghost use Rattle.nvm_commands.specs.Audited.{AreFaultsOfFile, AreWitnessedFiles, answer_told, IsAuditedFile, IsToldByOrder, IsToldByRecord, IsUnwitnessed, IsWitnessedTrace};
ghost use Rattle.nvm_commands.specs.Fault.{IsFaultOfEvidenceAt, IsFaultOfRecordAt, IsFaultOfRecordIn};
ghost use Rattle.nvm_commands.specs.Files.{IsReadFault};

use crate::failure::Failure;
use crate::files::{check_apart, order_in, payload_of, read_as_record, read_as_trace, record_in};
use crate::front::{InputKind, Progress, Telling};
use crate::told::Told;
use nvm_engine::{Judged, judge_watched, witness_record};
use nvm_evidence::{is_evidence, witness_order};
use nvm_listing::{all_faults, list_faults};
use nvm_record::{NoMemory, Payload};
use nvm_trace::{Judging, Trace};
use std::alloc::{AllocError, Global};
use std::mem::forget;
use std::rt::Files;
use std::thread::Threads;

/// What an audit answers of the record at a path.
pub fn audited<R: AllocGlobal + Files + Input + Eprint + Threads + Sync>(
    rt: &R,
    telling: Telling,
    record: &str,
    progress: &Progress<'_, R>,
) -> Result<Told, Failure>
    ensures audited { IfOk result (IsAuditedFile telling) }
    ensures fault { IfErr result (λ failure. IsReadFault «record».now failure.fault ⊎ IsFaultOfRecordAt «record».now failure.fault) }
{
    let run = read_as_record(rt, record, progress)?;
    let judged = judge_watched(rt, rt.alloc(), &run, progress)?;
    let text = printed(rt.alloc(), telling, &judged)?;
    let status = judged.status();
    forget(run);
    Ok(Told { text, status })
}

/// All that is wrong in the record at a path, or its verdict.
pub fn all_audited<R: AllocGlobal + Files + Input + Eprint + Threads + Sync>(
    rt: &R,
    record: &str,
    progress: &Progress<'_, R>,
) -> Result<Told, Failure>
    ensures audited { IfOk result AreFaultsOfFile }
    ensures fault { IfErr result (λ failure. IsReadFault «record».now failure.fault ⊎ IsFaultOfRecordAt «record».now failure.fault) }
{
    let run = read_as_record(rt, record, progress)?;
    let faults = all_faults(rt, rt.alloc(), &run, progress)?;
    let text = list_faults(rt.alloc(), &faults)?.into_bytes();
    let status = faults.status();
    forget(run);
    Ok(Told { text, status })
}

/// How an audit is printed.
fn printed(alloc: Global, telling: Telling, judged: &Judged) -> Result<Vec<u8>, NoMemory>
    ensures { IfOk result (λ text. text.items ≡ answer_told telling judged.now) }
{
    match telling {
        Telling::Lines => line_of(alloc, judged),
        Telling::Object => Ok(judged.object(alloc)?.into_bytes()),
    }
}

/// The line of an audit.
fn line_of(alloc: Global, judged: &Judged) -> Result<Vec<u8>, NoMemory>
    ensures { IfOk result (λ line. line.items ≡ answer_line judged.now) }
{
    let mut line = Vec::new(alloc);
    match judged.write_line(&mut line) {
        Ok(()) => Ok(line),
        Err(_) => Err(AllocError),
    }
}

/// What a witness answers of the trace at a path, and of the record or the order at another. The two can't both be standard input.
pub fn witnessed<R: AllocGlobal + Files + Input + Eprint + Threads + Sync>(
    rt: &R,
    judging: Judging,
    trace: &str,
    record: &str,
    progress: &Progress<'_, R>,
) -> Result<Told, Failure>
    ensures witnessed { IfOk result (AreWitnessedFiles judging) }
    ensures fault { IfErr result (λ failure. IsUnwitnessed trace.now «record».now failure.fault) }
{
    check_apart(trace, record)?;
    let seen = read_as_trace(rt, trace, progress)?;
    let held = payload_of(rt, InputKind::File, record, progress)?;
    let witnessed = witnessed_by(rt, judging, &seen, record, &held);
    forget(seen);
    witnessed
}

/// What is answered of the trace by the record or the order in the bytes of a file that was read from a path. An order isn't judged strictly.
fn witnessed_by<R: AllocGlobal + Threads + Sync>(
    rt: &R,
    judging: Judging,
    seen: &Trace,
    path: &str,
    held: &Payload,
) -> Result<Told, Failure>
    ensures witnessed { IfOk result (IsWitnessedTrace judging «seen».now held.now) }
    ensures fault { IfErr result (λ failure. IsFaultOfRecordIn path.now held.now failure.fault ⊎ IsFaultOfEvidenceAt path.now failure.fault) }
{
    match judging {
        Judging::Standard if is_evidence(held.as_slice()) => {
            by_order(rt.alloc(), seen, path, held.as_slice())
        }
        _ => by_record(rt, judging, seen, path, held),
    }
}

/// What is answered of the trace by the record in the bytes of a file that was read from a path.
fn by_record<R: AllocGlobal + Threads + Sync>(
    rt: &R,
    judging: Judging,
    seen: &Trace,
    path: &str,
    held: &Payload,
) -> Result<Told, Failure>
    ensures witnessed { IfOk result (IsToldByRecord judging «seen».now held.now) }
    ensures fault { IfErr result (λ failure. IsFaultOfRecordIn path.now held.now failure.fault) }
{
    let held = record_in(rt.alloc(), path, held)?;
    let witnessed = witness_record(rt, rt.alloc(), judging, seen, &held)?;
    let text = witnessed.line(rt.alloc())?.into_bytes();
    let status = witnessed.status();
    forget(held);
    Ok(Told { text, status })
}

/// What is answered of the trace by the order in the bytes of a file that was read from a path.
fn by_order(alloc: Global, seen: &Trace, path: &str, held: &[u8]) -> Result<Told, Failure>
    ensures witnessed { IfOk result (IsToldByOrder «seen».now) }
    ensures fault { IfErr result (λ failure. IsFaultOfEvidenceAt path.now failure.fault) }
{
    let held = order_in(alloc, path, held)?;
    let ordered = witness_order(alloc, seen, &held)?;
    let text = ordered.line(alloc)?.into_bytes();
    let status = ordered.status();
    Ok(Told { text, status })
}
