//! `nvmu audit` and `nvmu witness`: whether a record is lawful, and whether it, or an order, explains a trace.
ghost use Rattle.std.specs.Prelude.{IfOk, IfErr};
ghost use Rattle.nvm_engine.specs.Judged.{IsJudged};
ghost use Rattle.nvm_commands.specs.Nvmu.Judged.{IsAuditFault, IsJudgedFile, IsJudgeFaultOn, IsWitnessFault, IsWitnessFaultOn};
ghost use Rattle.nvm_commands.specs.Nvmu.Answer.{AreWitnessedFiles, IsWitnessedBy};

use crate::failure::{Failure, plain};
use crate::fault::Fault;
use crate::files::payload_of;
use crate::front::{InputKind, Progress};
use crate::nvmu::answer::Answer;
use crate::nvmu::files::read_pair;
use nvm_engine::{Judged, audit_bytes_watched, witness_bytes};
use nvm_evidence::{is_evidence, witness_order_bytes};
use nvm_record::Payload;
use nvm_trace::Judging;
use std::mem::forget;
use std::rt::Files;
use std::thread::Threads;

/// Reads the record at a path and audits it.
pub fn audited<R: AllocGlobal + Files + Input + Eprint + Threads + Sync>(
    rt: &R,
    path: &str,
    progress: &Progress<'_, R>,
) -> Result<Judged, Failure>
    ensures judged { IfOk result IsJudgedFile }
    ensures fault { IfErr result (λ failure. IsJudgeFaultOn path.now failure.fault) }
{
    let bytes = payload_of(rt, InputKind::File, path, progress)?;
    judged_of(rt, &bytes, progress)
}

/// Audits the bytes of a record.
fn judged_of<R: AllocGlobal + Eprint + Threads + Sync>(
    rt: &R,
    bytes: &Payload,
    progress: &Progress<'_, R>,
) -> Result<Judged, Failure>
    ensures judged { IfOk result (IsJudged bytes.now) }
    ensures fault { IfErr result (λ failure. IsAuditFault bytes.now failure.fault) }
{
    match audit_bytes_watched(rt, rt.alloc(), bytes, progress) {
        Ok((judged, run)) => {
            forget(run);
            Ok(judged)
        }
        Err(fault) => Err(plain(Fault::Engine(fault))),
    }
}

/// Reads the trace and the record or the order at these paths, and judges the trace by it. An order isn't judged strictly.
pub fn witnessed<R: AllocGlobal + Files + Input + Eprint + Threads + Sync>(
    rt: &R,
    judging: Judging,
    trace: &str,
    record: &str,
    progress: &Progress<'_, R>,
) -> Result<Answer, Failure>
    ensures witnessed { IfOk result (AreWitnessedFiles judging) }
    ensures fault { IfErr result (λ failure. IsWitnessFaultOn trace.now «record».now failure.fault) }
{
    let (seen, held) = read_pair(rt, trace, record, progress)?;
    witnessed_of(rt, judging, &seen, &held)
}

/// Judges the bytes of a trace by those of a record or an order.
fn witnessed_of<R: AllocGlobal + Threads + Sync>(
    rt: &R,
    judging: Judging,
    seen: &Payload,
    held: &Payload,
) -> Result<Answer, Failure>
    ensures witnessed { IfOk result (IsWitnessedBy judging seen.now held.now) }
    ensures fault { IfErr result (λ failure. IsWitnessFault seen.now held.now failure.fault) }
{
    match judging {
        Judging::Standard if is_evidence(held.as_slice()) => {
            match witness_order_bytes(rt.alloc(), seen, held.as_slice()) {
                Ok(ordered) => Ok(Answer::Ordered(ordered)),
                Err(fault) => Err(plain(Fault::Order(fault))),
            }
        }
        _ => match witness_bytes(rt, rt.alloc(), judging, seen, held) {
            Ok((witnessed, traced, run)) => {
                forget(traced);
                forget(run);
                Ok(Answer::Witnessed(witnessed))
            }
            Err(fault) => Err(plain(Fault::Engine(fault))),
        },
    }
}
