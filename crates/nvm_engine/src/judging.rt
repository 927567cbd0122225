ghost use Rattle.std.specs.Prelude.{◌≡◌, Result, Ok, Err, IfOk, IfErr, MatchResult};
ghost use Rattle.nvm_audit.specs.LawfulRecord.{IsLawfulRecord};
ghost use Rattle.nvm_audit.specs.RecordChecks.{IsFirstFault};
ghost use Rattle.nvm_audit.specs.RecordView.{RecordView};
ghost use Rattle.nvm_audit.specs.Verdict.{IsVerdict};
ghost use Rattle.nvm_audit.specs.declared.audit_fault.AuditFault.{AuditFault as FaultOfRecord};
ghost use Rattle.nvm_audit.specs.declared.verdict.Verdict.{Verdict as Numbers};
ghost use Rattle.nvm_file.specs.Reading.{record_at};
ghost use Rattle.nvm_file.specs.RecordFile.{IsRecordFile};
ghost use Rattle.nvm_engine.specs.Judged.{IsJudged, IsJudgedAs, IsUnreadFault};
ghost use Rattle.nvm_engine.specs.declared.fault.Fault.TheVariants.{NoMemory as NoMemoryFault};

use crate::fault::Fault;
use crate::judged::Judged;
use nvm_audit::{AuditFault, Record, Unwatched, Verdict, Watcher, audit_watched};
use nvm_file::read_record;
use nvm_record::{NoMemory, Payload};
use std::alloc::{AllocError, Global};
use std::thread::Threads;

/// Audits the record that a file of either version holds: whether it is lawful, or what is its first fault.
///
/// Where the bytes are no record's file, the first fault from the front is returned, with its offset. `NoMemory` is returned where
/// a growth was refused: nothing is known of the record then.
pub fn audit_bytes(
    rt: &(impl Threads + Sync),
    alloc: Global,
    bytes: &Payload,
) -> Result<Judged, Fault>
    ensures judged { IfOk result (IsJudged bytes.now) }
    ensures fault { IfErr result (IsUnreadFault bytes.now) }
    // A lawful record is found lawful, and of another one its first fault is named, unless memory was refused.
    ensures accepted { (r : RecordView) → IsRecordFile bytes.now r → IsLawfulRecord r
        → MatchResult result (λ judged. (verdict : Numbers) × (judged ≡ Ok verdict)) (λ fault. fault ≡ NoMemoryFault) }
    ensures named { (r : RecordView) (first : FaultOfRecord) → IsRecordFile bytes.now r → IsFirstFault r first
        → MatchResult result (λ judged. judged ≡ Err first) (λ fault. fault ≡ NoMemoryFault) }
{
    let (judged, _) = audit_bytes_watched(rt, alloc, bytes, &Unwatched)?;
    Ok(judged)
}

/// What [`audit_bytes`] returns, and the record, which a program that ends then needn't take apart. The watcher is notified how far the
/// audit is.
pub fn audit_bytes_watched<W: Watcher + Sync>(
    rt: &(impl Threads + Sync),
    alloc: Global,
    bytes: &Payload,
    watcher: &W,
) -> Result<(Judged, Record), Fault>
    ensures judged { IfOk result (λ x. IsJudged bytes.now x.0) }
    ensures read { IfOk result (λ x. record_at bytes.now ≡ Ok x.1) }
    ensures fault { IfErr result (IsUnreadFault bytes.now) }
    // A lawful record is found lawful, and of another one its first fault is named, unless memory was refused.
    ensures accepted { (r : RecordView) → IsRecordFile bytes.now r → IsLawfulRecord r
        → MatchResult result (λ x. (verdict : Numbers) × (x.0 ≡ Ok verdict)) (λ fault. fault ≡ NoMemoryFault) }
    ensures named { (r : RecordView) (first : FaultOfRecord) → IsRecordFile bytes.now r → IsFirstFault r first
        → MatchResult result (λ x. x.0 ≡ Err first) (λ fault. fault ≡ NoMemoryFault) }
{
    let held = record_of(alloc, bytes)?;
    let judged = judge_watched(rt, alloc, &held, watcher)?;
    Ok((judged, held))
}

/// The record that a file holds.
pub(crate) fn record_of(alloc: Global, bytes: &Payload) -> Result<Record, Fault>
    ensures read { IfOk result (λ r. record_at bytes.now ≡ Ok r) }
    ensures fault { IfErr result (IsUnreadFault bytes.now) }
{
    match read_record(alloc, bytes) {
        Ok(record) => Ok(record),
        Err(fault) => Err(Fault::of_record(fault)),
    }
}

/// What an audit answers of the record. The watcher is notified how far it is.
pub fn judge_watched<W: Watcher + Sync>(
    rt: &(impl Threads + Sync),
    alloc: Global,
    run: &Record,
    watcher: &W,
) -> Result<Judged, NoMemory>
    ensures judged { IfOk result (IsJudgedAs run.now) }
    ensures accepted { IsLawfulRecord run.now → IfOk result (λ judged. (verdict : Numbers) × (judged ≡ Ok verdict)) }
    ensures named { (first : FaultOfRecord) → IsFirstFault run.now first → IfOk result (λ judged. judged ≡ Err first) }
{
    match audit_watched(rt, alloc, run, watcher) {
        Ok(verdict) => Ok(Judged::lawful(verdict)),
        Err(fault) => Ok(Judged::unlawful(fault)?),
    }
}

/// The verdict of a lawful record.
pub(crate) fn verdict_of<W: Watcher + Sync>(
    rt: &(impl Threads + Sync),
    alloc: Global,
    run: &Record,
    watcher: &W,
) -> Result<Verdict, NoMemory>
    requires { IsLawfulRecord run.now }
    ensures { IfOk result (IsVerdict run.now) }
{
    match audit_watched(rt, alloc, run, watcher) {
        Ok(verdict) => Ok(verdict),
        Err(AuditFault::NoMemory) => Err(AllocError),
        Err(_) => unreachable!("a lawful record is accepted"),
    }
}
