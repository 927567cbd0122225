//! An audit by one thread.
ghost use Rattle.std.specs.Prelude.{◌≡◌, Ok, Err, IfOk};
ghost use Rattle.nvm_audit.specs.LawfulRecord.{IsLawfulRecord};
ghost use Rattle.nvm_audit.specs.RecordChecks.{IsFirstFault};
ghost use Rattle.nvm_audit.specs.declared.audit_fault.AuditFault.{AuditFault as FaultOfRecord};
ghost use Rattle.nvm_audit.specs.declared.verdict.Verdict.{Verdict as Numbers};
ghost use Rattle.nvm_engine.specs.Judged.{IsJudgedAs};

use crate::judged::Judged;
use nvm_audit::{Record, audit_alone};
use nvm_record::NoMemory;
use std::alloc::Global;

/// What an audit answers of the record, by this thread alone and without a wait.
pub fn judge_alone(alloc: Global, run: &Record) -> Result<Judged, NoMemory>
    ensures judged { IfOk result (IsJudgedAs run.now) }
    ensures accepted { IsLawfulRecord run.now → IfOk result (λ judged. (verdict : Numbers) × (judged ≡ Ok verdict)) }
    ensures named { (first : FaultOfRecord) → IsFirstFault run.now first → IfOk result (λ judged. judged ≡ Err first) }
{
    match audit_alone(alloc, run) {
        Ok(verdict) => Ok(Judged::lawful(verdict)),
        Err(fault) => Ok(Judged::unlawful(fault)?),
    }
}
