//! An audit by one thread.
ghost use Rattle.std.specs.Prelude.{◌≡◌, ◌⊎◌, ◌++◌, length, IfOk, IfErr, MatchOption, MatchResult};
ghost use Rattle.std.specs.List.{AllByRecursion};
ghost use Rattle.nvm_audit.specs.declared.audit_fault.AuditFault.{AuditFault as Fault};
ghost use Rattle.nvm_audit.specs.declared.audit_fault.AuditFault.TheVariants.{NoMemory as NoMemoryFault};
ghost use Rattle.nvm_audit.specs.LawfulRecord.{IsLawfulRecord};
ghost use Rattle.nvm_audit.specs.RecordChecks.{Passes, count_checks, shape_checks, IsFirstFault};
ghost use Rattle.nvm_audit.specs.Verdict.{IsVerdict};

use crate::audit_fault::AuditFault;
use crate::counts::verdict;
use crate::grouping::parts_by_unit;
use crate::job_fault::job_fault;
use crate::laws::{no_check_fails_for_lawful_records, one_check_is_the_first_fault};
use crate::record::Record;
use crate::unit_audit::fault_of_parts;
use crate::verdict::Verdict;
use nvm_record::NoMemory;
use std::alloc::Global;

/// What is first found wrong in the units, by their numbers, if anything is. No unit after it is looked at.
fn first_in_units(alloc: Global, record: &Record) -> Result<Option<AuditFault>, NoMemory>
    requires { AllByRecursion (Passes «record».now)
        (count_checks (length «record».now.jobs) ++ shape_checks (length «record».now.jobs)) }
    ensures { IfOk result (λ found. MatchOption found (IsLawfulRecord «record».now) (IsFirstFault «record».now)) }
{
    no_check_fails_for_lawful_records();
    let units = record.geometry.units();
    let parts = parts_by_unit(alloc, usize::from(units), &record.done)?;
    for unit in 0..units {
        match fault_of_parts(alloc, record, unit, &parts[unit as usize])? {
            Some(fault) => return Ok(Some(fault)),
            None => {}
        }
    }
    Ok(None)
}

/// What is first found wrong in the record, if anything is.
fn first_fault(alloc: Global, record: &Record) -> Result<Option<AuditFault>, NoMemory>
    ensures { IfOk result (λ found. MatchOption found (IsLawfulRecord «record».now) (IsFirstFault «record».now)) }
{
    match job_fault(alloc, record)? {
        Some(fault) => Ok(Some(fault)),
        None => first_in_units(alloc, record),
    }
}

/// What [`audit`](crate::audit) answers, found by this thread alone, without a wait: for where no thread may be started, as in a
/// library that C links.
pub fn audit_alone(alloc: Global, record: &Record) -> Result<Verdict, AuditFault>
    ensures lawful { IfOk result (λ _. IsLawfulRecord «record».now) }
    ensures numbers { IfOk result (IsVerdict «record».now) }
    ensures fault { IfErr result (λ fault. IsFirstFault «record».now fault ⊎ (fault ≡ NoMemoryFault)) }
    ensures accepted { IsLawfulRecord «record».now → IfErr result (λ fault. fault ≡ NoMemoryFault) }
    ensures named { (fault : Fault) → IsFirstFault «record».now fault
        → MatchResult result (λ _. ⊥) (λ answer. (answer ≡ fault) ⊎ (answer ≡ NoMemoryFault)) }
{
    one_check_is_the_first_fault();
    match first_fault(alloc, record)? {
        Some(fault) => Err(fault),
        None => Ok(verdict(record)),
    }
}
