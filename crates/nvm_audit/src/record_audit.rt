ghost use Rattle.std.specs.Prelude.{◌≡◌, ◌⊎◌, ◌++◌, length, map, IfOk, IfErr, MatchOption, MatchResult};
ghost use Rattle.std.specs.List.{AllByRecursion, AllZip, range_with_len};
ghost use Rattle.nvm_audit.specs.Inside.Grouped.{AreGrouped};
ghost use Rattle.nvm_audit.specs.Inside.UnitSearch.{CanBeAudited, IsFoundIn};
ghost use Rattle.nvm_audit.specs.RecordedPart.{parts_of_workers};
ghost use Rattle.nvm_audit.specs.declared.audit_fault.AuditFault.{AuditFault as Fault};
ghost use Rattle.nvm_audit.specs.declared.audit_fault.AuditFault.TheVariants.{NoMemory as NoMemoryFault};
ghost use Rattle.nvm_audit.specs.LawfulRecord.{HaveShapes, IsLawfulRecord};
ghost use Rattle.nvm_audit.specs.RecordChecks.{Passes, count_checks, shape_checks, IsFirstFault};
ghost use Rattle.nvm_audit.specs.Verdict.{IsVerdict};

use crate::audit_fault::AuditFault;
use crate::counts::verdict;
use crate::done_part::DonePart;
use crate::grouping::parts_by_unit;
use crate::job_fault::job_fault;
use crate::laws::{no_check_fails_for_lawful_records, one_check_is_the_first_fault};
use crate::record::Record;
use crate::unit_audit::fault_of_parts;
use crate::verdict::Verdict;
use crate::watcher::{Unwatched, Watcher};
use nvm_record::NoMemory;
use rayon::prelude::*;
use std::alloc::Global;
use std::thread::Threads;

/// What is found in each unit, in their order, from as many threads as there are processors.
fn found_in_units<W: Watcher + Sync>(
    rt: &(impl Threads + Sync),
    alloc: Global,
    record: &Record,
    parts: &Vec<Vec<DonePart<'_>>>,
    watcher: &W,
) -> Result<Vec<Result<Option<AuditFault>, NoMemory>>, NoMemory>
    requires shapes { HaveShapes «record».now }
    requires parts { AreGrouped (length «record».now.units) (parts_of_workers 0 «record».now.done)
        (map (λ group. group.items) parts.now.items) }
    ensures { IfOk result (λ found. AllZip (λ unit answer. IfOk answer (IsFoundIn «record».now unit))
        (range_with_len 0 (length «record».now.units)) found.items) }
{
    (0..record.geometry.units())
        .into_par_iter()
        .with_min_len(1)
        .map(
            |unit: u16| -> Result<Option<AuditFault>, NoMemory>
                requires { CanBeAudited «record».now (map (λ group. group.items) parts.now.items) unit }
                ensures { IfOk result (IsFoundIn «record».entry.now unit) }
            {
                let found = fault_of_parts(alloc, record, unit, &parts[unit as usize]);
                watcher.after_unit(unit);
                found
            },
        )
        .collect(rt, alloc)
}

/// What is first found wrong in the units, by their numbers, if anything is. The parts are grouped by unit in one pass, and
/// then a unit costs what its own entries and parts cost. Where memory was refused for a unit before, nothing is known.
fn first_in_units<W: Watcher + Sync>(
    rt: &(impl Threads + Sync),
    alloc: Global,
    record: &Record,
    watcher: &W,
) -> Result<Option<AuditFault>, NoMemory>
    requires { AllByRecursion (Passes «record».now)
        (count_checks (length «record».now.jobs) ++ shape_checks (length «record».now.jobs)) }
    ensures { IfOk result (λ found. MatchOption found (IsLawfulRecord «record».now) (IsFirstFault «record».now)) }
{
    no_check_fails_for_lawful_records();
    let units = usize::from(record.geometry.units());
    let parts = parts_by_unit(alloc, units, &record.done)?;
    let found = found_in_units(rt, alloc, record, &parts, watcher)?;
    for unit in 0..found.len() {
        match found[unit]? {
            Some(fault) => return Ok(Some(fault)),
            None => {}
        }
    }
    Ok(None)
}

/// What is first found wrong in the record, if anything is.
fn first_fault<W: Watcher + Sync>(
    rt: &(impl Threads + Sync),
    alloc: Global,
    record: &Record,
    watcher: &W,
) -> Result<Option<AuditFault>, NoMemory>
    ensures { IfOk result (λ found. MatchOption found (IsLawfulRecord «record».now) (IsFirstFault «record».now)) }
{
    match job_fault(alloc, record)? {
        Some(fault) => Ok(Some(fault)),
        None => first_in_units(rt, alloc, record, watcher),
    }
}

/// Whether the record is lawful: what there was in it, or the first fault.
///
/// It replays each unit's history once, the units in several threads, and judges each part at its point. All is linear in
/// the record; a unit that was never used costs a constant. After `NoMemory` nothing is known of the record.
pub fn audit(
    rt: &(impl Threads + Sync),
    alloc: Global,
    record: &Record,
) -> Result<Verdict, AuditFault>
    ensures lawful { IfOk result (λ _. IsLawfulRecord «record».now) }
    ensures numbers { IfOk result (IsVerdict «record».now) }
    ensures fault { IfErr result (λ fault. IsFirstFault «record».now fault ⊎ (fault ≡ NoMemoryFault)) }
    ensures accepted { IsLawfulRecord «record».now → IfErr result (λ fault. fault ≡ NoMemoryFault) }
    ensures named { (fault : Fault) → IsFirstFault «record».now fault
        → MatchResult result (λ _. ⊥) (λ answer. (answer ≡ fault) ⊎ (answer ≡ NoMemoryFault)) }
{
    audit_watched(rt, alloc, record, &Unwatched)
}

/// What [`audit`] answers. It reports to the watcher how far it is.
pub fn audit_watched<W: Watcher + Sync>(
    rt: &(impl Threads + Sync),
    alloc: Global,
    record: &Record,
    watcher: &W,
) -> Result<Verdict, AuditFault>
    ensures lawful { IfOk result (λ _. IsLawfulRecord «record».now) }
    ensures numbers { IfOk result (IsVerdict «record».now) }
    ensures fault { IfErr result (λ fault. IsFirstFault «record».now fault ⊎ (fault ≡ NoMemoryFault)) }
    ensures accepted { IsLawfulRecord «record».now → IfErr result (λ fault. fault ≡ NoMemoryFault) }
    ensures named { (fault : Fault) → IsFirstFault «record».now fault
        → MatchResult result (λ _. ⊥) (λ answer. (answer ≡ fault) ⊎ (answer ≡ NoMemoryFault)) }
{
    one_check_is_the_first_fault();
    watcher.before_units(record.geometry.units());
    match first_fault(rt, alloc, record, watcher)? {
        Some(fault) => Err(fault),
        None => Ok(verdict(record)),
    }
}
