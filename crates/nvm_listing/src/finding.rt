ghost use Rattle.std.specs.Prelude.{◌≡◌, IfOk};
ghost use Rattle.nvm_audit.specs.LawfulRecord.{IsLawfulRecord};
ghost use Rattle.nvm_audit.specs.NamedUnit.{names_unit};
ghost use Rattle.nvm_audit.specs.RecordChecks.{IsFirstFault};
ghost use Rattle.nvm_audit.specs.declared.audit_fault.AuditFault.{AuditFault as Fault};
ghost use Rattle.nvm_audit.specs.declared.verdict.Verdict.{Verdict as Numbers};
ghost use Rattle.nvm_listing.specs.AllFaults.{AreFaults, AreFaultsAfter, BeginWith, IsFirstOf};
ghost use Rattle.nvm_listing.specs.declared.faults.Faults.TheVariants.{Lawful};

use crate::faults::Faults;
use crate::named_units::named_units;
use crate::unit_faults::faults_of_units;
use nvm_audit::laws::{faults_of_units_come_after_shapes, one_check_is_the_first_fault};
use nvm_audit::{AuditFault, Record, Watcher, audit_watched};
use nvm_record::NoMemory;
use std::alloc::{AllocError, Global};
use std::thread::Threads;

/// All that is wrong in the record: the first fault of exactly the units that have one, in the order of the units, of which the first is
/// the one that an audit answers. Or that nothing is, and the verdict. Where what was done of a job is wrong by itself, its fault is the only one that is answered.
///
/// The record is audited once, in several threads, of which the watcher is told. If that finds a fault in a unit, this thread looks at each
/// unit that has entries or is named by a part: a pass over all that was done, and what the unit's own entries and parts cost.
/// `NoMemory` is answered where a growth was refused: nothing is known of the record then.
pub fn all_faults<W: Watcher + Sync>(
    rt: &(impl Threads + Sync),
    alloc: Global,
    record: &Record,
    watcher: &W,
) -> Result<Faults, NoMemory>
    ensures found { IfOk result (AreFaults «record».now) }
    ensures first { (first : Fault) → IsFirstFault «record».now first → IfOk result (BeginWith first) }
    ensures accepted { IsLawfulRecord «record».now → IfOk result (λ faults. (verdict : Numbers) × (faults ≡ Lawful verdict)) }
{
    one_check_is_the_first_fault();
    match audit_watched(rt, alloc, record, watcher) {
        Ok(verdict) => Ok(Faults::Lawful(verdict)),
        Err(AuditFault::NoMemory) => Err(AllocError),
        Err(first) => Ok(Faults::Unlawful(faults_after(alloc, record, first)?)),
    }
}

/// All faults of a record of which this is the first.
fn faults_after(
    alloc: Global,
    record: &Record,
    first: AuditFault,
) -> Result<Vec<AuditFault>, NoMemory>
    requires { IsFirstFault «record».now first }
    ensures all { IfOk result (λ faults. AreFaultsAfter (names_unit first) «record».now first faults.items) }
    ensures first { IfOk result (λ faults. IsFirstOf first faults.items) }
{
    faults_of_units_come_after_shapes();
    if !first.names_unit() {
        return Ok(vec![in alloc; first]?);
    }
    let units = usize::from(record.geometry.units());
    let named = named_units(alloc, units, &record.done)?;
    faults_of_units(alloc, record, &named)
}
