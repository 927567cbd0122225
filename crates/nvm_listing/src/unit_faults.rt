//! What is wrong in the units.
ghost use Rattle.std.specs.Prelude.{◌≡◌, ◌<◌, [], IfOk, false, length};
ghost use Rattle.nvm_audit.specs.LawfulRecord.{HaveShapes};
ghost use Rattle.nvm_audit.specs.RecordedPart.{parts_in_unit};
ghost use Rattle.nvm_listing.specs.AllFaults.{AreFaultsOfUnits, IsFoundInUnit};
ghost use Rattle.nvm_listing.specs.Inside.Named.{named_units};

use nvm_audit::{AuditFault, Record, unit_fault};
use nvm_record::NoMemory;
use std::alloc::Global;

/// The first fault of each unit that has one, in the order of the units, where it is known which units parts name.
pub(crate) fn faults_of_units(
    alloc: Global,
    record: &Record,
    named: &[bool],
) -> Result<Vec<AuditFault>, NoMemory>
    requires shapes { HaveShapes «record».now }
    requires named { named.now ≡ named_units (length «record».now.units) «record».now.done }
    ensures { IfOk result (λ faults. AreFaultsOfUnits «record».now 0 «record».now.units faults.items) }
{
    let mut faults = Vec::new(alloc);
    for unit in 0..record.geometry.units() {
        match fault_of_unit(alloc, record, unit, named[unit as usize])? {
            Some(fault) => faults.push(fault)?,
            None => {}
        }
    }
    Ok(faults)
}

/// The first fault of the unit, if it has one. Nothing is wrong in one without entries that no part names.
fn fault_of_unit(
    alloc: Global,
    record: &Record,
    unit: u16,
    is_named: bool,
) -> Result<Option<AuditFault>, NoMemory>
    requires there { unit < length «record».now.units }
    requires shapes { HaveShapes «record».now }
    requires named { is_named ≡ false → parts_in_unit unit «record».now.done ≡ [] }
    ensures { IfOk result (IsFoundInUnit «record».now unit) }
{
    if !is_named && record.units[unit as usize].is_empty() {
        return Ok(None);
    }
    unit_fault(alloc, record, unit)
}
