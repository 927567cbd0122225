ghost use Rattle.std.specs.Prelude.{◌≡◌, ℕ, ◌<◌, List, length, IfOk, MatchOption};
ghost use Rattle.nvm_record.specs.Lists.{IsAt};
ghost use Rattle.nvm_store.specs.HistoryEntry.{HistoryEntry};
ghost use Rattle.nvm_audit.specs.Inside.Audited.{view_of_shown, IsKnownUnit};
ghost use Rattle.nvm_audit.specs.LawfulRecord.{HaveShapes};
ghost use Rattle.nvm_audit.specs.Recordable.{IsRecordable};
ghost use Rattle.nvm_audit.specs.RecordedPart.{parts_in_unit};
ghost use Rattle.nvm_audit.specs.RecordView.{RecordView};
ghost use Rattle.nvm_audit.specs.UnitView.{view_of_unit};
ghost use Rattle.nvm_audit.specs.UnitChecks.{HasNoUnitFault, IsFirstUnitFault};

use crate::audit_fault::AuditFault;
use crate::by_point::by_point;
use crate::claims::claims;
use crate::done_part::DonePart;
use crate::gathering::parts_of_unit;
use crate::judging::Finding;
use crate::record::Record;
use crate::scanning::scan;
use crate::shown_unit::ShownUnit;
use crate::walking::walk;
use nvm_geometry::laws::each_unit_has_one_place;
use nvm_plan::laws::{parts_of_jobs, ready_jobs, shapes_by_plan};
use nvm_record::NoMemory;
use std::alloc::Global;

/// The first fault of what is shown of a unit, or none. A unit without entries and parts costs nothing.
pub(crate) fn fault_shown(
    alloc: Global,
    u: &ShownUnit<'_, '_>,
) -> Result<Option<AuditFault>, NoMemory>
    requires { IsKnownUnit (view_of_shown u.now) }
    ensures { IfOk result (λ found. MatchOption found (HasNoUnitFault (view_of_shown u.now))
        (IsFirstUnitFault (view_of_shown u.now))) }
{
    if u.history.is_empty() && u.parts.is_empty() {
        return Ok(None);
    }
    let claimed = claims(alloc, u.history, u.parts)?;
    let by_point = by_point(alloc, u.history.len(), u.parts)?;
    let mut findings = vec![in alloc; Finding::Right; u.parts.len()]?;
    match walk(alloc, u, &by_point, &claimed, &mut findings)? {
        Some(fault) => Ok(Some(fault)),
        None => Ok(scan(u, &findings)),
    }
}

/// The first fault of one unit of a record, in the order in which an audit looks, or none: its entries by place, then the
/// parts that name it, by worker and in the worker's order. It costs one pass over all that was done, and what the unit's own
/// entries and parts cost.
///
/// Each done job has to have the shape of an outcome, which an audit has looked at before. Where memory is refused nothing is
/// known of the unit.
pub fn unit_fault(alloc: Global, record: &Record, unit: u16) -> Result<Option<AuditFault>, NoMemory>
    requires there { unit < length «record».now.units }
    requires shapes { HaveShapes «record».now }
    ensures { IfOk result (λ found. (history : List HistoryEntry) → IsAt «record».now.units unit history → MatchOption found
        (HasNoUnitFault (view_of_unit «record».now unit history)) (IsFirstUnitFault (view_of_unit «record».now unit history))) }
{
    let parts = parts_of_unit(alloc, &record.done, unit)?;
    fault_of_parts(alloc, record, unit, &parts)
}

/// The first fault of one unit of a record which these parts name, or none.
pub(crate) fn fault_of_parts<'a>(
    alloc: Global,
    record: &'a Record,
    unit: u16,
    parts: &Vec<DonePart<'a>>,
) -> Result<Option<AuditFault>, NoMemory>
    requires there { unit < length «record».now.units }
    requires shapes { HaveShapes «record».now }
    requires parts { parts.now.items ≡ parts_in_unit unit «record».now.done }
    ensures { IfOk result (λ found. (history : List HistoryEntry) → IsAt «record».now.units unit history → MatchOption found
        (HasNoUnitFault (view_of_unit «record».now unit history)) (IsFirstUnitFault (view_of_unit «record».now unit history))) }
{
    known_units();
    let u = ShownUnit {
        geometry: &record.geometry,
        limit: record.limit,
        jobs: &record.jobs,
        unit,
        history: &record.units[unit as usize],
        parts,
    };
    fault_shown(alloc, &u)
}

/// What is known of each unit of a record whose done jobs have the shapes of outcomes.
fn known_units()
    ensures { (r : RecordView) (unit : ℕ) (history : List HistoryEntry) → IsRecordable r → HaveShapes r
        → IsAt r.units unit history → IsKnownUnit (view_of_unit r unit history) }
{
    parts_of_jobs();
    shapes_by_plan();
    ready_jobs();
    each_unit_has_one_place();
}
