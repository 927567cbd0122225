//! What is first wrong with what is recorded of a job, where it hasn't the shape of an outcome.
ghost use Rattle.std.specs.Prelude.{◌≡◌, None, Some};
ghost use Rattle.nvm_record.specs.Step.{Deed, Operation};
ghost use Rattle.nvm_plan.specs.Checks.{refusal_of};
ghost use Rattle.nvm_plan.specs.Kinds as kinds;
ghost use Rattle.nvm_plan.specs.Operation.{job_operation_of};
ghost use Rattle.nvm_plan.specs.Shape as shape;
ghost use Rattle.nvm_explain.specs.ShapeFault as spec;

use nvm_audit::DoneJob;
use nvm_geometry::Geometry;
use nvm_plan::laws::{parts_of_jobs, ready_jobs};
use nvm_plan::{Job, JobUnits, Kind, Part, PartResult, Plan, is_read, plan, ready_job_units};
use nvm_record::Statuses;

/// What is first wrong. `recorded` are the statuses that are recorded, and `due` is what is right in place of what is recorded.
#[derive(Clone, Copy)]
pub enum ShapeFault {
    /// A part is in a unit in which the job's next part isn't. That is in another, or there is none.
    UnitWrong {
        unit: u16,
        due: Option<u16>,
    },
    /// A part ended as none of the job can.
    ResultWrong {
        unit: u16,
        result: PartResult,
        kind: Kind,
    },
    /// A part after which there can be none has another after it.
    PartAfterEnd {
        unit: u16,
        result: PartResult,
    },
    /// The statuses aren't those of the check that refuses the job.
    StatusRefused {
        recorded: Statuses,
        due: Statuses,
    },
    /// The statuses aren't those of a job of which no part was done.
    StatusUnstarted {
        recorded: Statuses,
        due: Statuses,
    },
    /// The statuses aren't those of a job whose last part ended so.
    StatusAfter {
        recorded: Statuses,
        result: PartResult,
        due: Statuses,
    },
    /// The job succeeded, and has a part in a unit in which none is recorded.
    PartMissing {
        unit: u16,
    },
    /// The Read succeeded without data.
    DataMissing,
    /// There is data, and not of a Read that succeeded.
    DataGiven,
}

/// What is first wrong with what was done of the job, in the order of the conditions of an outcome's shape. `None` is answered where
/// it has that shape. It takes no memory.
pub(crate) fn shape_fault(geometry: &Geometry, job: &Job, done: &DoneJob) -> Option<ShapeFault>
    ensures { result ≡ spec.shape_fault geometry.now job.now done.now }
{
    ready_jobs();
    match plan(geometry, job) {
        Plan::Refused(refusal) => refused_fault(refusal, done),
        Plan::Ready => ready_fault(geometry, job, done),
    }
}

/// What is first wrong where a check refuses the job with these statuses.
fn refused_fault(refusal: Statuses, done: &DoneJob) -> Option<ShapeFault>
    ensures { result ≡ spec.refused_fault refusal done.now }
{
    if let Some(part) = done.parts.as_slice().first() {
        return Some(ShapeFault::UnitWrong {
            unit: part.unit,
            due: None,
        });
    }
    if done.statuses != refusal {
        return Some(ShapeFault::StatusRefused {
            recorded: done.statuses,
            due: refusal,
        });
    }
    match &done.payload {
        Some(_) => Some(ShapeFault::DataGiven),
        None => None,
    }
}

/// What is first wrong where no check refuses the job.
fn ready_fault(geometry: &Geometry, job: &Job, done: &DoneJob) -> Option<ShapeFault>
    requires { refusal_of geometry.now job.now ≡ None }
    ensures { (op : Operation) → job_operation_of geometry.now job.now ≡ Some op
        → result ≡ spec.ready_fault geometry.now done.now op }
{
    parts_of_jobs();
    let kind = Kind::of(&job.body);
    let mut units = ready_job_units(geometry, job);
    if let Some(fault) = ending_fault(kind, &mut units, done.parts.as_slice(), done.statuses) {
        return Some(fault);
    }
    let has_data = is_read(&job.body) && done.statuses.is_success();
    match (&done.payload, has_data) {
        (None, true) => Some(ShapeFault::DataMissing),
        (Some(_), false) => Some(ShapeFault::DataGiven),
        _ => None,
    }
}

/// What is first wrong with how a job ended that has a part in each of these units.
fn ending_fault(
    kind: Kind,
    units: &mut JobUnits<'_>,
    parts: &[Part],
    recorded: Statuses,
) -> Option<ShapeFault>
    ensures { (deed : Deed) → kinds.kind_of deed ≡ kind → result ≡ spec.ending_fault deed units.old parts.now recorded }
{
    if parts.is_empty() {
        unstarted_fault(kind, units, recorded)
    } else {
        parts_fault(kind, units, parts, recorded)
    }
}

/// Whether the statuses are other ones than are due where no part was done.
fn unstarted_fault(kind: Kind, units: &mut JobUnits<'_>, recorded: Statuses) -> Option<ShapeFault>
    ensures { (deed : Deed) → kinds.kind_of deed ≡ kind → result ≡ spec.unstarted_fault deed units.old recorded }
{
    let due = match units.next() {
        Some(_) => kind.unstarted(),
        None => kind.success(),
    };
    if recorded == due {
        None
    } else {
        Some(ShapeFault::StatusUnstarted { recorded, due })
    }
}

/// What is first wrong with the parts, and with the statuses after them.
fn parts_fault(
    kind: Kind,
    units: &mut JobUnits<'_>,
    parts: &[Part],
    recorded: Statuses,
) -> Option<ShapeFault>
    ensures { (deed : Deed) → kinds.kind_of deed ≡ kind → result ≡ spec.parts_fault deed units.old parts.now recorded }
{
    if let Some(fault) = unit_fault(units, parts) {
        return Some(fault);
    }
    if let Some(fault) = result_fault(kind, parts) {
        return Some(fault);
    }
    if let Some(fault) = end_fault(kind.success(), kind.stop(), recorded, parts) {
        return Some(fault);
    }
    match units.next() {
        Some(unit) if recorded.is_success() => Some(ShapeFault::PartMissing { unit }),
        _ => None,
    }
}

/// The first of the parts that isn't in the next of these units. Where there is none, those units are left that come after the parts.
fn unit_fault(units: &mut JobUnits<'_>, parts: &[Part]) -> Option<ShapeFault>
    ensures is { result ≡ spec.unit_fault parts.now units.old }
    ensures left { result ≡ None → units.new ≡ spec.units_left parts.now units.old }
{
    for part in parts {
        let due = units.next();
        if due != Some(part.unit) {
            return Some(ShapeFault::UnitWrong {
                unit: part.unit,
                due,
            });
        }
    }
    None
}

/// The first of the parts that ended as none of the kind can.
fn result_fault(kind: Kind, parts: &[Part]) -> Option<ShapeFault>
    ensures { (deed : Deed) → kinds.kind_of deed ≡ kind → result ≡ spec.result_fault deed parts.now }
{
    for part in parts {
        if !kind.can_have(part.result) {
            return Some(ShapeFault::ResultWrong {
                unit: part.unit,
                result: part.result,
                kind,
            });
        }
    }
    None
}

/// The first of the parts after which none can be, where one is, or whether the statuses are other ones than the last part decides.
fn end_fault(
    success: Statuses,
    stop: Statuses,
    recorded: Statuses,
    parts: &[Part],
) -> Option<ShapeFault>
    ensures { result ≡ spec.end_fault success stop recorded parts.now }
{
    for (place, part) in parts.iter().enumerate() {
        if place + 1 == parts.len() {
            return status_after(success, stop, recorded, part.result);
        }
        if !goes_on(part.result) {
            return Some(ShapeFault::PartAfterEnd {
                unit: part.unit,
                result: part.result,
            });
        }
    }
    None
}

/// Whether a part that ended so may have others after it.
fn goes_on(ended: PartResult) -> bool
    ensures { result ≡ shape.goes_on ended }
{
    matches!(ended, PartResult::Done | PartResult::Looked)
}

/// Whether the statuses are other ones than are due where the last part ended so.
fn status_after(
    success: Statuses,
    stop: Statuses,
    recorded: Statuses,
    ended: PartResult,
) -> Option<ShapeFault>
    ensures { result ≡ spec.status_after success stop recorded ended }
{
    let due = match ended {
        PartResult::Done => success,
        PartResult::NoMemory | PartResult::Full => stop,
        PartResult::Failed | PartResult::Looked => return None,
    };
    if recorded == due {
        None
    } else {
        Some(ShapeFault::StatusAfter {
            recorded,
            result: ended,
            due,
        })
    }
}
