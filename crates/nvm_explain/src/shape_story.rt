use crate::doing::done_of;
use crate::looked_up::job_of;
use crate::shape_fault::{ShapeFault, shape_fault};
use nvm_audit::Record;
use nvm_geometry::Geometry;
use nvm_listing::result_word;
use nvm_plan::{Job, Kind, Plan, plan, ready_job_units};
use nvm_record::NoMemory;
use nvm_text::StatusesText;

/// Appends with which statuses a check refuses the job, or in which units it has a part, and what is first wrong with what was done
/// of it.
pub(crate) fn push_shape(text: &mut String, run: &Record, number: u32) -> Result<(), NoMemory> {
    let Some(job) = job_of(run, number) else {
        return Ok(());
    };
    push_plan(text, &run.geometry, job)?;
    let Some(done) = done_of(&run.done, number) else {
        return Ok(());
    };
    match shape_fault(&run.geometry, job, done) {
        Some(fault) => push_fault(text, fault),
        None => Ok(()),
    }
}

/// Appends with which statuses a check refuses the job, or in which units it has a part.
fn push_plan(text: &mut String, geometry: &Geometry, job: &Job) -> Result<(), NoMemory> {
    match plan(geometry, job) {
        Plan::Refused(statuses) => {
            let statuses = StatusesText(statuses);
            write!(text, "a check refuses the job: status {statuses}\n")
        }
        Plan::Ready => {
            text.push_str("no check refuses the job, which has a part in each of the units:")?;
            for unit in ready_job_units(geometry, job) {
                write!(text, " {unit}")?;
            }
            text.push_str("\n")
        }
    }
}

/// Appends what is wrong, and what is due.
fn push_fault(text: &mut String, fault: ShapeFault) -> Result<(), NoMemory> {
    match fault {
        ShapeFault::UnitWrong {
            unit,
            due: Some(due),
        } => write!(
            text,
            "a part is recorded in unit {unit}, where one in unit {due} is due\n"
        ),
        ShapeFault::UnitWrong { unit, due: None } => write!(
            text,
            "a part is recorded in unit {unit}, where none is due\n"
        ),
        ShapeFault::ResultWrong { unit, result, kind } => {
            let ended = result_word(result);
            let ends = ends_of(kind);
            write!(
                text,
                "the part in unit {unit} is recorded as {ended}, where it can be: {ends}\n"
            )
        }
        ShapeFault::PartAfterEnd { unit, result } => {
            let ended = result_word(result);
            write!(
                text,
                "the part in unit {unit} ended the job as {ended}, and another is recorded after it\n"
            )
        }
        ShapeFault::StatusRefused { recorded, due } => {
            let recorded = StatusesText(recorded);
            let due = StatusesText(due);
            write!(text, "status {recorded} is recorded, where {due} is due\n")
        }
        ShapeFault::StatusUnstarted { recorded, due } => {
            let recorded = StatusesText(recorded);
            let due = StatusesText(due);
            write!(
                text,
                "status {recorded} is recorded, where {due} is due: no part is recorded\n"
            )
        }
        ShapeFault::StatusAfter {
            recorded,
            result,
            due,
        } => {
            let recorded = StatusesText(recorded);
            let due = StatusesText(due);
            let ended = result_word(result);
            write!(
                text,
                "status {recorded} is recorded, where {due} is due: the last part is recorded as {ended}\n"
            )
        }
        ShapeFault::PartMissing { unit } => write!(
            text,
            "no part is recorded in unit {unit}, and each part before it succeeded\n"
        ),
        ShapeFault::DataMissing => write!(
            text,
            "no data is recorded, where that of the Read is due\n"
        ),
        ShapeFault::DataGiven => write!(text, "data is recorded, where none is due\n"),
    }
}

/// The words for how a part of this kind can end.
fn ends_of(kind: Kind) -> &'static str {
    match kind {
        Kind::Act => "done no-memory full",
        Kind::Pair => "done failed no-memory full",
        Kind::Look => "looked no-memory",
    }
}
