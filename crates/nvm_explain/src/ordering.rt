//! Two steps of a unit that stand in the wrong order.
ghost use Rattle.std.specs.Prelude.{◌≡◌};
ghost use Rattle.nvm_explain.specs.Ordering as spec;

use crate::jobs::push_traced;
use nvm_audit::Spot;
use nvm_record::NoMemory;
use nvm_trace::{Owner, Step};
use std::fmt;
use std::fmt::{Display, Formatter};

/// The first step of this job at this spot that comes too late, and the first step before it in its unit whose command began only when
/// its own had ended.
pub(crate) fn late_pair(steps: &[Step], job: u32, spot: Spot) -> Option<(Step, Step)>
    ensures { result ≡ spec.late_pair steps.now job spot }
{
    for late in steps {
        if is_at(*late, job, spot) {
            match step_against(steps, *late) {
                Some(earlier) => return Some((*late, earlier)),
                None => {}
            }
        }
    }
    None
}

/// Appends a late step, one before it, and why the two are in the wrong order.
pub(crate) fn push_late(
    text: &mut String,
    pieces: &[Owner<'_>],
    late: Step,
    earlier: Step,
) -> Result<(), NoMemory> {
    push_step(text, pieces, late)?;
    push_step(text, pieces, earlier)?;
    let (job, began) = (earlier.job, earlier.began);
    let (other, unit, ended) = (late.job, late.unit, TimeText(late.ended));
    write!(
        text,
        "job {job} began at {began}, after job {other} had ended at {ended}, and stands before it in unit {unit}\n"
    )
}

/// Appends what the trace has as the step's job, and the line of the step.
fn push_step(text: &mut String, pieces: &[Owner<'_>], step: Step) -> Result<(), NoMemory> {
    let Step {
        job,
        unit,
        point,
        made,
        began,
        ended,
    } = step;
    push_traced(text, pieces, job)?;
    let entry = if made { "entry" } else { "no-entry" };
    let ended = TimeText(ended);
    write!(
        text,
        "job {job} unit {unit} point {point} {entry} began {began} ended {ended}\n"
    )
}

/// A time, or `-` for none.
#[derive(Clone, Copy)]
struct TimeText(Option<u64>);

impl Display for TimeText {
    fn fmt<W: fmt::Write>(&self, f: &mut Formatter<W>) -> fmt::Result {
        match self.0 {
            Some(time) => write!(f, "{time}"),
            None => f.write_str("-"),
        }
    }
}

/// Whether the step is of this job and at this spot.
fn is_at(step: Step, job: u32, spot: Spot) -> bool
    ensures { result ≡ spec.is_at job spot step }
{
    step.job == job && step.unit == spot.unit && step.point == spot.place
}

/// The first step that stands before this one in its unit and began only when it had ended, if there is one.
fn step_against(steps: &[Step], late: Step) -> Option<Step>
    ensures { result ≡ spec.step_against late steps.now }
{
    for step in steps {
        if is_against(*step, late) {
            return Some(*step);
        }
    }
    None
}

/// Whether the step stands before the late one in its unit and began only when it had ended.
fn is_against(step: Step, late: Step) -> bool
    ensures { result ≡ spec.is_against late step }
{
    step.unit == late.unit && step.level() < late.level() && had_ended(late.ended, step.began)
}

/// Whether what ended then, if it ever did, had ended before this time.
fn had_ended(ended: Option<u64>, time: u64) -> bool
    ensures { result ≡ spec.had_ended ended time }
{
    match ended {
        Some(ended) => ended < time,
        None => false,
    }
}
