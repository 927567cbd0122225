//! What a trace and a record have as the job of a number.

use nvm_audit::Record;
use nvm_listing::{push_body, push_done};
use nvm_record::NoMemory;
use nvm_trace::{Cut, Owner};
use nvm_trace_text::push_job as push_traced_job;
use std::fmt;
use std::fmt::{Display, Formatter};

/// What of a command a piece is, after a space, or nothing if it is all of it.
#[derive(Clone, Copy)]
struct CutText(Cut);

impl Display for CutText {
    fn fmt<W: fmt::Write>(&self, f: &mut Formatter<W>) -> fmt::Result {
        match self.0 {
            Cut::Whole => Ok(()),
            Cut::Block(block) => write!(f, " block {block} of"),
            Cut::InUnit(unit) => write!(f, " the part in unit {unit} of"),
        }
    }
}

/// Appends what a trace of these pieces has as the job of this number, if it has a piece there.
pub(crate) fn push_traced(
    text: &mut String,
    pieces: &[Owner<'_>],
    number: u32,
) -> Result<(), NoMemory> {
    match pieces.get(number as usize) {
        Some(owner) => {
            let cut = CutText(owner.cut);
            write!(text, "as job {number} the trace has{cut}: ")?;
            push_traced_job(text, owner.whole)
        }
        None => write!(
            text,
            "as job {number} the trace has nothing, so it is a preparation\n"
        ),
    }
}

/// Appends what a record has as the job of this number, and what was done of it.
pub(crate) fn push_recorded(
    text: &mut String,
    record: &Record,
    number: u32,
) -> Result<(), NoMemory> {
    let has = match record.jobs.get(number as usize) {
        Some(_) => "has:",
        None => "has nothing",
    };
    write!(text, "as job {number} the record {has}\n")?;
    push_job(text, record, number)
}

/// Appends the lines of a job's commands, and of what was done of the job, as a record's listing has them. Where memory is refused the
/// text has what it had, and maybe a front of the lines.
pub(crate) fn push_job(text: &mut String, run: &Record, number: u32) -> Result<(), NoMemory> {
    if let Some(job) = run.jobs.get(number as usize) {
        push_body(text, number as usize, job.host, &job.body)?;
    }
    for (worker, work) in run.done.iter().enumerate() {
        for done in work {
            if done.job == number {
                push_done(text, worker, done)?;
            }
        }
    }
    Ok(())
}
