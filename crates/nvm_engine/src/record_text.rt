//! What is printed of a record.
ghost use Rattle.std.specs.Prelude.{ℕ, List, OnErr, OnOk};
ghost use Rattle.std.specs.Io.KnownBytes.{Appends};
ghost use Rattle.nvm_text.specs.Handed.{TakesFront};
ghost use Rattle.nvm_audit.specs.Verdict.{IsVerdict};
ghost use Rattle.nvm_audit.specs.DonePlaces.{AreDonePlaces};
ghost use Rattle.nvm_engine.specs.Printed.{IsPrintedIn};
ghost use Rattle.nvm_engine.specs.RecordLines.{AreLinesOf};
ghost use Rattle.nvm_engine.specs.UnderLine.{lists_say};

use crate::form::Form;
use crate::lines::write_job;
use crate::verdict_line::write_lawful;
use nvm_audit::{DoneJobs, Record, Verdict};
use std::io;
use std::io::Write;

/// Writes the lines of a record's commands and, after them, the line of its verdict. `found` has the done job of each job.
pub(crate) fn write_record_text<W: Write>(
    writer: &mut W,
    form: Form,
    run: &Record,
    found: &DoneJobs,
    lists: &mut [&[u8]],
    verdict: Verdict,
) -> io::Result<()>
    requires found { AreDonePlaces run.now found.now }
    requires counted { IsVerdict run.now verdict }
    ensures whole { OnOk result ((text : List ℕ) × IsPrintedIn form (lists_say lists.old) run.now text
        × Appends (W.contents writer.old) (W.contents writer.new) text) }
    ensures front { OnErr result ((text : List ℕ) × IsPrintedIn form (lists_say lists.old) run.now text
        × TakesFront (W.contents writer.old) (W.contents writer.new) text) }
{
    write_lines(writer, form, run, found, lists)?;
    write_lawful(writer, verdict)
}

/// Writes the lines of a record's commands, in the order of the jobs, each by the job's done job in `found`.
fn write_lines<W: Write>(
    writer: &mut W,
    form: Form,
    run: &Record,
    found: &DoneJobs,
    lists: &mut [&[u8]],
) -> io::Result<()>
    requires { AreDonePlaces run.now found.now }
    ensures whole { OnOk result ((text : List ℕ) × AreLinesOf form (lists_say lists.old) run.now text
        × Appends (W.contents writer.old) (W.contents writer.new) text) }
    ensures front { OnErr result ((text : List ℕ) × AreLinesOf form (lists_say lists.old) run.now text
        × TakesFront (W.contents writer.old) (W.contents writer.new) text) }
{
    let jobs = run.jobs.as_slice();
    for (number, job) in jobs.iter().enumerate() {
        let its = found.job(run, number);
        write_job(writer, form, job, its.statuses, &its.payload, lists)?;
    }
    Ok(())
}
