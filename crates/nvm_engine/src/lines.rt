//! The lines of a job's commands.
ghost use Rattle.std.specs.Prelude.{◌≡◌, OnErr, OnOk};
ghost use Rattle.std.specs.Io.KnownBytes.{Appends};
ghost use Rattle.nvm_text.specs.Handed.{TakesFront};
ghost use Rattle.nvm_plan.specs.Completions.{completion, completions_of};
ghost use Rattle.nvm_plan.specs.Shape.{IsForEach};
ghost use Rattle.nvm_engine.specs.Lines.{after_body, body_lines, line_in};
ghost use Rattle.nvm_engine.specs.UnderLine.{after_next, lists_say, next_of};

use crate::form::Form;
use crate::under_line::{take_said, write_under};
use nvm_plan::{Body, Job};
use nvm_record::{Command, ReadData, Status, Statuses};
use nvm_text::write_line;
use std::io;
use std::io::Write;

/// Writes the lines of each command of a job that ended with these statuses and this data. In either form the list of the job's
/// host goes on after its commands.
pub(crate) fn write_job<W: Write>(
    writer: &mut W,
    form: Form,
    job: &Job,
    statuses: Statuses,
    payload: &Option<ReadData>,
    lists: &mut [&[u8]],
) -> io::Result<()>
    requires { IsForEach job.now.body statuses }
    ensures whole { OnOk result (Appends (W.contents writer.old) (W.contents writer.new)
        (body_lines form (lists_say lists.old) job.now.host job.now.body (completions_of job.now statuses payload.now))) }
    ensures front { OnErr result (TakesFront (W.contents writer.old) (W.contents writer.new)
        (body_lines form (lists_say lists.old) job.now.host job.now.body (completions_of job.now statuses payload.now))) }
    ensures left { OnOk result (lists_say lists.new ≡ after_body (lists_say lists.old) job.now.host job.now.body) }
{
    let host = job.host;
    match (&job.body, statuses) {
        (Body::Single(command), Statuses::One(status)) => {
            write_command(writer, form, host, command, status, payload, lists)
        }
        (Body::Pair(compare, write), Statuses::Two(first, second)) => {
            write_command(writer, form, host, compare, first, &None, lists)?;
            write_command(writer, form, host, write, second, &None, lists)
        }
        _ => unreachable!("each command has a status"),
    }
}

/// Writes the line of a host's next command, and what is under it in this form.
#[inline(always)]
fn write_command<W: Write>(
    writer: &mut W,
    form: Form,
    host: u16,
    command: &Command,
    status: Status,
    payload: &Option<ReadData>,
    lists: &mut [&[u8]],
) -> io::Result<()>
    ensures whole { OnOk result (Appends (W.contents writer.old) (W.contents writer.new)
        (line_in form command.now.op (completion host command.now status payload.now) (next_of (lists_say lists.old) host))) }
    ensures front { OnErr result (TakesFront (W.contents writer.old) (W.contents writer.new)
        (line_in form command.now.op (completion host command.now status payload.now) (next_of (lists_say lists.old) host))) }
    ensures left { lists_say lists.new ≡ after_next (lists_say lists.old) host }
{
    let said = take_said(lists, host);
    write_line(writer, command.op, host, command.cid, status, payload)?;
    write_under(writer, form, said, status)
}
