//! A job as its line shows it.
ghost use Rattle.std.specs.Prelude.{◌≡◌, Some};
ghost use Rattle.nvm_text.specs.Lines.{payload_text};
ghost use Rattle.nvm_trace_text.specs.Listing as spec;

use nvm_list::CommandText;
use nvm_plan::Body;
use nvm_record::{Command, ReadData};
use nvm_text::{RunsText, StatusesText};
use nvm_trace::Ending;
use std::fmt;
use std::fmt::{Display, Formatter};

/// When a job ended, if it did.
pub fn time_of(ended: &Option<Ending>) -> Option<u64>
    ensures { result ≡ spec.time_of ended.now }
{
    match ended {
        Some(ending) => Some(ending.time),
        None => None,
    }
}

/// A time, or `-` for none.
#[derive(Clone, Copy)]
pub struct TimeText(pub Option<u64>);

impl Display for TimeText {
    ghost output = { λ text. Some (spec.time_text text.0) };

    fn fmt<W: fmt::Write>(&self, f: &mut Formatter<W>) -> fmt::Result {
        match self.0 {
            Some(time) => write!(f, "{time}"),
            None => f.write_str("-"),
        }
    }
}

/// A command, or two with ` + ` between them, each behind its identifier.
#[derive(Clone, Copy)]
pub(crate) struct BodyText<'a>(pub(crate) &'a Body);

impl Display for BodyText<'_> {
    ghost output = { λ text. Some (spec.body_text text.0.now) };

    fn fmt<W: fmt::Write>(&self, f: &mut Formatter<W>) -> fmt::Result {
        match self.0 {
            Body::Single(command) => write!(f, "{}", SentText(command)),
            Body::Pair(first, second) => { write!(f, "{} + {}", SentText(first), SentText(second)) }
        }
    }
}

/// A command behind its identifier.
#[derive(Clone, Copy)]
struct SentText<'a>(&'a Command);

impl Display for SentText<'_> {
    ghost output = { λ text. Some (spec.sent_text text.0.now) };

    fn fmt<W: fmt::Write>(&self, f: &mut Formatter<W>) -> fmt::Result {
        let command = self.0;
        let cid = command.cid;
        let place = u64::from(cid);
        write!(f, "{cid} {}", CommandText { place, command })
    }
}

/// ` = ` and what came back, or nothing if it never ended.
#[derive(Clone, Copy)]
pub(crate) struct ReplyText<'a>(pub(crate) &'a Option<Ending>);

impl Display for ReplyText<'_> {
    ghost output = { λ text. Some (spec.reply_text text.0.now) };

    fn fmt<W: fmt::Write>(&self, f: &mut Formatter<W>) -> fmt::Result {
        match self.0 {
            Some(ending) => {
                let statuses = StatusesText(ending.statuses);
                write!(f, " = {statuses}{}", DataText(&ending.payload))
            }
            None => Ok(()),
        }
    }
}

/// A space and the data of a Read as runs, or nothing.
#[derive(Clone, Copy)]
pub struct DataText<'a>(pub &'a Option<ReadData>);

impl Display for DataText<'_> {
    ghost output = { λ text. Some (payload_text text.0.now) };

    fn fmt<W: fmt::Write>(&self, f: &mut Formatter<W>) -> fmt::Result {
        match self.0 {
            Some(bytes) => write!(f, " {}", RunsText(bytes.as_slice())),
            None => Ok(()),
        }
    }
}
