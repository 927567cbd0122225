//! Values of JSON (RFC 8259) that objects of several kinds have. No string in them has a quote, a backslash or a control character, so
//! none is escaped.

use nvm_list::CommandText;
use nvm_plan::Body;
use nvm_record::{Command, ReadData, Statuses};
use nvm_text::{RunsText, StatusText};
use std::fmt;
use std::fmt::{Display, Formatter};

/// The commands that were sent, as objects with a comma between a pair's two: each has its command identifier, and its words as in a
/// command list.
#[derive(Clone, Copy)]
pub struct SentObjects<'a>(pub &'a Body);

impl Display for SentObjects<'_> {
    fn fmt<W: fmt::Write>(&self, f: &mut Formatter<W>) -> fmt::Result {
        match self.0 {
            Body::Single(command) => write!(f, "{}", SentObject(command)),
            Body::Pair(first, second) => {
                write!(f, "{},{}", SentObject(first), SentObject(second))
            }
        }
    }
}

/// A command's identifier, and its words.
#[derive(Clone, Copy)]
struct SentObject<'a>(&'a Command);

impl Display for SentObject<'_> {
    fn fmt<W: fmt::Write>(&self, f: &mut Formatter<W>) -> fmt::Result {
        let command = self.0;
        let cid = command.cid;
        let words = words_of(command);
        write!(f, "{{\"cid\":{cid},\"command\":\"{words}\"}}")
    }
}

/// The words of a command, as in a command list.
pub(crate) fn words_of(command: &Command) -> CommandText<'_> {
    let place = u64::from(command.cid);
    CommandText { place, command }
}

/// The status of each command as a string, with a comma between a pair's two.
#[derive(Clone, Copy)]
pub struct StatusStrings(pub Statuses);

impl Display for StatusStrings {
    fn fmt<W: fmt::Write>(&self, f: &mut Formatter<W>) -> fmt::Result {
        match self.0 {
            Statuses::One(status) => write!(f, "\"{}\"", StatusText(status)),
            Statuses::Two(first, second) => {
                write!(f, "\"{}\",\"{}\"", StatusText(first), StatusText(second))
            }
        }
    }
}

/// The data of a Read as a string, in the longest runs of equal bytes, or `null` where there is none.
#[derive(Clone, Copy)]
pub struct DataValue<'a>(pub Option<&'a ReadData>);

impl Display for DataValue<'_> {
    fn fmt<W: fmt::Write>(&self, f: &mut Formatter<W>) -> fmt::Result {
        match self.0 {
            Some(read) => write!(f, "\"{}\"", RunsText(read.as_slice())),
            None => f.write_str("null"),
        }
    }
}
