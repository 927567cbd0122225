//! What a fact says, and by which rule, and what the facts come to.
use crate::point_name::name_of;
use crate::precedence::{PointOrder, order_of};
use nvm_record::NoMemory;
use nvm_standard::{Conclusion, Fact, Points};
use nvm_trace::Start;
use nvm_trace_text::TimeText;
use std::fmt;
use std::fmt::{Display, Formatter};

/// Appends what the fact says, without a line feed: which point comes before which, and why.
pub(crate) fn push_fact(
    text: &mut String,
    points: &Points<'_>,
    fact: Fact,
) -> Result<(), NoMemory> {
    match fact {
        Fact::Own { later, block } => {
            let compare = name_of(points, later.saturating_sub(1));
            write!(text, "{compare} comes before its Write in LBA {block}")
        }
        Fact::AtFirst { reader, block } => {
            let reader = name_of(points, reader);
            write!(
                text,
                "{reader} found in LBA {block} what was there at first: nobody else can have left that"
            )
        }
        _ => {
            if let Some(order) = order_of(fact) {
                push_order(text, points, order)?;
            }
            push_reason(text, points, fact)
        }
    }
}

/// Appends which point comes before which, and in which block, if one is named.
fn push_order(text: &mut String, points: &Points<'_>, order: PointOrder) -> Result<(), NoMemory> {
    let before = name_of(points, order.before);
    let after = name_of(points, order.after);
    match order.lba {
        Some(lba) => write!(text, "{before} comes before {after} in LBA {lba}: "),
        None => write!(text, "{before} comes before {after}: "),
    }
}

/// Appends by which rule a point comes before another.
fn push_reason(text: &mut String, points: &Points<'_>, fact: Fact) -> Result<(), NoMemory> {
    match fact {
        Fact::Time { earlier, later } => {
            let ended = TimeText(until_of(points, earlier.point));
            let began = TimeText(from_of(points, later.point));
            let later = name_of(points, later.point);
            write!(
                text,
                "it had ended at {ended}, and {later} began at {began}"
            )
        }
        Fact::Deallocate {
            deallocate,
            writer,
            ..
        } => {
            let ended = TimeText(over_of(points, deallocate));
            let began = TimeText(from_of(points, writer));
            let writer = name_of(points, writer);
            write!(
                text,
                "a Deallocate that had ended at {ended} isn't done after a later write, and {writer} began at {began}"
            )
        }
        Fact::Source { writer, reader, .. } => {
            let writer = name_of(points, writer);
            let reader = name_of(points, reader);
            write!(text, "only {writer} can have put what {reader} found there")
        }
        Fact::Over {
            reader,
            writer,
            source,
            ..
        } => {
            let reader = name_of(points, reader);
            let writer = name_of(points, writer);
            let source = name_of(points, source);
            write!(
                text,
                "{writer} put something there after {source}, whose data {reader} found"
            )
        }
        Fact::Under {
            writer,
            source,
            reader,
            ..
        } => {
            let writer = name_of(points, writer);
            let source = name_of(points, source);
            let reader = name_of(points, reader);
            write!(
                text,
                "{writer} put something there, comes before {reader}, and {reader} found {source}'s data"
            )
        }
        Fact::First { reader, block, .. } => push_first(text, points, reader, block),
        Fact::TiedBefore { entry, by, .. } | Fact::TiedAfter { entry, by, .. } => {
            let entry = name_of(points, entry);
            write!(
                text,
                "it does in LBA {by}, and {entry} put both at one moment"
            )
        }
        Fact::Own { .. } | Fact::AtFirst { .. } => Ok(()),
    }
}

/// Appends that the reader found what was in the block at first.
fn push_first(
    text: &mut String,
    points: &Points<'_>,
    reader: u32,
    block: u32,
) -> Result<(), NoMemory> {
    let reader = name_of(points, reader);
    match points.start {
        Start::Zeroes => write!(
            text,
            "{reader} found the zeroes there that were in LBA {block} at first, and nobody can have left zeroes there"
        ),
        Start::Unknown => write!(
            text,
            "{reader} found what was there at first, and nobody else can have left that"
        ),
    }
}

/// When the point of this number was over.
fn until_of(points: &Points<'_>, number: u32) -> Option<u64> {
    points.points.get(number as usize)?.until
}

/// When the point of this number began.
fn from_of(points: &Points<'_>, number: u32) -> Option<u64> {
    Some(points.points.get(number as usize)?.from)
}

/// When the Deallocate whose point has this number was over.
fn over_of(points: &Points<'_>, number: u32) -> Option<u64> {
    points.points.get(number as usize)?.over
}

/// The number of the point that would come before itself by these facts: the one that the last of them that says an order puts before another.
pub(crate) fn itself_of(facts: &[Fact]) -> Option<u32> {
    let mut itself = None;
    for fact in facts {
        if let Some(order) = order_of(*fact) {
            itself = Some(order.before);
        }
    }
    itself
}

/// Appends what the facts come to, without a line feed.
pub(crate) fn push_conclusion(
    text: &mut String,
    points: &Points<'_>,
    facts: &[Fact],
    conclusion: Conclusion,
) -> Result<(), NoMemory> {
    match conclusion {
        Conclusion::Loop => match itself_of(facts) {
            Some(number) => {
                let name = name_of(points, number);
                write!(text, "so {name} comes before itself")
            }
            None => text.push_str("so a job comes before itself"),
        },
        Conclusion::Nobody { reader, block } => {
            let reader = name_of(points, reader);
            write!(
                text,
                "{reader} found in LBA {block} what nobody can have left there"
            )
        }
        Conclusion::Nowhere { reader } => {
            let reader = name_of(points, reader);
            write!(
                text,
                "{reader} failed to compare, and found in none of its blocks anything but what it compared"
            )
        }
    }
}
