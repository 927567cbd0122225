//! What was done in an order, one point a line.
use crate::evidence::HeldOrder;
use crate::witnessing::witness_order;
use nvm_record::NoMemory;
use nvm_standard::{
    Content, FirstContent, Found, Placed, Point, Points, PointsFault, Put, Value, points_of,
};
use nvm_text::RunsText;
use nvm_trace::Trace;
use std::alloc::{AllocError, Global};
use std::fmt;
use std::fmt::{Display, Formatter};

/// What an order comes to against a trace, and what was done in it: a line for each block of which the order says what it held at first, and
/// one for each position. Where a reply of the trace is wrong by itself there are no such lines.
pub fn order_story(alloc: Global, trace: &Trace, held: &HeldOrder<'_>) -> Result<String, NoMemory> {
    let mut text = witness_order(alloc, trace, held)?.line(alloc)?;
    let points = match points_of(alloc, trace, held.profile) {
        Ok(points) => points,
        Err(PointsFault::Wrong { .. }) => return Ok(text),
        Err(PointsFault::NoMemory) => return Err(AllocError),
    };
    for first in &held.order.first {
        push_first(&mut text, *first)?;
    }
    for (position, placed) in held.order.placed.iter().enumerate() {
        push_placed(&mut text, &points, position, placed)?;
    }
    Ok(text)
}

/// What a block holds.
#[derive(Clone, Copy)]
struct ContentText<'a>(Content<'a>);

impl Display for ContentText<'_> {
    fn fmt<W: fmt::Write>(&self, f: &mut Formatter<W>) -> fmt::Result {
        match self.0 {
            Content::Zeroes => f.write_str("zeroes"),
            Content::Ones => f.write_str("ones"),
            Content::Bytes(bytes) => write!(f, "{}", RunsText(bytes)),
            Content::Mark => f.write_str("a mark"),
        }
    }
}

/// Appends what a block held at first.
fn push_first(text: &mut String, first: FirstContent<'_>) -> Result<(), NoMemory> {
    let FirstContent { block, content } = first;
    let content = ContentText(content);
    write!(text, "at first lba {block} {content}\n")
}

/// Appends what was done at this position. A point that the trace hasn't does nothing.
fn push_placed(
    text: &mut String,
    points: &Points<'_>,
    position: usize,
    placed: &Placed<'_>,
) -> Result<(), NoMemory> {
    let Placed {
        point: number,
        first,
        blocks,
        ..
    } = *placed;
    write!(
        text,
        "position {position} point {number} lba {first} blocks {blocks}"
    )?;
    if let Some(point) = points.points.get(number as usize) {
        let size = points.block_size.bytes() as usize;
        let part = Part {
            skipped: (first.saturating_sub(point.first) as usize).saturating_mul(size),
            count: (blocks as usize).saturating_mul(size),
        };
        push_point(text, point, part, placed.value)?;
    }
    text.push_str("\n")
}

/// The part of a point's data that is done at a position.
#[derive(Clone, Copy)]
struct Part {
    skipped: usize,
    count: usize,
}

impl Part {
    /// Its bytes. Those that the data hasn't are left out.
    fn of<'a>(self, payload: &'a [u8]) -> &'a [u8] {
        let from = self.skipped.min(payload.len());
        let to = self.skipped.saturating_add(self.count).min(payload.len());
        &payload[from..to]
    }
}

/// Appends whose point it is, what it finds, and what it puts.
fn push_point(
    text: &mut String,
    point: &Point<'_>,
    part: Part,
    value: Value<'_>,
) -> Result<(), NoMemory> {
    let job = point.command;
    write!(text, " job {job}")?;
    match point.found {
        Found::Nothing => {}
        Found::Bytes(bytes) => write!(text, " finds {}", RunsText(part.of(bytes)))?,
        Found::AnyBytes => text.push_str(" finds bytes")?,
        Found::OtherThan(bytes) => {
            write!(text, " finds other than {}", RunsText(part.of(bytes)))?;
        }
    }
    match point.put {
        Put::Nothing => Ok(()),
        Put::Bytes(bytes) => write!(text, " puts {}", RunsText(part.of(bytes))),
        Put::Zeroes => text.push_str(" puts zeroes"),
        Put::Mark => text.push_str(" puts a mark"),
        Put::Deallocated => push_value(text, "deallocates to", value),
        Put::Anything => push_value(text, "puts", value),
    }
}

/// Appends what the order says that is put.
fn push_value(text: &mut String, deed: &str, value: Value<'_>) -> Result<(), NoMemory> {
    match value {
        Value::AsIs => write!(text, " {deed} nothing"),
        Value::Put(content) => {
            let content = ContentText(content);
            write!(text, " {deed} {content}")
        }
    }
}
