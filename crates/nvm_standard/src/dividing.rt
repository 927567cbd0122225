//! What divides a reader from what was in its block before: a point in between that put other data there, or found other data.
ghost use Rattle.std.specs.Prelude.{◌≡◌, ◌≤◌, ℕ, IsTrue, length};
ghost use Rattle.nvm_standard.specs.PointView.{seen, seen_table};
ghost use Rattle.nvm_standard.specs.Inside.Noted.{noted};
ghost use Rattle.nvm_standard.specs.Readings.{Divides, DividesBefore, FindsOther, FoundOther, HasBetween};

use crate::bytes::bytes_at;
use crate::known::{Known, is_there};
use crate::node::{Node, has_block, node_at, point_at};
use crate::order::Content;
use crate::point::{Found, Point};
use crate::points::Points;
use crate::serving::{may_find_there, surely_puts};
use crate::times::{comes_before, is_sure_writer, is_time};

/// Whether the other reader found bytes in the block that this one, which has it, can't find there.
pub(crate) fn finds_other(
    points: &Points<'_>,
    reading: &Point<'_>,
    block: u32,
    other: &Point<'_>,
) -> bool
    requires { reading.now.first ≤ block }
    ensures { IsTrue result → FindsOther (seen_table points.now) (seen reading.now) block (seen other.now) }
{
    match other.found {
        Found::Bytes(payload) => {
            let place = block.saturating_sub(other.first);
            let bytes = bytes_at(points.block_size.bytes(), payload, place);
            !may_find_there(points, reading, block, Content::Bytes(bytes))
        }
        _ => false,
    }
}

/// Whether the point of this number is there and found bytes in the block that the reader, which has it, can't find there.
fn found_other(
    points: &Points<'_>,
    known: &Known,
    reading: &Point<'_>,
    number: u32,
    block: u32,
) -> bool
    requires { reading.now.first ≤ block }
    ensures { IsTrue result → FoundOther (seen_table points.now) (noted (seen_table points.now) known.now) (seen reading.now) number block }
{
    match point_at(points, number) {
        Some(other) => {
            has_block(other, block)
                && finds_other(points, reading, block, other)
                && is_there(points, &known.there, node_at(points, number, block))
        }
        None => false,
    }
}

/// Whether what the reader, which has the block, found there wasn't there before the point of this number, or not after it.
fn divides(points: &Points<'_>, known: &Known, reading: &Point<'_>, number: u32, block: u32) -> bool
    requires { reading.now.first ≤ block }
    ensures { IsTrue result → Divides (seen_table points.now) (noted (seen_table points.now) known.now) (seen reading.now) number block }
{
    surely_puts(points, known, number, block) || found_other(points, known, reading, number, block)
}

/// Whether that point comes before the reader.
fn divides_before(
    points: &Points<'_>,
    known: &Known,
    reading: &Point<'_>,
    number: u32,
    reader: Node,
) -> bool
    requires { reading.now.first ≤ reader.block }
    ensures { IsTrue result → DividesBefore (seen_table points.now) (noted (seen_table points.now) known.now) (seen reading.now)
        reader.point reader.block number }
{
    comes_before(points, known, number, reader.point, reader.block)
        && divides(points, known, reading, number, reader.block)
}

/// Whether it comes after the earlier one, too.
fn divides_between(
    points: &Points<'_>,
    known: &Known,
    reading: &Point<'_>,
    number: u32,
    earlier: u32,
    reader: Node,
) -> bool
    requires { reading.now.first ≤ reader.block }
    ensures { IsTrue result → HasBetween (seen_table points.now) (noted (seen_table points.now) known.now) (seen reading.now)
        earlier reader.point reader.block }
{
    comes_before(points, known, earlier, number, reader.block)
        && divides_before(points, known, reading, number, reader)
}

/// Whether the point of this number begins later than the other, if there is another.
fn begins_later(points: &Points<'_>, number: u32, other: Option<u32>) -> bool {
    let Some(other) = other else {
        return true;
    };
    match point_at(points, number) {
        Some(point) => match point_at(points, other) {
            Some(before) => point.from > before.from,
            None => false,
        },
        None => false,
    }
}

/// How many points can be named.
pub(crate) fn many(points: &Points<'_>) -> u32
    ensures { length points.now.points.items ≤ 0xffff_ffff → result ≡ length points.now.points.items }
{
    points.points.len().min(0xffff_ffff) as u32
}

/// What divides a reader from what was before by times alone.
#[derive(Clone, Copy)]
pub(crate) struct Last {
    /// Of those that were over before the reader began the one that began last.
    pub(crate) any: Option<u32>,
    /// The same of those that are sure, and put the block.
    pub(crate) sure: Option<u32>,
}

/// What divides the reader from what was before by times alone: if something comes between by these, one of the two does.
pub(crate) fn last_dividing(
    points: &Points<'_>,
    known: &Known,
    reading: &Point<'_>,
    reader: Node,
) -> Last
    requires { reading.now.first ≤ reader.block }
{
    let mut last = Last {
        any: None,
        sure: None,
    };
    for number in 0..many(points) {
        if !is_time(points, number, reader.point) {
            continue;
        }
        if begins_later(points, number, last.sure) && is_sure_writer(points, number, reader.block) {
            last.sure = Some(number);
        }
        if begins_later(points, number, last.any)
            && divides(points, known, reading, number, reader.block)
        {
            last.any = Some(number);
        }
    }
    last
}

/// Whether there is a point of this number, and it divides the reader from the earlier one.
pub(crate) fn is_between(
    points: &Points<'_>,
    known: &Known,
    reading: &Point<'_>,
    number: Option<u32>,
    earlier: u32,
    reader: Node,
) -> bool
    requires { reading.now.first ≤ reader.block }
    ensures { IsTrue result → HasBetween (seen_table points.now) (noted (seen_table points.now) known.now) (seen reading.now)
        earlier reader.point reader.block }
{
    match number {
        Some(number) => divides_between(points, known, reading, number, earlier, reader),
        None => false,
    }
}

/// Whether there is a point of this number, and it divides the reader from all that was before it.
pub(crate) fn is_before(
    points: &Points<'_>,
    known: &Known,
    reading: &Point<'_>,
    number: Option<u32>,
    reader: Node,
) -> bool
    requires { reading.now.first ≤ reader.block }
    ensures { IsTrue result → (n : ℕ) × DividesBefore (seen_table points.now) (noted (seen_table points.now) known.now) (seen reading.now)
        reader.point reader.block n }
{
    match number {
        Some(number) => divides_before(points, known, reading, number, reader),
        None => false,
    }
}

/// Whether something that is noted to come before the reader divides it from what was before.
pub(crate) fn has_noted(
    points: &Points<'_>,
    known: &Known,
    reading: &Point<'_>,
    reader: Node,
) -> bool
    requires { reading.now.first ≤ reader.block }
    ensures { IsTrue result → (n : ℕ) × DividesBefore (seen_table points.now) (noted (seen_table points.now) known.now) (seen reading.now)
        reader.point reader.block n }
{
    let later = node_at(points, reader.point, reader.block);
    for order in &known.orders {
        if order.later == later
            && divides_before(points, known, reading, order.earlier.point, reader)
        {
            return true;
        }
    }
    false
}

/// Whether something that is noted to come before the reader or after the earlier point divides the two.
pub(crate) fn has_noted_between(
    points: &Points<'_>,
    known: &Known,
    reading: &Point<'_>,
    earlier: u32,
    reader: Node,
) -> bool
    requires { reading.now.first ≤ reader.block }
    ensures { IsTrue result → HasBetween (seen_table points.now) (noted (seen_table points.now) known.now) (seen reading.now)
        earlier reader.point reader.block }
{
    let from = node_at(points, earlier, reader.block);
    let to = node_at(points, reader.point, reader.block);
    for order in &known.orders {
        if order.later == to
            && divides_between(points, known, reading, order.earlier.point, earlier, reader)
        {
            return true;
        }
        if order.earlier == from
            && divides_between(points, known, reading, order.later.point, earlier, reader)
        {
            return true;
        }
    }
    false
}
