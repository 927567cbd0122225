ghost use Rattle.std.specs.Prelude.{◌≡◌, ◌↔◌, ◌≤◌, IfSome, IsTrue};
ghost use Rattle.nvm_standard.specs.PointView.{seen, seen_table};
ghost use Rattle.nvm_standard.specs.declared.point.Presence.TheVariants.{Repeated};
ghost use Rattle.nvm_standard.specs.Inside.Noted.{noted};
ghost use Rattle.nvm_standard.specs.Readings.{FindsNotFirst, IsExcused, IsReadingOf, IsServedBy, IsSource, IsUnserved, NoOtherServes, WasPut};

use crate::dividing::{
    Last, finds_other, has_noted, has_noted_between, is_before, is_between, last_dividing, many,
};
use crate::known::Known;
use crate::node::{Node, has_block, point_at};
use crate::point::{Point, Presence};
use crate::points::Points;
use crate::serving::{can_find_first, can_serve};
use crate::times::comes_before;

/// Whether the reader found nothing that the point of this number put in the block. `last` is what divides it from others by times.
fn is_excused(
    points: &Points<'_>,
    known: &Known,
    reading: &Point<'_>,
    last: &Last,
    number: u32,
    reader: Node,
) -> bool
    requires { reading.now.first ≤ reader.block }
    ensures { IsTrue result → IsExcused (seen_table points.now) (noted (seen_table points.now) known.now) (seen reading.now)
        number reader.point reader.block }
{
    is_between(points, known, reading, last.any, number, reader)
        || is_between(points, known, reading, last.sure, number, reader)
        || comes_before(points, known, reader.point, number, reader.block)
        || has_noted_between(points, known, reading, number, reader)
}

/// Whether the point of this number can't serve the reader, which has the block.
fn cannot_serve(points: &Points<'_>, number: u32, reading: &Point<'_>, block: u32) -> bool
    requires { reading.now.first ≤ block }
    ensures { IsTrue result → IsServedBy (seen_table points.now) (seen reading.now) number block → ⊥ }
{
    match point_at(points, number) {
        Some(writer) => !has_block(writer, block) || !can_serve(points, writer, reading, block),
        None => true,
    }
}

/// Whether each point but two that can serve the reader, which has the block, is excused.
fn no_other_serves(
    points: &Points<'_>,
    known: &Known,
    reading: &Point<'_>,
    reader: Node,
    writer: u32,
) -> bool
    requires { reading.now.first ≤ reader.block }
    ensures { IsTrue result → NoOtherServes (seen_table points.now) (noted (seen_table points.now) known.now) (seen reading.now)
        reader.point reader.block writer }
{
    if points.points.len() > 0xffff_ffff {
        return false;
    }
    let last = last_dividing(points, known, reading, reader);
    for number in 0..many(points) {
        if number != reader.point
            && number != writer
            && !cannot_serve(points, number, reading, reader.block)
            && !is_excused(points, known, reading, &last, number, reader)
        {
            return false;
        }
    }
    true
}

/// Whether the blocks of the point may be done any number of times.
pub(crate) fn is_repeated(point: &Point<'_>) -> bool
    ensures { IsTrue result ↔ (point.now.presence ≡ Repeated) }
{
    match point.presence {
        Presence::Repeated => true,
        _ => false,
    }
}

/// The point of the reader, if it has the block and does it once.
fn reading_of<'a, 't>(points: &'a Points<'t>, reader: Node) -> Option<&'a Point<'t>>
    ensures { IfSome result (λ reading. IsReadingOf (seen_table points.entry.now) reader.point reader.block (seen reading.now)) }
{
    match point_at(points, reader.point) {
        Some(reading) => {
            if has_block(reading, reader.block) && !is_repeated(reading) {
                Some(reading)
            } else {
                None
            }
        }
        None => None,
    }
}

/// Whether it is noted what was in the block at first, and the reader, which has it, can't find that.
fn finds_not_first(points: &Points<'_>, known: &Known, reading: &Point<'_>, block: u32) -> bool
    requires { reading.now.first ≤ block }
    ensures { IsTrue result → FindsNotFirst (seen_table points.now) (noted (seen_table points.now) known.now) (seen reading.now) block }
{
    for first in &known.firsts {
        if first.block == block {
            if let Some(other) = point_at(points, first.point) {
                if finds_other(points, reading, block, other) {
                    return true;
                }
            }
        }
    }
    false
}

/// Whether what the reader found, which has the block, was put, and isn't what was there at first.
fn was_put(points: &Points<'_>, known: &Known, reading: &Point<'_>, reader: Node) -> bool
    requires { reading.now.first ≤ reader.block }
    ensures { IsTrue result → WasPut (seen_table points.now) (noted (seen_table points.now) known.now) (seen reading.now) reader.point reader.block }
{
    let last = last_dividing(points, known, reading, reader);
    is_before(points, known, reading, last.any, reader)
        || !can_find_first(points, reading, reader.block)
        || finds_not_first(points, known, reading, reader.block)
        || has_noted(points, known, reading, reader)
}

/// Whether what the reader found was put, and of the other points none but the writer can have put it.
pub(crate) fn is_source(points: &Points<'_>, known: &Known, writer: u32, reader: Node) -> bool
    ensures { IsTrue result → IsSource (seen_table points.now) (noted (seen_table points.now) known.now) writer reader.point reader.block }
{
    match reading_of(points, reader) {
        Some(reading) => {
            was_put(points, known, reading, reader)
                && no_other_serves(points, known, reading, reader, writer)
        }
        None => false,
    }
}

/// Whether none of the other points can have put what the reader found.
pub(crate) fn is_unserved(points: &Points<'_>, known: &Known, reader: Node) -> bool
    ensures { IsTrue result → IsUnserved (seen_table points.now) (noted (seen_table points.now) known.now) reader.point reader.block }
{
    match reading_of(points, reader) {
        Some(reading) => no_other_serves(points, known, reading, reader, reader.point),
        None => false,
    }
}
