ghost use Rattle.std.specs.Prelude.{IsTrue};
ghost use Rattle.nvm_standard.specs.PointView.{seen, seen_table};
ghost use Rattle.nvm_standard.specs.Inside.Noted.{noted};
ghost use Rattle.nvm_standard.specs.Rules.{IsEntryOf, IsGiven, IsOnce, IsOverwritten, IsOwn, IsTied, IsUnder};

use crate::deallocating::is_put;
use crate::fact::Fact;
use crate::known::{Known, is_there};
use crate::node::{Node, has_block, named, node_at, point_at};
use crate::point::Point;
use crate::points::Points;
use crate::readings::{is_repeated, is_source, is_unserved};
use crate::serving::surely_puts;
use crate::times::{comes_before, is_deallocate, is_time};

/// Whether the block of the point of this number is done once at most, if the table has it.
fn is_once(points: &Points<'_>, number: u32) -> bool
    ensures { IsTrue result → IsOnce (seen_table points.now) number }
{
    match point_at(points, number) {
        Some(point) => !is_repeated(point),
        None => true,
    }
}

/// Whether the point comes at the block only after the one before it.
fn is_own(points: &Points<'_>, later: u32, block: u32) -> bool
    ensures { IsTrue result → IsOwn (seen_table points.now) later block }
{
    match point_at(points, later) {
        Some(second) => {
            later > 0 && second.after && has_block(second, block) && is_once(points, later - 1)
        }
        None => false,
    }
}

/// Whether the source is the reader's, and the writer, which is neither, surely puts the block.
fn is_overwritten(
    points: &Points<'_>,
    known: &Known,
    writer: u32,
    reader: Node,
    source: u32,
) -> bool
    ensures { IsTrue result → IsOverwritten (seen_table points.now) (noted (seen_table points.now) known.now) writer reader.point reader.block source }
{
    writer != reader.point
        && writer != source
        && surely_puts(points, known, writer, reader.block)
        && is_source(points, known, source, reader)
}

/// Whether the writer, which surely puts the block, comes before the reader, which is there and whose source is another.
fn is_under(points: &Points<'_>, known: &Known, writer: u32, source: u32, reader: Node) -> bool
    ensures { IsTrue result → IsUnder (seen_table points.now) (noted (seen_table points.now) known.now) writer source reader.block reader.point }
{
    is_once(points, source)
        && comes_before(points, known, writer, reader.point, reader.block)
        && is_there(
            points,
            &known.there,
            node_at(points, reader.point, reader.block),
        )
        && is_overwritten(points, known, writer, reader, source)
}

/// Whether the entry puts both blocks at one moment.
fn is_entry_of(entry: &Point<'_>, one: u32, other: u32) -> bool
    ensures { IsTrue result → IsEntryOf (seen entry.now) one other }
{
    is_put(entry.put) && !entry.each && has_block(entry, one) && has_block(entry, other)
}

/// Whether the reader is tied, surely there at the block `by`, and the entry puts both blocks.
fn is_tied(points: &Points<'_>, known: &Known, reader: Node, entry: u32, by: u32) -> bool
    ensures { IsTrue result → IsTied (seen_table points.now) (noted (seen_table points.now) known.now) reader.point reader.block entry by }
{
    match point_at(points, reader.point) {
        Some(reading) => match point_at(points, entry) {
            Some(putting) => {
                reader.point != entry
                    && reading.tied
                    && has_block(reading, reader.block)
                    && has_block(reading, by)
                    && is_entry_of(putting, reader.block, by)
                    && is_there(points, &known.there, node_at(points, reader.point, by))
            }
            None => false,
        },
        None => false,
    }
}

/// Whether the fact is given by its rule and what is known.
pub(crate) fn is_given(points: &Points<'_>, known: &Known, fact: Fact) -> bool
    ensures { IsTrue result → IsGiven (seen_table points.now) (noted (seen_table points.now) known.now) fact }
{
    match fact {
        Fact::Time { earlier, later } => is_time(points, earlier.point, later.point),
        Fact::Deallocate {
            deallocate,
            writer,
            block,
        } => is_deallocate(points, deallocate, writer, block),
        Fact::Own { later, block } => is_own(points, later, block),
        Fact::Source {
            writer,
            reader,
            block,
        } => { is_once(points, writer) && is_source(points, known, writer, named(reader, block)) }
        Fact::Over {
            reader,
            writer,
            block,
            source,
        } => {
            comes_before(points, known, source, writer, block)
                && is_overwritten(points, known, writer, named(reader, block), source)
        }
        Fact::Under {
            writer,
            source,
            block,
            reader,
        } => is_under(points, known, writer, source, named(reader, block)),
        Fact::First {
            reader,
            writer,
            block,
        } => {
            writer != reader
                && surely_puts(points, known, writer, block)
                && is_unserved(points, known, named(reader, block))
        }
        Fact::AtFirst { reader, block } => {
            is_there(points, &known.there, node_at(points, reader, block))
                && is_unserved(points, known, named(reader, block))
        }
        Fact::TiedBefore {
            reader,
            block,
            entry,
            by,
        } => {
            comes_before(points, known, reader, entry, by)
                && is_tied(points, known, named(reader, block), entry, by)
        }
        Fact::TiedAfter {
            entry,
            reader,
            block,
            by,
        } => {
            comes_before(points, known, entry, reader, by)
                && is_tied(points, known, named(reader, block), entry, by)
        }
    }
}
