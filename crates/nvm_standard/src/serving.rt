ghost use Rattle.std.specs.Prelude.{◌≡◌, ◌↔◌, ◌-◌, ◌≤◌, IsTrue};
ghost use Rattle.nvm_standard.specs.PointView.{seen, seen_found, seen_table};
ghost use Rattle.nvm_standard.specs.Contents.{MayFind};
ghost use Rattle.nvm_standard.specs.OrderView.{block_of, seen_content};
ghost use Rattle.nvm_standard.specs.Places.{IsOf};
ghost use Rattle.nvm_standard.specs.Inside.Noted.{noted};
ghost use Rattle.nvm_standard.specs.Serving.{CanFindFirst, CanServe, SurelyPuts};

use crate::bytes::bytes_at;
use crate::deallocating::is_put;
use crate::holding::may_find;
use crate::known::{Known, is_there};
use crate::node::{has_block, node_at, point_at};
use crate::order::Content;
use crate::point::{Point, Put};
use crate::points::Points;
use nvm_trace::{Deallocated, Start};

/// Whether the reader, which has the block, may find this content there.
pub(crate) fn may_find_there(
    points: &Points<'_>,
    reader: &Point<'_>,
    block: u32,
    content: Content<'_>,
) -> bool
    requires { reader.now.first ≤ block }
    ensures { IsTrue result ↔ MayFind (seen_table points.now).block_size (seen reader.now).found (block - reader.now.first)
        (block_of (seen_table points.now).block_size (seen_content content.entry)) }
{
    may_find(
        points.block_size.bytes(),
        reader.found,
        block - reader.first,
        content,
    )
}

/// Whether something that the writer may put in the block is what the reader may find there. Both have the block.
pub(crate) fn can_serve(
    points: &Points<'_>,
    writer: &Point<'_>,
    reader: &Point<'_>,
    block: u32,
) -> bool
    requires writer { writer.now.first ≤ block }
    requires reader { reader.now.first ≤ block }
    ensures { CanServe (seen_table points.now) (seen writer.now) (seen reader.now) block → IsTrue result }
{
    match writer.put {
        Put::Nothing => false,
        Put::Bytes(payload) => {
            let bytes = bytes_at(points.block_size.bytes(), payload, block - writer.first);
            may_find_there(points, reader, block, Content::Bytes(bytes))
        }
        Put::Zeroes => may_find_there(points, reader, block, Content::Zeroes),
        Put::Mark => may_find_there(points, reader, block, Content::Mark),
        Put::Deallocated => match points.deallocated {
            Deallocated::Zeroes => may_find_there(points, reader, block, Content::Zeroes),
            Deallocated::Ones => may_find_there(points, reader, block, Content::Ones),
            Deallocated::Either => {
                may_find_there(points, reader, block, Content::Zeroes)
                    || may_find_there(points, reader, block, Content::Ones)
            }
        },
        Put::Anything => true,
    }
}

/// Whether the reader, which has the block, can have found there what was there at first.
pub(crate) fn can_find_first(points: &Points<'_>, reader: &Point<'_>, block: u32) -> bool
    requires { reader.now.first ≤ block }
    ensures { CanFindFirst (seen_table points.now) (seen reader.now) block → IsTrue result }
{
    match points.start {
        Start::Zeroes => may_find_there(points, reader, block, Content::Zeroes),
        Start::Unknown => true,
    }
}

/// Whether the point of this number is there, and puts the block.
pub(crate) fn surely_puts(points: &Points<'_>, known: &Known, number: u32, block: u32) -> bool
    ensures { IsTrue result → SurelyPuts (seen_table points.now) (noted (seen_table points.now) known.now) number block }
{
    match point_at(points, number) {
        Some(point) => {
            has_block(point, block)
                && is_put(point.put)
                && is_there(points, &known.there, node_at(points, number, block))
        }
        None => false,
    }
}
