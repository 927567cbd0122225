ghost use Rattle.std.specs.Prelude.{◌≡◌, IsTrue, true};
ghost use Rattle.nvm_standard.specs.PointView.{seen, seen_put, seen_table};
ghost use Rattle.nvm_standard.specs.declared.point.Presence.TheVariants.{Sure};
ghost use Rattle.nvm_standard.specs.Clauses.{is_put as spec_is_put};
ghost use Rattle.nvm_standard.specs.Places.{IsOf};
ghost use Rattle.nvm_standard.specs.Inside.Noted.{noted};
ghost use Rattle.nvm_standard.specs.Times.{ComesBefore, IsDeallocate, IsTime, WasOver};

use crate::deallocating::is_put;
use crate::known::{Known, is_noted};
use crate::node::{has_block, node_at, point_at};
use crate::point::{Point, Presence};
use crate::points::Points;

/// Whether there is a time, and it is before that.
pub(crate) fn was_over(time: Option<u64>, from: u64) -> bool
    ensures { IsTrue result → WasOver time from }
{
    match time {
        Some(time) => time < from,
        None => false,
    }
}

/// Whether the time of the earlier point was over before that of the later one began.
pub(crate) fn is_time(points: &Points<'_>, earlier: u32, later: u32) -> bool
    ensures { IsTrue result → IsTime (seen_table points.now) earlier later }
{
    match point_at(points, earlier) {
        Some(first) => match point_at(points, later) {
            Some(second) => earlier != later && was_over(first.until, second.from),
            None => false,
        },
        None => false,
    }
}

/// Whether the point is sure, and puts the block.
fn is_sure_put(point: &Point<'_>, block: u32) -> bool
    ensures sure { IsTrue result → point.now.presence ≡ Sure }
    ensures puts { IsTrue result → spec_is_put (seen_put point.now.put) ≡ true }
    ensures block { IsTrue result → IsOf (seen point.now) block }
{
    match point.presence {
        Presence::Sure => is_put(point.put) && has_block(point, block),
        _ => false,
    }
}

/// Whether the point of this number is sure, and puts the block.
pub(crate) fn is_sure_writer(points: &Points<'_>, number: u32, block: u32) -> bool {
    match point_at(points, number) {
        Some(point) => is_sure_put(point, block),
        None => false,
    }
}

/// Whether the Deallocate was over before the writer began, which is sure and puts the block.
pub(crate) fn is_deallocate(points: &Points<'_>, deallocate: u32, writer: u32, block: u32) -> bool
    ensures { IsTrue result → IsDeallocate (seen_table points.now) deallocate writer block }
{
    match point_at(points, deallocate) {
        Some(first) => match point_at(points, writer) {
            Some(second) => {
                deallocate != writer
                    && has_block(first, block)
                    && is_sure_put(second, block)
                    && was_over(first.over, second.from)
            }
            None => false,
        },
        None => false,
    }
}

/// Whether the one comes before the other at the block, by their times or by what is noted.
pub(crate) fn comes_before(
    points: &Points<'_>,
    known: &Known,
    earlier: u32,
    later: u32,
    block: u32,
) -> bool
    ensures { IsTrue result → ComesBefore (seen_table points.now) (noted (seen_table points.now) known.now) earlier later block }
{
    is_time(points, earlier, later)
        || is_deallocate(points, earlier, later, block)
        || is_noted(
            &known.orders,
            node_at(points, earlier, block),
            node_at(points, later, block),
        )
}
