ghost use Rattle.std.specs.Prelude.{◌≡◌, ◌≢◌, ◌↔◌, ℕ, ◌+◌, ◌<◌, ◌≤◌, All, IfNone, IfSome, IsTrue, Some, false, length, map, slice_get, slice_index, true};
ghost use Rattle.nvm_standard.specs.PointView.{PointView, seen, seen_put, seen_table};
ghost use Rattle.nvm_standard.specs.Clauses.{KeepsTied, is_put as spec_is_put};
ghost use Rattle.nvm_standard.specs.Explanation.{IsPlacedRight};
ghost use Rattle.nvm_standard.specs.Inside.Done.{AreRows};
ghost use Rattle.nvm_standard.specs.Inside.Right.{IsBeside, IsKept, KeepsTiedOne, StaysOut};
ghost use Rattle.nvm_standard.specs.OrderView.{seen_order, seen_placed};

use crate::deallocating::is_put;
use crate::order::{Order, Placed};
use crate::point::Point;
use crate::points::Points;
use crate::positions::stands_at;

/// The first moment at which a block was done, if any was.
fn first_moment(row: &Vec<usize>) -> usize
    ensures { (a : ℕ) → slice_index row.now.items a ≢ 0 → result ≤ slice_index row.now.items a }
{
    let mut first = usize::MAX;
    for place in 0..row.len() {
        if row[place] != 0 && row[place] < first {
            first = row[place];
        }
    }
    first
}

/// The last moment at which a block was done, or 0.
fn last_moment(row: &Vec<usize>) -> usize
    ensures { (a : ℕ) → slice_index row.now.items a ≤ result }
{
    let mut last = 0;
    for place in 0..row.len() {
        last = row[place].max(last);
    }
    last
}

/// Whether none of these places was done at this moment or before.
fn none_by(row: &Vec<usize>, from: usize, to: usize, moment: usize) -> bool
    requires { to ≤ length row.now.items }
    ensures { IsTrue result ↔ ((a : ℕ) → from ≤ a → a < to → slice_index row.now.items a ≢ 0 → moment < slice_index row.now.items a) }
{
    for place in from..to {
        if row[place] != 0 && row[place] <= moment {
            return false;
        }
    }
    true
}

/// Whether none of these places was done after this moment.
fn none_past(row: &Vec<usize>, from: usize, to: usize, moment: usize) -> bool
    requires { to ≤ length row.now.items }
    ensures { IsTrue result ↔ ((a : ℕ) → from ≤ a → a < to → slice_index row.now.items a ≤ moment) }
{
    for place in from..to {
        if row[place] > moment {
            return false;
        }
    }
    true
}

/// Whether what stands at this position isn't between two blocks of the row that it has.
fn is_beside(row: &Vec<usize>, first: u32, placed: &Placed<'_>, position: usize) -> bool
    requires { position < 9223372036854775808 }
    ensures { IsTrue result ↔ IsBeside row.now.items first (seen_placed placed.now) position }
{
    let from = placed.first.saturating_sub(first) as usize;
    let end = placed.first as usize + placed.blocks as usize;
    let to = end.saturating_sub(first as usize).min(row.len());
    none_by(row, from, to, position) || none_past(row, from, to, position + 1)
}

/// Whether the point puts something in all its blocks at one moment.
fn is_entry(point: &Point<'_>) -> bool
    ensures { IsTrue result ↔ ((spec_is_put (seen_put point.now.put) ≡ true) × (point.now.each ≡ false)) }
{
    is_put(point.put) && !point.each
}

/// Whether what stands at this position isn't an entry between two blocks of the row.
fn stays_out(
    points: &Points<'_>,
    order: &Order<'_>,
    row: &Vec<usize>,
    first: u32,
    position: usize,
) -> bool
    requires fits { All (IsPlacedRight (seen_table points.now)) (seen_order order.now).placed }
    requires there { position < length order.now.placed.items }
    ensures { IsTrue result ↔ StaysOut (seen_table points.now) (seen_order order.now) row.now.items first position }
{
    let (placed, point) = stands_at(points, order, position);
    !is_entry(point) || is_beside(row, first, placed, position)
}

/// The first position at which an entry comes between two blocks of the row.
fn between(points: &Points<'_>, order: &Order<'_>, row: &Vec<usize>, first: u32) -> Option<usize>
    requires { All (IsPlacedRight (seen_table points.now)) (seen_order order.now).placed }
    ensures right { IfNone result ((j : ℕ) → StaysOut (seen_table points.now) (seen_order order.now) row.now.items first j) }
    ensures wrong { IfSome result (λ _. ((j : ℕ) → StaysOut (seen_table points.now) (seen_order order.now) row.now.items first j) → ⊥) }
{
    let start = first_moment(row);
    let end = last_moment(row).min(order.placed.len());
    for position in start..end {
        if !stays_out(points, order, row, first, position) {
            return Some(position);
        }
    }
    None
}

/// The first position at which an entry comes between two blocks of the point of this number, where that point is tied.
pub(crate) fn comes_between(
    points: &Points<'_>,
    order: &Order<'_>,
    rows: &Vec<Vec<usize>>,
    number: usize,
) -> Option<usize>
    requires fits { All (IsPlacedRight (seen_table points.now)) (seen_order order.now).placed }
    requires there { number < length points.now.points.items }
    requires rows { AreRows (seen_table points.now) (seen_order order.now) (length (seen_order order.now).placed) (map (λ row. row.items) rows.now.items) }
    requires kept { (q : PointView) → slice_get (seen_table points.now).points number ≡ Some q → IsKept (seen_table points.now) number q }
    ensures right { IfNone result (KeepsTiedOne (seen_table points.now) (seen_order order.now) number) }
    ensures wrong { IfSome result (λ _. KeepsTied (seen_table points.now) (seen_order order.now) → ⊥) }
{
    let point = &points.points[number];
    if !point.tied {
        return None;
    }
    between(points, order, &rows[number], point.first)
}
