ghost use Rattle.std.specs.Prelude.{◌≡◌, ◌≢◌, ◌↔◌, ◌+◌, ◌-◌, ◌<◌, ◌≤◌, ℕ, All, IfErr, IfOk, IsTrue, length, map, slice_index};
ghost use Rattle.nvm_standard.specs.PointView.{seen, seen_table};
ghost use Rattle.nvm_standard.specs.declared.point.Presence.TheVariants.{Repeated};
ghost use Rattle.nvm_standard.specs.Explanation.{IsPlacedRight};
ghost use Rattle.nvm_standard.specs.Inside.Done.{AreRows, IsRowOf};
ghost use Rattle.nvm_standard.specs.OrderView.{OrderView, seen_order};
ghost use Rattle.nvm_standard.specs.Presence.{ArePresent};

use crate::order::Order;
use crate::point::{Point, Presence};
use crate::points::Points;
use crate::positions::stands_at;
use nvm_record::NoMemory;
use std::alloc::Global;

/// Whether the blocks of the point may be done any number of times.
pub(crate) fn is_repeated(point: &Point<'_>) -> bool
    ensures { IsTrue result ↔ (point.now.presence ≡ Repeated) }
{
    match point.presence {
        Presence::Repeated => true,
        _ => false,
    }
}

/// How many blocks a row of the point has: none, where they may be done any number of times.
fn row_len(point: &Point<'_>) -> usize
    ensures { point.now.presence ≢ Repeated → result ≡ point.now.blocks }
{
    match point.presence {
        Presence::Repeated => 0,
        _ => point.blocks as usize,
    }
}

/// A row for the point: of its blocks none is done.
fn empty_row(alloc: Global, point: &Point<'_>) -> Result<Vec<usize>, NoMemory>
    ensures { IfOk result (λ row. (o : OrderView) (n : ℕ) → IsRowOf o 0 n (seen point.now) row.items) }
{
    let row = vec![in alloc; 0; row_len(point)]?;
    Ok(row)
}

/// A row for each point.
fn empty_rows(alloc: Global, points: &Points<'_>) -> Result<Vec<Vec<usize>>, NoMemory>
    ensures { IfOk result (λ rows. (o : OrderView) → AreRows (seen_table points.now) o 0 (map (λ row. row.items) rows.items)) }
{
    let mut rows = Vec::with_capacity(alloc, points.points.len())?;
    for number in 0..points.points.len() {
        rows.push(empty_row(alloc, &points.points[number])?)?;
    }
    Ok(rows)
}

/// Notes in the places from `start` on that they were done at this moment. The answer is whether none was before.
fn note(row: &mut Vec<usize>, start: usize, blocks: u32, moment: usize) -> bool
    requires { start + blocks ≤ length row.old.items }
    ensures many { length row.new.items ≡ length row.old.items }
    ensures below { (a : ℕ) → a < start → slice_index row.new.items a ≡ slice_index row.old.items a }
    ensures above { (a : ℕ) → start + blocks ≤ a → slice_index row.new.items a ≡ slice_index row.old.items a }
    ensures enough { ((a : ℕ) → start ≤ a → a < start + blocks → slice_index row.old.items a ≡ 0) → IsTrue result }
    ensures free { IsTrue result → (a : ℕ) → start ≤ a → a < start + blocks → slice_index row.old.items a ≡ 0 }
    ensures noted { IsTrue result → (a : ℕ) → start ≤ a → a < start + blocks → slice_index row.new.items a ≡ moment }
{
    for at in 0..blocks {
        let place = start + at as usize;
        if row[place] != 0 {
            return false;
        }
        row[place] = moment;
    }
    true
}

/// Notes what stands at this position. The answer is whether none of its blocks was done before, where that matters.
fn note_at(
    points: &Points<'_>,
    order: &Order<'_>,
    rows: &mut Vec<Vec<usize>>,
    position: usize,
) -> bool
    requires fits { All (IsPlacedRight (seen_table points.now)) (seen_order order.now).placed }
    requires there { position < length order.now.placed.items }
    requires rows { AreRows (seen_table points.now) (seen_order order.now) position (map (λ row. row.items) rows.old.items) }
    ensures enough { ArePresent (seen_table points.now) (seen_order order.now) → IsTrue result }
    ensures noted { IsTrue result → AreRows (seen_table points.now) (seen_order order.now) (position + 1) (map (λ row. row.items) rows.new.items) }
{
    let (placed, point) = stands_at(points, order, position);
    if is_repeated(point) {
        return true;
    }
    let start = (placed.first - point.first) as usize;
    note(
        &mut rows[placed.point as usize],
        start,
        placed.blocks,
        position + 1,
    )
}

/// When each block of each point was done: a row for each point, with a place for each of its blocks. It is one more than the position,
/// or 0 where the block wasn't done. The error is the first position at which a block is done again that isn't to be.
pub(crate) fn rows_of(
    alloc: Global,
    points: &Points<'_>,
    order: &Order<'_>,
) -> Result<Result<Vec<Vec<usize>>, usize>, NoMemory>
    requires { All (IsPlacedRight (seen_table points.now)) (seen_order order.now).placed }
    ensures wrong { IfOk result (λ done. IfErr done (λ _. ArePresent (seen_table points.now) (seen_order order.now) → ⊥)) }
    ensures right { IfOk result (λ done. IfOk done (λ rows.
        AreRows (seen_table points.now) (seen_order order.now) (length (seen_order order.now).placed) (map (λ row. row.items) rows.items))) }
{
    let mut rows = empty_rows(alloc, points)?;
    for position in 0..order.placed.len() {
        if !note_at(points, order, &mut rows, position) {
            return Ok(Err(position));
        }
    }
    Ok(Ok(rows))
}
