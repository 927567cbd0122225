ghost use Rattle.std.specs.Prelude.{◌≡◌, ◌≢◌, ◌↔◌, ℕ, ◌-◌, ◌<◌, All, IsTrue, Some, length, map, slice_get, true};
ghost use Rattle.nvm_standard.specs.PointView.{PointView, seen_table};
ghost use Rattle.nvm_standard.specs.declared.point.Presence.TheVariants.{Repeated};
ghost use Rattle.nvm_standard.specs.Explanation.{IsPlacedRight};
ghost use Rattle.nvm_standard.specs.Inside.Done.{AreRows};
ghost use Rattle.nvm_standard.specs.Inside.Right.{ComesAfter, FollowsRow, IsKept, WasBefore};
ghost use Rattle.nvm_standard.specs.OrderView.{OrderView};
ghost use Rattle.nvm_standard.specs.Presence.{ArePresent};

use crate::done_rows::is_repeated;
use crate::points::Points;

/// Whether the block was done before this moment, by a row whose point has this first block.
fn was_before(before: &Vec<usize>, first: u32, block: usize, moment: usize) -> bool
    ensures { IsTrue result ↔ WasBefore before.now.items first block moment }
{
    let first = first as usize;
    first <= block
        && block - first < before.len()
        && before[block - first] != 0
        && before[block - first] < moment
}

/// Whether each block that was done was done earlier by the row before.
fn comes_after(row: &Vec<usize>, first: u32, before: &Vec<usize>, before_first: u32) -> bool
    ensures { IsTrue result ↔ ComesAfter row.now.items first before.now.items before_first }
{
    for place in 0..row.len() {
        let moment = row[place];
        if moment != 0 && !was_before(before, before_first, first as usize + place, moment) {
            return false;
        }
    }
    true
}

/// Whether the blocks of the point before are there at most once each. The first point has none before it.
fn follows_kept(points: &Points<'_>, number: usize) -> bool
    requires { number < length points.now.points.items }
    ensures first { IsTrue result → 0 < number }
    ensures before { IsTrue result → (b : PointView) → slice_get (seen_table points.now).points (number - 1) ≡ Some b → b.presence ≢ Repeated }
{
    if number == 0 {
        return false;
    }
    !is_repeated(&points.points[number - 1])
}

/// Whether the point of this number, where it is tied or comes after the one before it, is one of which each block is done once, and so
/// is that one.
pub(crate) fn is_kept(points: &Points<'_>, number: usize) -> bool
    requires { number < length points.now.points.items }
    ensures { IsTrue result → (q : PointView) → slice_get (seen_table points.now).points number ≡ Some q → IsKept (seen_table points.now) number q }
{
    let point = &points.points[number];
    if !point.tied && !point.after {
        return true;
    }
    !is_repeated(point) && (!point.after || follows_kept(points, number))
}

/// Whether the blocks of the point of this number follow those of the point before, where that is asked.
pub(crate) fn follows(points: &Points<'_>, rows: &Vec<Vec<usize>>, number: usize) -> bool
    requires there { number < length points.now.points.items }
    requires many { length rows.now.items ≡ length points.now.points.items }
    requires kept { (q : PointView) → slice_get (seen_table points.now).points number ≡ Some q → IsKept (seen_table points.now) number q }
    ensures right { (q : PointView) → slice_get (seen_table points.now).points number ≡ Some q → q.after ≡ true → IsTrue result
        → FollowsRow (seen_table points.now) (map (λ row. row.items) rows.now.items) number q }
    ensures wrong { (o : OrderView) → AreRows (seen_table points.now) o (length o.placed) (map (λ row. row.items) rows.now.items)
        → All (IsPlacedRight (seen_table points.now)) o.placed → ArePresent (seen_table points.now) o → IsTrue result }
{
    let point = &points.points[number];
    if !point.after {
        return true;
    }
    if number == 0 {
        return false;
    }
    let before = &points.points[number - 1];
    comes_after(&rows[number], point.first, &rows[number - 1], before.first)
}
