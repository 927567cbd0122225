ghost use Rattle.std.specs.Prelude.{◌≡◌, ◌<◌, ℕ, All, IfErr, OnOk, Some, length, map, slice_get};
ghost use Rattle.nvm_standard.specs.PointView.{PointView, seen_table};
ghost use Rattle.nvm_standard.specs.Clauses.{KeepsTied};
ghost use Rattle.nvm_standard.specs.Explanation.{IsPlacedRight};
ghost use Rattle.nvm_standard.specs.Inside.Done.{AreRows};
ghost use Rattle.nvm_standard.specs.Inside.Right.{KeepsTiedOne};
ghost use Rattle.nvm_standard.specs.OrderView.{seen_order};
ghost use Rattle.nvm_standard.specs.Presence.{ArePresent, IsPresent};
ghost use Rattle.nvm_standard.specs.RightFault.{IsOfOrder};

use crate::done_rows::rows_of;
use crate::following::{follows, is_kept};
use crate::order::Order;
use crate::order_fault::OrderFault;
use crate::points::Points;
use crate::presence::is_as_present;
use crate::tying::comes_between;
use std::alloc::Global;

/// Whether the point of this number is there as its presence says, follows the point before, and has no entry between two of its blocks,
/// where it is tied.
fn check_point(
    points: &Points<'_>,
    order: &Order<'_>,
    rows: &Vec<Vec<usize>>,
    number: usize,
) -> Result<(), OrderFault>
    requires fits { All (IsPlacedRight (seen_table points.now)) (seen_order order.now).placed }
    requires there { number < length points.now.points.items }
    requires rows { AreRows (seen_table points.now) (seen_order order.now) (length (seen_order order.now).placed) (map (λ row. row.items) rows.now.items) }
    ensures present { OnOk result ((q : PointView) → slice_get (seen_table points.now).points number ≡ Some q → IsPresent (seen_order order.now) number q) }
    ensures tied { OnOk result (KeepsTiedOne (seen_table points.now) (seen_order order.now) number) }
    ensures fault { IfErr result (λ fault. IsOfOrder fault → ArePresent (seen_table points.now) (seen_order order.now)
        → KeepsTied (seen_table points.now) (seen_order order.now) → ⊥) }
{
    if !is_kept(points, number) {
        return Err(OrderFault::Unkept { point: number });
    }
    if !is_as_present(&points.points[number], &rows[number]) {
        return Err(OrderFault::Absent { point: number });
    }
    if !follows(points, rows, number) {
        return Err(OrderFault::TooEarly { point: number });
    }
    match comes_between(points, order, rows, number) {
        Some(position) => Err(OrderFault::Between { position }),
        None => Ok(()),
    }
}

/// Whether each point is there as its presence says, and no entry is between two blocks of a tied one.
pub(crate) fn check_points(
    alloc: Global,
    points: &Points<'_>,
    order: &Order<'_>,
) -> Result<(), OrderFault>
    requires { All (IsPlacedRight (seen_table points.now)) (seen_order order.now).placed }
    ensures present { OnOk result (ArePresent (seen_table points.now) (seen_order order.now)) }
    ensures tied { OnOk result (KeepsTied (seen_table points.now) (seen_order order.now)) }
    ensures fault { IfErr result (λ fault. IsOfOrder fault → ArePresent (seen_table points.now) (seen_order order.now)
        → KeepsTied (seen_table points.now) (seen_order order.now) → ⊥) }
{
    let rows = match rows_of(alloc, points, order)? {
        Ok(rows) => rows,
        Err(position) => return Err(OrderFault::DoneAgain { position }),
    };
    for number in 0..points.points.len() {
        check_point(points, order, &rows, number)?;
    }
    Ok(())
}
