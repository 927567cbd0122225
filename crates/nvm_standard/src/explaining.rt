ghost use Rattle.std.specs.Prelude.{◌≡◌, IfErr, OnOk};
ghost use Rattle.nvm_standard.specs.PointView.{seen_table};
ghost use Rattle.nvm_standard.specs.Explanation.{IsExplanation};
ghost use Rattle.nvm_standard.specs.OrderView.{seen_order};
ghost use Rattle.nvm_standard.specs.RightFault.{IsOfOrder};

use crate::checking::check_points;
use crate::deallocating::deallocates_late;
use crate::fitting::{first_wrong, misplaced};
use crate::holding::finds_other;
use crate::order::Order;
use crate::order_fault::OrderFault;
use crate::points::Points;
use crate::timing::time_back;
use std::alloc::Global;

/// Whether the order explains the trace of these points.
///
/// An order that explains it has no fault but `Unkept`, which is the table's and of none that `points_of` makes, and `NoMemory`.
///
/// The time is linear in the table with its blocks, in the order with its blocks and in the namespace, but that each tied point looks at
/// what stands between the first and the last of its blocks.
pub fn explains<'a, 't>(
    alloc: Global,
    points: &'a Points<'t>,
    order: &'a Order<'t>,
) -> Result<(), OrderFault>
    ensures explained { OnOk result (IsExplanation (seen_table points.now) (seen_order order.now)) }
    ensures fault { IfErr result (λ fault. IsOfOrder fault → IsExplanation (seen_table points.now) (seen_order order.now) → ⊥) }
{
    if let Some(place) = first_wrong(points, order) {
        return Err(OrderFault::FirstWrong { place });
    }
    if let Some(position) = misplaced(points, order) {
        return Err(OrderFault::Misplaced { position });
    }
    if let Some(position) = time_back(points, order) {
        return Err(OrderFault::TimeBack { position });
    }
    if let Some(position) = finds_other(alloc, points, order)? {
        return Err(OrderFault::FindsOther { position });
    }
    if let Some(position) = deallocates_late(alloc, points, order)? {
        return Err(OrderFault::DeallocatesLate { position });
    }
    check_points(alloc, points, order)
}
