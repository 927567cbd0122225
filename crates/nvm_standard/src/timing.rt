ghost use Rattle.std.specs.Prelude.{◌≡◌, ◌↔◌, ◌≤◌, All, IfNone, IfSome, IsTrue};
ghost use Rattle.nvm_standard.specs.PointView.{seen_table};
ghost use Rattle.nvm_standard.specs.Clauses.{KeepsTime};
ghost use Rattle.nvm_standard.specs.Explanation.{IsPlacedRight};
ghost use Rattle.nvm_standard.specs.OrderView.{seen_order};

use crate::order::Order;
use crate::points::Points;
use crate::positions::stands_at;

/// Whether this time, where there is one, isn't over before that.
pub(crate) fn is_in_time(until: Option<u64>, time: u64) -> bool
    ensures { IsTrue result ↔ IfSome until (λ until. time ≤ until) }
{
    match until {
        Some(until) => time <= until,
        None => true,
    }
}

/// The first position that comes after one whose command began only when its own time was over.
pub(crate) fn time_back<'a, 't>(points: &'a Points<'t>, order: &'a Order<'t>) -> Option<usize>
    requires { All (IsPlacedRight (seen_table points.now)) (seen_order order.now).placed }
    ensures right { IfNone result (KeepsTime (seen_table points.now) (seen_order order.now)) }
    ensures wrong { IfSome result (λ _. KeepsTime (seen_table points.now) (seen_order order.now) → ⊥) }
{
    let mut latest = 0;
    for position in 0..order.placed.len() {
        let (_, point) = stands_at(points, order, position);
        if !is_in_time(point.until, latest) {
            return Some(position);
        }
        latest = point.from.max(latest);
    }
    None
}
