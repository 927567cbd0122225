ghost use Rattle.std.specs.Prelude.{◌<◌, All, length};
ghost use Rattle.nvm_standard.specs.PointView.{seen, seen_table};
ghost use Rattle.nvm_standard.specs.Explanation.{IsPlacedRight};
ghost use Rattle.nvm_standard.specs.Fits.{FitsPoint};
ghost use Rattle.nvm_standard.specs.OrderView.{seen_order, seen_placed};
ghost use Rattle.nvm_standard.specs.Places.{StandsAt};

use crate::order::{Order, Placed};
use crate::point::Point;
use crate::points::Points;

/// What stands at this position, and its point.
pub(crate) fn stands_at<'a, 't>(
    points: &'a Points<'t>,
    order: &'a Order<'t>,
    position: usize,
) -> (&'a Placed<'t>, &'a Point<'t>)
    requires fits { All (IsPlacedRight (seen_table points.now)) (seen_order order.now).placed }
    requires there { position < length order.now.placed.items }
    ensures stands { StandsAt (seen_table points.entry.now) (seen_order order.entry.now) position (seen_placed result.0.now) (seen result.1.now) }
    ensures fits { FitsPoint (seen_table points.entry.now) (seen_placed result.0.now) (seen result.1.now) }
{
    let placed = &order.placed[position];
    (placed, &points.points[placed.point as usize])
}
