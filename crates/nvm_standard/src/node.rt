ghost use Rattle.std.specs.Prelude.{◌≡◌, ◌↔◌, IsTrue, Some, option_map, slice_get};
ghost use Rattle.nvm_standard.specs.PointView.{seen, seen_table};
ghost use Rattle.nvm_standard.specs.Places.{IsOf};
ghost use Rattle.nvm_standard.specs.Nodes as spec;

use crate::point::Point;
use crate::points::Points;

/// A point of a table at one of its blocks.
///
/// Of a point that is done at one moment each of its blocks names the same.
#[derive(Clone, Copy, Debug, PartialEq, Eq)]
pub struct Node {
    /// The number of the point in the table.
    pub point: u32,
    /// One of its blocks.
    pub block: u32,
}

/// The point of this number at the block.
pub(crate) fn named(point: u32, block: u32) -> Node
    ensures { result ≡ spec.node point block }
{
    Node { point, block }
}

/// The point of this number, if the table has it.
pub(crate) fn point_at<'a, 't>(points: &'a Points<'t>, number: u32) -> Option<&'a Point<'t>>
    ensures { option_map (λ p. seen p.now) result ≡ slice_get (seen_table points.entry.now).points number }
{
    points.points.get(number as usize)
}

/// Whether the block is one of the point's.
pub(crate) fn has_block(point: &Point<'_>, block: u32) -> bool
    ensures { IsTrue result ↔ IsOf (seen point.now) block }
{
    point.first <= block && block - point.first < point.blocks
}

/// The point at this block, or at its first where it is done at one moment.
#[tactic(auto, unfolding(crate::specs::Nodes::block_at))]
pub(crate) fn node_at(points: &Points<'_>, point: u32, block: u32) -> Node
    ensures { result ≡ spec.node_at (seen_table points.now) point block }
{
    match point_at(points, point) {
        Some(its) => {
            if its.each {
                Node { point, block }
            } else {
                Node {
                    point,
                    block: its.first,
                }
            }
        }
        None => Node { point, block },
    }
}
