ghost use Rattle.std.specs.Prelude.{◌≡◌, ◌↔◌, All, IfNone, IfSome, IsTrue};
ghost use Rattle.nvm_standard.specs.PointView.{seen, seen_put, seen_table};
ghost use Rattle.nvm_standard.specs.Explanation.{IsPlacedRight};
ghost use Rattle.nvm_standard.specs.Fits as spec;
ghost use Rattle.nvm_standard.specs.OrderView.{seen_content, seen_first, seen_order, seen_placed, seen_value};

use crate::order::{Content, FirstContent, Order, Placed, Value};
use crate::point::{Point, Put};
use crate::points::Points;
use nvm_trace::{Deallocated, Start};

/// Whether the content is one of a block of this size.
fn is_sized(size: u32, content: Content<'_>) -> bool
    ensures { IsTrue result ↔ spec.IsSized size (seen_content content.entry) }
{
    match content {
        Content::Zeroes | Content::Ones | Content::Mark => true,
        Content::Bytes(bytes) => bytes.len() == size as usize,
    }
}

/// Whether a deallocated block may read as the content.
fn may_read(deallocated: Deallocated, content: Content<'_>) -> bool
    ensures { result ≡ spec.may_read deallocated (seen_content content.entry) }
{
    match content {
        Content::Zeroes => match deallocated {
            Deallocated::Zeroes | Deallocated::Either => true,
            Deallocated::Ones => false,
        },
        Content::Ones => match deallocated {
            Deallocated::Ones | Deallocated::Either => true,
            Deallocated::Zeroes => false,
        },
        Content::Bytes(_) | Content::Mark => false,
    }
}

/// Whether the table says what is put.
fn is_as_is(value: Value<'_>) -> bool
    ensures { IsTrue result ↔ spec.IsAsIs (seen_value value.entry) }
{
    match value {
        Value::AsIs => true,
        Value::Put(_) => false,
    }
}

/// Whether it is what a deallocated block may read as.
fn is_deallocated(deallocated: Deallocated, value: Value<'_>) -> bool
    ensures { IsTrue result ↔ spec.IsDeallocated deallocated (seen_value value.entry) }
{
    match value {
        Value::AsIs => false,
        Value::Put(content) => may_read(deallocated, content),
    }
}

/// Whether it is any content.
fn is_anything(size: u32, value: Value<'_>) -> bool
    ensures { IsTrue result ↔ spec.IsAnything size (seen_value value.entry) }
{
    match value {
        Value::AsIs => false,
        Value::Put(content) => is_sized(size, content),
    }
}

/// Whether the value may be put.
fn is_allowed(points: &Points<'_>, put: Put<'_>, value: Value<'_>) -> bool
    ensures { IsTrue result ↔ spec.IsAllowed (seen_table points.now) (seen_put put.entry) (seen_value value.entry) }
{
    match put {
        Put::Nothing | Put::Bytes(_) | Put::Zeroes | Put::Mark => is_as_is(value),
        Put::Deallocated => is_deallocated(points.deallocated, value),
        Put::Anything => is_anything(points.block_size.bytes(), value),
    }
}

/// Whether what is placed fits its point.
fn fits_point(points: &Points<'_>, placed: &Placed<'_>, point: &Point<'_>) -> bool
    ensures { IsTrue result ↔ spec.FitsPoint (seen_table points.now) (seen_placed placed.now) (seen point.now) }
{
    let end = u64::from(placed.first) + u64::from(placed.blocks);
    placed.blocks > 0
        && point.first <= placed.first
        && end <= u64::from(point.first) + u64::from(point.blocks)
        && end <= u64::from(points.nsze)
        && (point.each || placed.blocks == point.blocks)
        && is_allowed(points, point.put, placed.value)
}

/// Whether what is placed is a point of the table, and fits it.
fn is_right(points: &Points<'_>, placed: &Placed<'_>) -> bool
    ensures { IsTrue result ↔ IsPlacedRight (seen_table points.now) (seen_placed placed.now) }
{
    let number = placed.point as usize;
    number < points.points.len() && fits_point(points, placed, &points.points[number])
}

/// The first position at which something doesn't fit.
pub(crate) fn misplaced<'t>(points: &Points<'t>, order: &Order<'t>) -> Option<usize>
    ensures right { IfNone result (All (IsPlacedRight (seen_table points.now)) (seen_order order.now).placed) }
    ensures wrong { IfSome result (λ _. All (IsPlacedRight (seen_table points.now)) (seen_order order.now).placed → ⊥) }
{
    for position in 0..order.placed.len() {
        if !is_right(points, &order.placed[position]) {
            return Some(position);
        }
    }
    None
}

/// Whether what a block held at first is said right.
fn fits_first(points: &Points<'_>, first: &FirstContent<'_>) -> bool
    ensures { IsTrue result ↔ spec.FitsFirst (seen_table points.now) (seen_first first.now) }
{
    first.block < points.nsze && is_sized(points.block_size.bytes(), first.content)
}

/// Whether anything may be said of what blocks held at first.
fn may_begin(start: Start, order: &Order<'_>) -> bool
    ensures { IsTrue result ↔ spec.MayBegin start (seen_order order.now).first }
{
    match start {
        Start::Zeroes => order.first.is_empty(),
        Start::Unknown => true,
    }
}

/// The first place at which what a block held at first isn't said right.
pub(crate) fn first_wrong<'t>(points: &Points<'t>, order: &Order<'t>) -> Option<usize>
    ensures start { IfNone result (spec.MayBegin (seen_table points.now).start (seen_order order.now).first) }
    ensures each { IfNone result (All (spec.FitsFirst (seen_table points.now)) (seen_order order.now).first) }
    ensures wrong { IfSome result (λ _. spec.MayBegin (seen_table points.now).start (seen_order order.now).first
        → All (spec.FitsFirst (seen_table points.now)) (seen_order order.now).first → ⊥) }
{
    if !may_begin(points.start, order) {
        return Some(0);
    }
    for place in 0..order.first.len() {
        if !fits_first(points, &order.first[place]) {
            return Some(place);
        }
    }
    None
}
