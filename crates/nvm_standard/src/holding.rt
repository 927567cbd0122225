ghost use Rattle.std.specs.Prelude.{◌≡◌, ◌≢◌, ◌↔◌, ◌+◌, ◌-◌, ◌<◌, ◌≤◌, ℕ, All, IfNone, IfOk, IfSome, IsTrue, false, length, map, option_map};
ghost use Rattle.nvm_record.specs.Medium.{Medium, is_marked};
ghost use Rattle.nvm_standard.specs.PointView.{TableView, seen, seen_found, seen_put, seen_table};
ghost use Rattle.nvm_standard.specs.Clauses.{FindsContents};
ghost use Rattle.nvm_standard.specs.Contents as spec;
ghost use Rattle.nvm_standard.specs.Explanation.{IsPlacedRight};
ghost use Rattle.nvm_standard.specs.Fits.{FitsFirst};
ghost use Rattle.nvm_standard.specs.Inside.Held.{Holds, after_blocks};
ghost use Rattle.nvm_standard.specs.OrderView.{block_of, seen_content, seen_order, seen_placed, seen_value};
ghost use Rattle.nvm_standard.specs.Places.{HasBlock};

use crate::bytes::{bytes_at, is_bytes};
use crate::order::{Content, Order, Placed, Value};
use crate::point::{Found, Point, Put};
use crate::points::Points;
use crate::positions::stands_at;
use nvm_record::NoMemory;
use std::alloc::Global;

/// Whether the content has bytes, and no mark.
fn has_bytes(content: Content<'_>) -> bool
    ensures { (size : ℕ) → IsTrue result ↔ (is_marked (block_of size (seen_content content.entry)) ≡ false) }
{
    match content {
        Content::Zeroes | Content::Ones | Content::Bytes(_) => true,
        Content::Mark => false,
    }
}

/// Whether the content may be found at this place of a point's blocks.
pub fn may_find(size: u32, found: Found<'_>, place: u32, content: Content<'_>) -> bool
    ensures { IsTrue result ↔ spec.MayFind size (seen_found found.entry) place (block_of size (seen_content content.entry)) }
{
    match found {
        Found::Nothing => true,
        Found::Bytes(payload) => is_bytes(size, content, bytes_at(size, payload, place)),
        Found::AnyBytes => has_bytes(content),
        Found::OtherThan(payload) => {
            has_bytes(content) && !is_bytes(size, content, bytes_at(size, payload, place))
        }
    }
}

/// What is put at this place of a point's blocks.
fn put_at<'t>(size: u32, put: Put<'t>, value: Value<'t>, place: u32) -> Option<Content<'t>>
    ensures { option_map (λ c. block_of size (seen_content c)) result ≡ spec.put_at size (seen_put put.entry) (seen_value value.entry) place }
{
    match put {
        Put::Nothing => None,
        Put::Bytes(payload) => Some(Content::Bytes(bytes_at(size, payload, place))),
        Put::Zeroes => Some(Content::Zeroes),
        Put::Mark => Some(Content::Mark),
        Put::Deallocated | Put::Anything => match value {
            Value::AsIs => None,
            Value::Put(content) => Some(content),
        },
    }
}

/// Sets what a block holds.
fn hold<'t>(held: &mut Vec<Content<'t>>, block: u32, content: Content<'t>)
    requires { block < length held.old.items }
    ensures holds { (t : TableView) (m n : Medium) → Holds t (map seen_content held.old.items) m
        → n block ≡ block_of t.block_size (seen_content content.entry) → ((x : ℕ) → x ≢ block → n x ≡ m x)
        → Holds t (map seen_content held.new.items) n }
    ensures many { length held.new.items ≡ length held.old.items }
{
    held[block as usize] = content;
}

/// What blocks held at first.
fn first_blocks<'t>(
    alloc: Global,
    points: &Points<'t>,
    order: &Order<'t>,
) -> Result<Vec<Content<'t>>, NoMemory>
    requires { All (FitsFirst (seen_table points.now)) (seen_order order.now).first }
    ensures { IfOk result (λ held. Holds (seen_table points.now) (map seen_content held.items)
        (spec.first_blocks (seen_table points.now) (seen_order order.now))) }
{
    let mut held = vec![in alloc; Content::Zeroes; points.nsze as usize]?;
    for place in 0..order.first.len() {
        let first = &order.first[place];
        hold(&mut held, first.block, first.content);
    }
    Ok(held)
}

/// One past the last of its blocks, which are of the namespace.
fn end_of(placed: &Placed<'_>, nsze: u32) -> u32
    requires { placed.now.first + placed.now.blocks ≤ nsze }
    ensures { result ≡ placed.now.first + placed.now.blocks }
{
    (placed.first + placed.blocks).min(nsze)
}

/// Whether each block holds what is found there.
fn finds<'t>(
    points: &Points<'t>,
    point: &Point<'t>,
    placed: &Placed<'t>,
    held: &Vec<Content<'t>>,
) -> bool
    requires from { point.now.first ≤ placed.now.first }
    requires to { placed.now.first + placed.now.blocks ≤ points.now.nsze }
    requires many { length held.now.items ≡ points.now.nsze }
    ensures right { (m : Medium) → Holds (seen_table points.now) (map seen_content held.now.items) m
        → IsTrue result → (x : ℕ) → HasBlock (seen_placed placed.now) x
        → spec.MayFind (seen_table points.now).block_size (seen point.now).found (x - point.now.first) (m x) }
    ensures wrong { (m : Medium) → Holds (seen_table points.now) (map seen_content held.now.items) m
        → ((x : ℕ) → HasBlock (seen_placed placed.now) x
        → spec.MayFind (seen_table points.now).block_size (seen point.now).found (x - point.now.first) (m x)) → IsTrue result }
{
    for block in placed.first..end_of(placed, points.nsze) {
        let place = block - point.first;
        if !may_find(
            points.block_size.bytes(),
            point.found,
            place,
            held[block as usize],
        ) {
            return false;
        }
    }
    true
}

/// Puts what is put in this block.
fn put_in<'t>(
    size: u32,
    point: &Point<'t>,
    placed: &Placed<'t>,
    held: &mut Vec<Content<'t>>,
    block: u32,
)
    requires from { point.now.first ≤ block }
    requires at { placed.now.first ≤ block }
    requires to { block < length held.old.items }
    ensures holds { (t : TableView) (m : Medium) → t.block_size ≡ size
        → Holds t (map seen_content held.old.items) (after_blocks size (seen point.now) (seen_placed placed.now) block m)
        → Holds t (map seen_content held.new.items) (after_blocks size (seen point.now) (seen_placed placed.now) (block + 1) m) }
    ensures many { length held.new.items ≡ length held.old.items }
{
    if let Some(content) = put_at(size, point.put, placed.value, block - point.first) {
        hold(held, block, content);
    }
}

/// Puts what is put.
fn put<'t>(points: &Points<'t>, point: &Point<'t>, placed: &Placed<'t>, held: &mut Vec<Content<'t>>)
    requires from { point.now.first ≤ placed.now.first }
    requires to { placed.now.first + placed.now.blocks ≤ points.now.nsze }
    requires many { length held.old.items ≡ points.now.nsze }
    ensures { (m : Medium) → Holds (seen_table points.now) (map seen_content held.old.items) m
        → Holds (seen_table points.now) (map seen_content held.new.items)
        (after_blocks (seen_table points.now).block_size (seen point.now) (seen_placed placed.now) (placed.now.first + placed.now.blocks) m) }
{
    let size = points.block_size.bytes();
    for block in placed.first..end_of(placed, points.nsze) {
        put_in(size, point, placed, held, block);
    }
}

/// The first position at which something else is found.
pub(crate) fn finds_other<'a, 't>(
    alloc: Global,
    points: &'a Points<'t>,
    order: &'a Order<'t>,
) -> Result<Option<usize>, NoMemory>
    requires fits { All (IsPlacedRight (seen_table points.now)) (seen_order order.now).placed }
    requires firsts { All (FitsFirst (seen_table points.now)) (seen_order order.now).first }
    ensures right { IfOk result (λ found. IfNone found (FindsContents (seen_table points.now) (seen_order order.now))) }
    ensures wrong { IfOk result (λ found. IfSome found (λ _. FindsContents (seen_table points.now) (seen_order order.now) → ⊥)) }
{
    let mut held = first_blocks(alloc, points, order)?;
    for position in 0..order.placed.len() {
        let (placed, point) = stands_at(points, order, position);
        if !finds(points, point, placed, &held) {
            return Ok(Some(position));
        }
        put(points, point, placed, &mut held);
    }
    Ok(None)
}
