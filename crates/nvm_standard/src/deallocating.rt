ghost use Rattle.std.specs.Prelude.{◌≡◌, ◌↔◌, ◌+◌, ◌≤◌, ◌&&◌, ℕ, All, IfNone, IfOk, IfSome, IsTrue, length, slice_index, true};
ghost use Rattle.nvm_standard.specs.PointView.{TableView, seen, seen_put, seen_table};
ghost use Rattle.nvm_standard.specs.declared.point.Presence.TheVariants.{Sure};
ghost use Rattle.nvm_standard.specs.Clauses.{KeepsDeallocates, is_put as spec_is_put};
ghost use Rattle.nvm_standard.specs.Explanation.{IsPlacedRight};
ghost use Rattle.nvm_standard.specs.Inside.Latest.{AreLatest, AreLeast};
ghost use Rattle.nvm_standard.specs.OrderView.{OrderView, seen_order, seen_placed};
ghost use Rattle.nvm_standard.specs.Places.{HasBlock, StandsAt};

use crate::order::{Order, Placed};
use crate::point::{Point, Presence, Put};
use crate::points::Points;
use crate::positions::stands_at;
use crate::timing::is_in_time;
use nvm_record::NoMemory;
use std::alloc::Global;

/// Whether anything is put.
pub fn is_put(put: Put<'_>) -> bool
    ensures { result ≡ spec_is_put (seen_put put.entry) }
{
    match put {
        Put::Nothing => false,
        Put::Bytes(_) | Put::Zeroes | Put::Mark | Put::Deallocated | Put::Anything => true,
    }
}

/// Whether the point surely puts something.
fn surely_puts(point: &Point<'_>) -> bool
    ensures { IsTrue result ↔ ((point.now.presence ≡ Sure) × (spec_is_put (seen_put point.now.put) ≡ true)) }
{
    match point.presence {
        Presence::Sure => is_put(point.put),
        _ => false,
    }
}

/// Whether what is over then is over after all that was surely put in its blocks.
fn comes_before(over: Option<u64>, placed: &Placed<'_>, latest: &Vec<u64>) -> bool
    requires { placed.now.first + placed.now.blocks ≤ length latest.now.items }
    ensures { IsTrue result ↔ ((x : ℕ) → HasBlock (seen_placed placed.now) x
        → IfSome over (λ over. slice_index latest.now.items x ≤ over)) }
{
    for at in 0..placed.blocks {
        if !is_in_time(over, latest[placed.first as usize + at as usize]) {
            return false;
        }
    }
    true
}

/// Raises the times of its blocks to this one.
fn raise(latest: &mut Vec<u64>, placed: &Placed<'_>, time: u64)
    requires { placed.now.first + placed.now.blocks ≤ length latest.old.items }
    ensures kept { (x : ℕ) → slice_index latest.old.items x ≤ slice_index latest.new.items x }
    ensures raised { (x : ℕ) → HasBlock (seen_placed placed.now) x → time ≤ slice_index latest.new.items x }
    ensures least { (x m : ℕ) → slice_index latest.old.items x ≤ m → (HasBlock (seen_placed placed.now) x → time ≤ m)
        → slice_index latest.new.items x ≤ m }
    ensures many { length latest.new.items ≡ length latest.old.items }
{
    for at in 0..placed.blocks {
        let block = placed.first as usize + at as usize;
        latest[block] = latest[block].max(time);
    }
}

/// Notes what was surely put.
fn note_put(latest: &mut Vec<u64>, placed: &Placed<'_>, point: &Point<'_>)
    requires { placed.now.first + placed.now.blocks ≤ length latest.old.items }
    ensures latest { (t : TableView) (o : OrderView) (k : ℕ) → StandsAt t o k (seen_placed placed.now) (seen point.now)
        → AreLatest t o k latest.old.items → AreLatest t o (k + 1) latest.new.items }
    ensures least { (t : TableView) (o : OrderView) (k : ℕ) → StandsAt t o k (seen_placed placed.now) (seen point.now)
        → AreLeast t o k latest.old.items → AreLeast t o (k + 1) latest.new.items }
{
    if surely_puts(point) {
        raise(latest, placed, point.from);
    }
}

/// The first position at which a Deallocate comes too late.
pub(crate) fn deallocates_late<'a, 't>(
    alloc: Global,
    points: &'a Points<'t>,
    order: &'a Order<'t>,
) -> Result<Option<usize>, NoMemory>
    requires { All (IsPlacedRight (seen_table points.now)) (seen_order order.now).placed }
    ensures right { IfOk result (λ late. IfNone late (KeepsDeallocates (seen_table points.now) (seen_order order.now))) }
    ensures wrong { IfOk result (λ late. IfSome late (λ _. KeepsDeallocates (seen_table points.now) (seen_order order.now) → ⊥)) }
{
    let mut latest = vec![in alloc; 0; points.nsze as usize]?;
    for position in 0..order.placed.len() {
        let (placed, point) = stands_at(points, order, position);
        if !comes_before(point.over, placed, &latest) {
            return Ok(Some(position));
        }
        note_put(&mut latest, placed, point);
    }
    Ok(None)
}
