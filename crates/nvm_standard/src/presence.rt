ghost use Rattle.std.specs.Prelude.{◌≡◌, ◌≢◌, ◌↔◌, ℕ, ◌+◌, ◌<◌, ◌≤◌, IsTrue, length, slice_index};
ghost use Rattle.nvm_standard.specs.PointView.{seen};
ghost use Rattle.nvm_standard.specs.Inside.Right.{HasOne, IsAsPresent, IsEmpty, IsFull};

use crate::point::{Point, Presence};

/// Whether all blocks were done.
fn is_full(row: &Vec<usize>) -> bool
    ensures { IsTrue result ↔ IsFull row.now.items }
{
    for place in 0..row.len() {
        if row[place] == 0 {
            return false;
        }
    }
    true
}

/// Whether none was done at this place or after it.
fn none_from(row: &Vec<usize>, from: usize) -> bool
    ensures { IsTrue result ↔ ((a : ℕ) → from ≤ a → slice_index row.now.items a ≡ 0) }
{
    for place in from..row.len() {
        if row[place] != 0 {
            return false;
        }
    }
    true
}

/// The place of the first block that was done, or past the end.
fn first_done(row: &Vec<usize>) -> usize
    ensures before { (a : ℕ) → a < result → slice_index row.now.items a ≡ 0 }
    ensures there { result < length row.now.items → slice_index row.now.items result ≢ 0 }
{
    for place in 0..row.len() {
        if row[place] != 0 {
            return place;
        }
    }
    row.len()
}

/// Whether exactly one was done.
fn has_one(row: &Vec<usize>) -> bool
    ensures { IsTrue result ↔ HasOne row.now.items }
{
    let place = first_done(row);
    place < row.len() && none_from(row, place + 1)
}

/// Whether the row is as the point's presence says.
pub(crate) fn is_as_present(point: &Point<'_>, row: &Vec<usize>) -> bool
    ensures { IsTrue result ↔ IsAsPresent (seen point.now) row.now.items }
{
    match point.presence {
        Presence::Sure => is_full(row),
        Presence::Optional | Presence::Repeated => true,
        Presence::OneOf => has_one(row),
        Presence::Together => is_full(row) || none_from(row, 0),
    }
}
