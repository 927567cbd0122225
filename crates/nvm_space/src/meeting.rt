//! How two ports meet: in one region after the other.
ghost use Rattle.std.specs.Prelude.{◌≡◌, ℕ};
ghost use Rattle.nvm_unit.specs.Ends.{views_of};
ghost use Rattle.nvm_space.specs.Ports.{ArePassesOfAll};
ghost use Rattle.nvm_space.specs.Visits.{MeetInEach};

use nvm_unit::{Kept, Pass, Unit};
use std::sync::Wait;

/// Brings the two passes of each region to one history.
pub(crate) fn meet_in_each<R: Wait, K: Kept>(
    rt: &R,
    units: &[Unit<K>],
    one: &mut Vec<Pass<K>>,
    other: &mut Vec<Pass<K>>,
)
    requires one { (n : ℕ) × ArePassesOfAll units.now n one.old.items }
    requires other { (n : ℕ) × ArePassesOfAll units.now n other.old.items }
    ensures one { (n : ℕ) → ArePassesOfAll units.now n one.old.items → ArePassesOfAll units.now n one.new.items }
    ensures other { (n : ℕ) → ArePassesOfAll units.now n other.old.items
        → ArePassesOfAll units.now n other.new.items }
    ensures met { MeetInEach (views_of one.old.items) (views_of other.old.items) (views_of one.new.items)
        (views_of other.new.items) }
{
    for place in 0..units.len() {
        units[place].meet(rt, &mut one[place], &mut other[place]);
    }
}
