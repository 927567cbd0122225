//! The seats of all passes, when a unit begins and when it ends.
ghost use Rattle.std.specs.Prelude.{◌≡◌, ℕ, ◌<◌, ◌≤◌, [], map, length, IfOk};
ghost use Rattle.nvm_unit.specs.Ends.{pass_at, views_of};
ghost use Rattle.nvm_unit.specs.Machine.{newcomers_from};
ghost use Rattle.nvm_record.specs.Lists.{IsAt};
ghost use Rattle.nvm_unit.specs.Passes.{PassState};
ghost use Rattle.nvm_unit.specs.Inside.Book.{recorded};
ghost use Rattle.nvm_unit.specs.Inside.Plays.{resting};
ghost use Rattle.nvm_unit.specs.Inside.Snapshot.{IsVersionOf};

use crate::kept::Kept;
use crate::pass::{Parts, Pass};
use crate::snapshot::Snapshot;
use crate::steps;
use crate::steps::{Desk, Token};
use nvm_record::NoMemory;
use nvm_store::UnitBlocks;
use std::alloc::Global;

/// The passes of a new unit, which are all at this seat, each at a seat of its own. With `versions`, each keeps the
/// opening version.
pub(crate) fn deal<K: Kept>(
    alloc: Global,
    desk: &Desk<K>,
    token: Token<K>,
    count: u16,
    blocks: &UnitBlocks,
    versions: bool,
) -> Result<Vec<Pass<K>>, NoMemory>
    requires at { token.seat.table_id ≡ desk.now.table.shared.table_id }
    requires all { token.seat.me ≡ resting (newcomers_from desk.now.table.shared.key 0 count) }
    requires version { IsVersionOf (recorded desk.now.table.shared.key []) blocks.now }
    ensures { IfOk result (λ v. v.items ≡ map (pass_at desk.now.table.shared.table_id versions)
        (newcomers_from desk.now.table.shared.key 0 count)) }
{
    let mut token = token;
    let mut passes = Vec::with_capacity(alloc, usize::from(count))?;
    for number in 0..count {
        let others = steps::split(desk, &mut token);
        let parts = Parts {
            token,
            number,
            snapshot: Snapshot::opening(blocks, versions)?,
        };
        passes.push(Pass { parts })?;
        token = others;
    }
    Ok(passes)
}

/// All passes at one seat, in their order.
pub(crate) fn gather<K: Kept>(desk: &Desk<K>, all: Vec<Pass<K>>) -> Token<K>
    requires some { 0 < length all.items }
    requires of { (i : ℕ) (pass : PassState) → IsAt all.items i pass
        → pass.table ≡ desk.now.table.shared.table_id }
    ensures at { result.seat.table_id ≡ desk.now.table.shared.table_id }
    ensures all { result.seat.me ≡ resting (views_of all.items) }
{
    let mut left = all;
    let Some(last) = left.pop() else {
        unreachable!()
    };
    let mut token = last.into_token();
    while let Some(pass) = left.pop() {
        let mut seat = pass.into_token();
        steps::join(desk, &mut seat, token);
        token = seat;
    }
    token
}
