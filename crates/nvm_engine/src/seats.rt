//! The seats of all workers, when a counter is made and when it is closed.
ghost use Rattle.std.specs.Prelude.{◌≡◌, ◌<◌, [], replicate, length, All, IfOk};
ghost use Rattle.nvm_engine.specs.Counters.{new_claim, lists_of};
ghost use Rattle.nvm_engine.specs.Inside.Plays.{resting};

use crate::claim::Claim;
use crate::steps;
use crate::steps::{Desk, Token};
use nvm_record::NoMemory;
use std::alloc::Global;

/// A claim for each of the workers, which are all at this seat and have drawn nothing.
pub(crate) fn deal(
    alloc: Global,
    desk: &Desk,
    token: Token,
    workers: u16,
) -> Result<Vec<Claim>, NoMemory>
    requires at { token.seat.table_id ≡ desk.now.table.shared.table_id }
    requires all { token.seat.me ≡ resting (replicate workers []) }
    ensures { IfOk result (λ v. v.items ≡ replicate workers (new_claim desk.now.table.shared.table_id)) }
{
    let mut token = token;
    let mut claims = Vec::with_capacity(alloc, usize::from(workers))?;
    for number in 0..workers {
        let others = steps::split(desk, &mut token);
        claims.push(Claim { token })?;
        token = others;
    }
    Ok(claims)
}

/// All workers at one seat, in the order of their claims.
pub(crate) fn gather(desk: &Desk, all: Vec<Claim>) -> Token
    requires some { 0 < length all.items }
    requires of { All (λ c. c.table ≡ desk.now.table.shared.table_id) all.items }
    ensures at { result.seat.table_id ≡ desk.now.table.shared.table_id }
    ensures all { result.seat.me ≡ resting (lists_of all.items) }
{
    let mut left = all;
    let Some(last) = left.pop() else {
        unreachable!()
    };
    let mut token = last.into_token();
    while let Some(claim) = left.pop() {
        let mut seat = claim.into_token();
        steps::join(desk, &mut seat, token);
        token = seat;
    }
    token
}
