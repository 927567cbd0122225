//! Threads on one unit of LBAs 0 to 7 with blocks of 512 bytes.
mod changing;
mod held;

ghost use Rattle.std.specs.Prelude.{◌≡◌, All, IfOk, true};
ghost use Rattle.nvm_unit.specs.Passes.{IsPassOf};

use crate::holding::NO_MEMORY;
use nvm_record::BlockSize;
use nvm_store::{Limit, Place};
use nvm_unit::{Pass, Unit};
use std::alloc::Global;
use std::test::Fail;

const PLACE: Place = Place {
    first: 0,
    blocks: 8,
    size: BlockSize::BYTES_512,
};

/// A new unit, and its passes.
fn opened(alloc: Global, passes: u16, limit: u32) -> Result<(Unit, Vec<Pass>), Fail>
    ensures of { IfOk result (λ u. All (IsPassOf u.0) u.1.items) }
    ensures versions { IfOk result (λ u. u.0.versions ≡ true) }
{
    let limit = Limit::new(limit).ok_or("there is no such limit")?;
    match Unit::new(alloc, 0, PLACE, passes, limit) {
        Ok(opened) => Ok(opened),
        Err(_) => Err(Fail::new(NO_MEMORY)),
    }
}
