ghost use Rattle.std.specs.Prelude.{◌≡◌, ℕ, ◌<◌, Ok};
ghost use Rattle.nvm_store.specs.Operation.{read_operation, write_operation};
ghost use Rattle.nvm_store.specs.Place.{IsCovered};
ghost use Rattle.nvm_unit.specs.Passes.{IsPassOf};
ghost use Rattle.nvm_unit.specs.Replies.{Makes, Observes};
ghost use Rattle.nvm_unit.specs.declared.replies.Changed.TheVariants.{Done};
ghost use Rattle.nvm_unit.specs.declared.replies.Observed.{Observed as Found};
ghost use Rattle.nvm_unit.specs.declared.views.PassView.{PassView};

use nvm_record::Payload;
use nvm_store::{ActRef, Look};
use nvm_unit::laws::{changes_mark_their_points, looks_mark_their_points};
use nvm_unit::{Changed, ObserveFault, Observed, Open, Pass, Unit};
use std::alloc::Global;
use std::sync::Wait;

/// What a Write was answered, and then a Read of its range.
#[derive(Drop)]
pub struct WriteAndRead {
    pub write: Changed,
    pub read: Result<Observed, ObserveFault>,
}

/// Does a Write as a part of the job of this number, and then a Read of its range. It waits for the unit, twice; between
/// the two, others may change it.
pub fn write_and_read<R: Wait>(
    rt: &R,
    alloc: Global,
    unit: &Unit,
    pass: &mut Pass,
    job: u32,
    first: u64,
    blocks: u32,
    payload: &Payload,
) -> WriteAndRead
    requires of { IsPassOf unit.now pass.old }
    requires covered { IsCovered unit.now.bounds.place (write_operation first blocks payload.now) }
    ensures of { IsPassOf unit.now pass.new }
    ensures number { pass.new.view.number ≡ pass.old.view.number }
    ensures steps { (between : PassView)
        × Makes result.write pass.old.view job (write_operation first blocks payload.now) between
        × Observes result.read between (read_operation first blocks) pass.new.view }

    // The Read sees the Write, where that was done.
    ensures behind { (point : ℕ) (found : Found) → result.write ≡ Done point → result.read ≡ Ok found
        → point < found.point }
{
    changes_mark_their_points();
    looks_mark_their_points();
    let act = ActRef::Write {
        first,
        blocks,
        payload: payload.lend(),
    };
    let write = unit.change(rt, alloc, pass, job, act, &Open);
    let read = unit.observe(rt, alloc, pass, Look::Read { first, blocks });
    WriteAndRead { write, read }
}
