ghost use Rattle.std.specs.Prelude.{◌≡◌, IfOk};
ghost use Rattle.nvm_record.specs.Medium.{Medium};
ghost use Rattle.nvm_record.specs.Step.{medium_after, statuses_of};
ghost use Rattle.nvm_store.specs.Answer.{IsAnswer};
ghost use Rattle.nvm_store.specs.Contents.{Covers, Holds, StaysInPlace};
ghost use Rattle.nvm_store.specs.Operation.{pair_operation, read_operation};

use nvm_record::laws::looks_change_nothing;
use nvm_record::{NoMemory, Payload, Statuses};
use nvm_store::laws::act_succeeds_unless_failed_pair;
use nvm_store::{ActRef, Answer, Look, UnitBlocks, answer, apply, judge};
use std::alloc::Global;

/// A fused pair that was done, and a Read behind it.
#[derive(Drop)]
pub struct PairAndRead {
    /// The statuses of the pair's Compare and of its Write.
    pub statuses: Statuses,
    /// The unit after the pair.
    pub unit: UnitBlocks,
    /// What a Read of the pair's range is answered there.
    pub read: Answer,
}

/// Does a fused Compare and Write on a unit, and reads its range. The unit that is lent stays as it is.
pub fn pair_and_read(
    alloc: Global,
    unit: &UnitBlocks,
    first: u64,
    blocks: u32,
    compare: &Payload,
    write: &Payload,
) -> Result<PairAndRead, NoMemory>
    requires { Covers unit.now (pair_operation first blocks compare.now write.now) }
    ensures told { IfOk result (λ done. (m : Medium) → Holds unit.now m
        → done.statuses ≡ statuses_of (pair_operation first blocks compare.now write.now) m) }
    ensures step { IfOk result (λ done. (m : Medium) → Holds unit.now m → Holds done.unit
        (medium_after unit.now.size (pair_operation first blocks compare.now write.now) m)) }
    ensures place { IfOk result (λ done. StaysInPlace unit.now done.unit) }
    ensures read { IfOk result (λ done. (m : Medium) → Holds done.unit m
        → IsAnswer (read_operation first blocks) m done.read) }
{
    act_succeeds_unless_failed_pair();
    looks_change_nothing();
    let pair = ActRef::Pair {
        first,
        blocks,
        compare: compare.lend(),
        write: write.lend(),
    };
    let statuses = judge(unit, pair);
    let after = if statuses.is_success() {
        apply(alloc, unit, pair)?
    } else {
        unit.share()?
    };
    let read = answer(alloc, &after, Look::Read { first, blocks })?;
    Ok(PairAndRead {
        statuses,
        unit: after,
        read,
    })
}
