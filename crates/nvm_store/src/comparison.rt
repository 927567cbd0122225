ghost use Rattle.std.specs.Prelude.{◌≡◌, ◌*◌, ℕ, List, length};
ghost use Rattle.nvm_record.specs.Medium.{Medium, range};
ghost use Rattle.nvm_record.specs.Step as step;
ghost use Rattle.nvm_record.specs.Step.{statuses_of};
ghost use Rattle.nvm_store.specs.Contents.{Holds, place_of};
ghost use Rattle.nvm_store.specs.Operation.{pair_operation};
ghost use Rattle.nvm_store.specs.Place.{IsWithin};

use crate::unit_blocks::UnitBlocks;
use nvm_record::{Status, Statuses};

/// How the comparison of the `blocks` LBAs from `first` with the data ends: 2/81 where a block is marked,
/// whatever the others hold, else 2/85 where a byte differs, else 0/00. It takes no memory.
pub fn compare_range(unit: &UnitBlocks, first: u64, blocks: u32, payload: &[u8]) -> Status
    requires range { IsWithin (place_of unit.now) first blocks }
    requires payload { length payload.now ≡ blocks * unit.now.size }
    ensures { (m : Medium) → Holds unit.now m
        → result ≡ step.comparison (range m first blocks) payload.now }
{
    let Some(same) = unit.compare(first, blocks, payload) else {
        return Status::UNRECOVERED_READ_ERROR;
    };
    if same {
        Status::SUCCESSFUL_COMPLETION
    } else {
        Status::COMPARE_FAILURE
    }
}

/// The statuses of a pair: the comparison's, and the Write's, which is aborted where the comparison
/// doesn't hold.
pub fn pair_statuses(unit: &UnitBlocks, first: u64, blocks: u32, compare: &[u8]) -> Statuses
    requires range { IsWithin (place_of unit.now) first blocks }
    requires payload { length compare.now ≡ blocks * unit.now.size }
    ensures { (m : Medium) (write : List ℕ) → Holds unit.now m
        → result ≡ statuses_of (pair_operation first blocks compare.now write) m }
{
    let compared = compare_range(unit, first, blocks, compare);
    if compared == Status::SUCCESSFUL_COMPLETION {
        return Statuses::Two(compared, Status::SUCCESSFUL_COMPLETION);
    }
    Statuses::Two(compared, Status::ABORTED_DUE_TO_FAILED_FUSED_COMMAND)
}
