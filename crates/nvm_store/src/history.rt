ghost use Rattle.std.specs.Prelude.{◌+◌, ◌^◌, ◌<◌, ◌≤◌, IfOk};
ghost use Rattle.nvm_store.specs.Contents.{Holds, LiesAt};
ghost use Rattle.nvm_store.specs.History.{replay_of, IsLawfulHistory};
ghost use Rattle.nvm_store.specs.Place.{place_at};

use crate::entry::Entry;
use crate::laws::success_on_held;
use crate::unit_blocks::UnitBlocks;
use nvm_record::{BlockSize, NoMemory};
use std::alloc::Global;

/// The changes of a unit, oldest first.
pub type History = Vec<Entry>;

/// The unit of `blocks` blocks from LBA `first` after all entries of its history, in order. Without
/// an entry all its blocks are zero bytes.
///
/// Each entry costs what its own blocks and their ways in the tree cost, and shares its data.
pub fn replay(
    alloc: Global,
    first: u64,
    blocks: u32,
    size: BlockSize,
    history: &History,
) -> Result<UnitBlocks, NoMemory>
    requires some { 0 < blocks }
    requires low { first + blocks ≤ 2 ^ 40 }
    requires lawful { IsLawfulHistory (place_at first blocks size) history.now.items }
    ensures place { IfOk result (LiesAt (place_at first blocks size)) }
    ensures replayed { IfOk result (λ unit. Holds unit (replay_of size history.now.items)) }
{
    success_on_held();
    let mut unit = UnitBlocks::zeroed(alloc, first, blocks, size)?;
    for entry in history {
        unit.change(alloc, entry.act.as_ref())?;
    }
    Ok(unit)
}
