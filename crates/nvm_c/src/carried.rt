//! How much data goes with C's entries.
ghost use Rattle.std.specs.Prelude.{◌≡◌, length};
ghost use Rattle.nvm_record.specs.BlockSize.{IsBlockSize};
ghost use Rattle.nvm_c.specs.Carried as spec;
ghost use Rattle.nvm_c.specs.Carried.{IsCarried, no_length};

use crate::asking::{called, reads};
use nvm_record::{BlockSize, entry_fields};

/// What is answered where no data is right. No memory holds as much.
const NO_LENGTH: usize = usize::MAX;

/// How many bytes of data a submission of these entries takes in a namespace of such blocks: those that it carries, or the room
/// for what it reads.
pub(crate) fn carried(entries: &[[u8; 64]], block_size: u32) -> usize
    ensures length { IsBlockSize block_size → IsCarried block_size entries.now result }
    ensures none { ¬ (IsBlockSize block_size) → result ≡ no_length }
{
    let Some(size) = BlockSize::new(block_size) else {
        return NO_LENGTH;
    };
    match entries {
        [entry] => carried_alone(size, entry),
        [first, second] => called(size, first) + called(size, second),
        _ => NO_LENGTH,
    }
}

/// How many it takes with an entry by itself.
fn carried_alone(size: BlockSize, entry: &[u8]) -> usize
    requires { length entry.now ≡ 64 }
    ensures { result ≡ spec.carried_alone size entry.now }
{
    let fields = entry_fields(entry);
    if reads(fields.op) {
        return (usize::from(fields.nlb) + 1) * size.bytes() as usize;
    }
    called(size, entry)
}
