ghost use Rattle.std.specs.Prelude.{◌≡◌, ◌+◌, ◌++◌, ◌≤◌, ℕ, All, List, MatchOption, OnOk, length, take};
ghost use Rattle.std.specs.Bool.{OnTrue};
ghost use Rattle.nvm_record.specs.Medium as medium;
ghost use Rattle.nvm_store.specs.Inside.Rewrite.{zero_block};

use crate::blocks::stored_block::StoredBlock;
use nvm_record::NoMemory;

/// Whether one of them is marked.
pub fn has_mark(blocks: &[StoredBlock]) -> bool
    ensures { result ≡ medium.has_mark blocks.now }
{
    for block in blocks {
        if block.is_marked() {
            return true;
        }
    }
    false
}

/// Whether all of them are kept as `size` zero bytes.
pub fn are_kept_as_zero(blocks: &[StoredBlock], size: usize) -> bool
    ensures { OnTrue result (All (λ block. block ≡ zero_block size) blocks.now) }
{
    for block in blocks {
        if !block.is_kept_as_zero(size) {
            return false;
        }
    }
    true
}

/// Appends the bytes of the blocks, one block after the other.
pub fn push_bytes(blocks: &[StoredBlock], bytes: &mut Vec<u8>) -> Result<(), NoMemory>
    ensures { OnOk result (bytes.new.items ≡ bytes.old.items ++ medium.joined blocks.now) }
{
    for block in blocks {
        block.push_bytes(bytes)?;
    }
    Ok(())
}

/// Puts the bytes of the blocks, one block after the other, into the buffer from place `from` on, and answers where they end.
pub fn copy_to(blocks: &[StoredBlock], buffer: &mut [u8], from: usize) -> usize
    requires { from + length (medium.joined blocks.now) ≤ length buffer.old }
    ensures to { result ≡ from + length (medium.joined blocks.now) }
    ensures put { take result buffer.new ≡ take from buffer.old ++ medium.joined blocks.now }
{
    let mut to = from;
    for block in blocks {
        to = block.copy_to(buffer, to);
    }
    to
}

/// The data after the bytes of the blocks, or `None` where it doesn't begin with them.
pub fn behind<'a>(blocks: &[StoredBlock], payload: &'a [u8]) -> Option<&'a [u8]>
    ensures { MatchOption result
        ((rest : List ℕ) → medium.joined blocks.now ++ rest ≡ payload.now → ⊥)
        (λ rest. medium.joined blocks.now ++ rest.now ≡ payload.now) }
{
    let mut rest = payload;
    for block in blocks {
        rest = block.behind(rest)?;
    }
    Some(rest)
}
