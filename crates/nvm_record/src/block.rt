ghost use Rattle.std.specs.Prelude.{◌≡◌};

use crate::payload::Payload;
use std::alloc::AllocError;

/// What a logical block holds: its bytes, or the mark that Write Uncorrectable leaves.
#[derive(Debug, PartialEq, Eq, Drop)]
pub enum Block {
    /// Its bytes, as many as a block has.
    Bytes(Payload),
    /// The mark: what reads or compares the block isn't answered 0/00.
    Uncorrectable,
}

/// A copy of the block, which shares its bytes.
impl Clone for Block {
    ghost is_clone = { λ block copy. copy ≡ block };

    fn clone(&self) -> Result<Block, AllocError> {
        match self {
            Block::Bytes(bytes) => {
                let bytes = bytes.clone()?;
                Ok(Block::Bytes(bytes))
            }
            Block::Uncorrectable => Ok(Block::Uncorrectable),
        }
    }
}
