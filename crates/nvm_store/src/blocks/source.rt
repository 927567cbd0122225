ghost use Rattle.std.specs.Prelude.{◌≡◌, ◌+◌, ℕ, IfOk, false};
ghost use Rattle.nvm_store.specs.Inside.Source.{source_block, has_data, HasBlocks};

use crate::blocks::stored_block::StoredBlock;
use nvm_record::{NoMemory, PayloadRef};
use std::alloc::Global;

/// The new blocks of a range, by their places in it: parts of data of this block size in bytes, zero
/// bytes, or marks.
#[derive(Clone, Copy)]
pub enum Source<'a> {
    Data {
        size: usize,
        payload: PayloadRef<'a>,
    },
    Zeroes {
        size: usize,
    },
    Marks,
}

impl Source<'_> {
    /// Whether its blocks have data, so that making one of them may be refused.
    pub fn has_data(&self) -> bool
        ensures { result ≡ has_data self.now }
    {
        matches!(self, Source::Data { .. })
    }

    /// The block for each place of the range, of a source without data.
    pub fn plain_block(&self) -> StoredBlock
        requires { has_data self.now ≡ false }
        ensures { (i : ℕ) → result ≡ source_block self.now i }
    {
        match self {
            Source::Data { .. } => unreachable!("it has no data"),
            Source::Zeroes { size } => StoredBlock::zero(*size),
            Source::Marks => StoredBlock::marked(),
        }
    }

    /// The block for place `i` of the range. It takes memory where nobody shares the data.
    #[inline(always)]
    pub fn block(&self, alloc: Global, i: usize) -> Result<StoredBlock, NoMemory>
        requires { HasBlocks self.now (i + 1) }
        ensures { IfOk result (λ block. block ≡ source_block self.now i) }
    {
        match self {
            Source::Data { size, payload } => {
                // A length fits, so each place up to it does.
                let _len = payload.len();
                let from = i * *size;
                let part = payload.part(from, from + *size).share(alloc)?;
                Ok(StoredBlock::of_data(part))
            }
            Source::Zeroes { .. } | Source::Marks => Ok(self.plain_block()),
        }
    }
}
