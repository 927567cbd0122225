ghost use Rattle.std.specs.Prelude.{◌≡◌, ◌<◌, IfOk, length, replicate, slice_set};
ghost use Rattle.std.specs.Arc.{arc_value};
ghost use Rattle.nvm_store.specs.Inside.Rewrite.{zero_block};

use crate::blocks::source::Source;
use crate::blocks::stored_block::StoredBlock;
use crate::blocks::tree::Tree;
use nvm_record::NoMemory;
use std::alloc::Global;
use std::marker::Model;
use std::sync::Arc;

/// The lowest node: stored blocks.
#[derive(Drop)]
pub struct Leaf {
    kept: Vec<StoredBlock>,
}

impl Model for Leaf {
    ghost use Rattle.std.specs.Prelude.{List};
    ghost use Rattle.nvm_record.specs.declared.block.Block.{Block};

    ghost Value = { List Block };

    ghost view = { λ l. l.kept.items };
}

impl Leaf {
    /// `count` blocks of `size` zero bytes.
    pub fn zeroed(alloc: Global, count: usize, size: usize) -> Result<Arc<Leaf>, NoMemory>
        ensures { IfOk result (λ l. arc_value l ≡ replicate count (zero_block size)) }
    {
        let mut kept = Vec::with_capacity(alloc, count)?;
        for _ in 0..count {
            kept.push(StoredBlock::zero(size))?;
        }
        Ok(Arc::new(alloc, Leaf { kept })?)
    }

    /// Puts a block at place `at`.
    #[inline(always)]
    fn put(&mut self, at: usize, block: StoredBlock)
        requires { at < length self.old }
        ensures { self.new ≡ slice_set self.old at block }
    {
        self.kept[at] = block;
    }
}

impl Tree for Leaf {
    ghost blocks = { λ l. l };

    #[inline(always)]
    fn stretch(&self, at: usize) -> &[StoredBlock] {
        &self.kept[at..]
    }

    #[inline(always)]
    fn set(&mut self, alloc: Global, at: usize, source: &Source<'_>) -> Result<(), NoMemory> {
        self.kept[at] = source.block(alloc, 0)?;
        Ok(())
    }

    #[inline(always)]
    fn overwrite(&mut self, at: usize, bytes: &[u8]) -> bool {
        self.kept[at].overwrite(bytes)
    }

    fn fill(
        &mut self,
        alloc: Global,
        at: usize,
        from: usize,
        to: usize,
        least: usize,
        source: &Source<'_>,
    ) -> Result<usize, NoMemory> {
        if source.has_data() {
            let (other, count) = self.filled(alloc, at, from, to, least, source)?;
            *self = other;
            return Ok(count);
        }
        // Nothing of this can be refused, so the leaf changes in place.
        let count = (self.kept.len() - at).min(to - from);
        if count < least {
            return Ok(0);
        }
        for place in at..at + count {
            self.put(place, source.plain_block());
        }
        Ok(count)
    }

    fn copy(&self, alloc: Global) -> Result<Leaf, NoMemory> {
        let mut copies = Vec::with_capacity(alloc, self.kept.len())?;
        for block in &self.kept {
            copies.push(block.share()?)?;
        }
        Ok(Leaf { kept: copies })
    }

    fn filled(
        &self,
        alloc: Global,
        at: usize,
        from: usize,
        to: usize,
        least: usize,
        source: &Source<'_>,
    ) -> Result<(Leaf, usize), NoMemory> {
        let count = (self.kept.len() - at).min(to - from);
        if count < least {
            return Ok((self.copy(alloc)?, 0));
        }
        let mut copies = Vec::with_capacity(alloc, self.kept.len())?;
        for (place, block) in self.kept.iter().enumerate() {
            let next = if place >= at && place - at < count {
                source.block(alloc, from + (place - at))?
            } else {
                block.share()?
            };
            copies.push(next)?;
        }
        Ok((Leaf { kept: copies }, count))
    }
}
