ghost use Rattle.std.specs.Prelude.{◌≡◌, ◌*◌, ◌<◌, IfOk, length, replicate};
ghost use Rattle.std.specs.Arc.{arc_value};
ghost use Rattle.nvm_record.specs.declared.block.Block.{Block};

use crate::blocks::source::Source;
use crate::blocks::stored_block::StoredBlock;
use crate::blocks::tree::{Tree, fill_in, overwrite_in, set_in};
use nvm_record::NoMemory;
use std::alloc::Global;
use std::marker::Model;
use std::sync::Arc;

/// A node over nodes of the level below, each of which has `SPAN` blocks and may be shared.
#[derive(Drop)]
pub struct Fork<T: Tree, const SPAN: usize> {
    kids: Vec<Arc<T>>,
}

impl<T: Tree, const SPAN: usize> Model for Fork<T, SPAN> {
    ghost use Rattle.std.specs.Prelude.{List};
    ghost use Rattle.nvm_record.specs.declared.block.Block.{Block};
    ghost use Rattle.nvm_store.specs.Inside.Tree.{joined_parts, parts_of, IsFork};

    ghost Value = { List Block };

    ghost view = { λ f. joined_parts (parts_of T.blocks f.kids.items) };

    ghost invariant = { λ f. IsFork SPAN (parts_of T.blocks f.kids.items) };
}

impl<T: Tree, const SPAN: usize> Fork<T, SPAN> {
    /// A fork of `count` children, all of them this one node, which has `SPAN` blocks.
    pub fn of(alloc: Global, node: Arc<T>, count: usize) -> Result<Arc<Fork<T, SPAN>>, NoMemory>
        requires some { 0 < SPAN }
        requires span { length (T.blocks (arc_value node)) ≡ SPAN }
        ensures { IfOk result (λ f. (block : Block) → T.blocks (arc_value node) ≡ replicate SPAN block
            → arc_value f ≡ replicate (count * SPAN) block) }
    {
        let mut kids = Vec::with_capacity(alloc, count)?;
        for _ in 0..count {
            kids.push(Arc::try_clone(&node)?)?;
        }
        Ok(Arc::new(alloc, Fork { kids })?)
    }
}

impl<T: Tree, const SPAN: usize> Tree for Fork<T, SPAN> {
    ghost blocks = { λ f. f };

    #[inline(always)]
    fn stretch(&self, at: usize) -> &[StoredBlock] {
        let kid = &self.kids[at / SPAN];
        kid.stretch(at % SPAN)
    }

    #[inline(always)]
    fn set(&mut self, alloc: Global, at: usize, source: &Source<'_>) -> Result<(), NoMemory> {
        set_in(&mut self.kids[at / SPAN], alloc, at % SPAN, source)
    }

    #[inline(always)]
    fn overwrite(&mut self, at: usize, bytes: &[u8]) -> bool {
        overwrite_in(&mut self.kids[at / SPAN], at % SPAN, bytes)
    }

    fn fill(
        &mut self,
        alloc: Global,
        at: usize,
        from: usize,
        to: usize,
        least: usize,
        source: &Source<'_>,
    ) -> Result<usize, NoMemory> {
        fill_in(
            &mut self.kids[at / SPAN],
            alloc,
            at % SPAN,
            from,
            to,
            least,
            source,
        )
    }

    fn copy(&self, alloc: Global) -> Result<Fork<T, SPAN>, NoMemory> {
        let mut copies = Vec::with_capacity(alloc, self.kids.len())?;
        for kid in &self.kids {
            copies.push(Arc::try_clone(kid)?)?;
        }
        Ok(Fork { kids: copies })
    }

    fn filled(
        &self,
        alloc: Global,
        at: usize,
        from: usize,
        to: usize,
        least: usize,
        source: &Source<'_>,
    ) -> Result<(Fork<T, SPAN>, usize), NoMemory> {
        let mut other = self.copy(alloc)?;
        let count = other.fill(alloc, at, from, to, least, source)?;
        Ok((other, count))
    }
}
