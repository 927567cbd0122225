ghost use Rattle.std.specs.Prelude.{◌≡◌, ◌<◌, List, length, IfOk, OnOk, OnErr, false, slice_set, true};
ghost use Rattle.std.specs.Arc.{arc_value};
ghost use Rattle.nvm_record.specs.declared.block.Block.{Block};
ghost use Rattle.nvm_record.specs.declared.block.Block.TheVariants.{Bytes};
ghost use Rattle.nvm_store.specs.Inside.Source.{HasBlocks, IsFilled, source_block};
ghost use Rattle.nvm_store.specs.Inside.Tree.{IsStretch};

use crate::blocks::source::Source;
use crate::blocks::stored_block::StoredBlock;
use nvm_record::NoMemory;
use std::alloc::Global;
use std::sync::Arc;

/// A node of any level: blocks at places from 0.
pub trait Tree: Drop {
    /// Its blocks.
    ghost blocks: { Self → List Block };

    /// The stored blocks from place `at` to the end of their leaf.
    fn stretch(&self, at: usize) -> &[StoredBlock]
        requires { at < length (blocks self.now) }
        ensures { IsStretch (blocks self.now) at result.now };

    /// Puts the source's first block at place `at`, in place where nobody shares a node on its path. A node that somebody
    /// shares is copied first. Where memory is refused, all blocks are as they were.
    fn set(&mut self, alloc: Global, at: usize, source: &Source<'_>) -> Result<(), NoMemory>
        requires range { at < length (blocks self.old) }
        requires source { HasBlocks source.now 1 }
        ensures ok { OnOk result (blocks self.new ≡ slice_set (blocks self.old) at (source_block source.now 0)) }
        ensures err { OnErr result (blocks self.new ≡ blocks self.old) };

    /// Puts these bytes in the place of those of the block at place `at`, and says whether it did. It does where nobody shares a node on its path or
    /// its memory, and it has as many.
    fn overwrite(&mut self, at: usize, bytes: &[u8]) -> bool
        requires { at < length (blocks self.old) }
        ensures taken { result ≡ true → blocks self.new ≡ slice_set (blocks self.old) at (Bytes bytes.now) }
        ensures left { result ≡ false → blocks self.new ≡ blocks self.old };

    /// Puts the source's blocks from place `from` up to place `to` at the places from `at` on, as far as
    /// these are in one leaf, and answers how many. Where fewer than `least` do, it answers 0 and does
    /// nothing. Nodes that somebody shares are copied first. Where memory is refused, all blocks are as they
    /// were.
    fn fill(
        &mut self,
        alloc: Global,
        at: usize,
        from: usize,
        to: usize,
        least: usize,
        source: &Source<'_>,
    ) -> Result<usize, NoMemory>
        requires range { at < length (blocks self.old) }
        requires some { from < to }
        requires least { 0 < least }
        requires source { HasBlocks source.now to }
        ensures ok { IfOk result
            (λ n. IsFilled source.now at from to least n (blocks self.old) (blocks self.new)) }
        ensures err { OnErr result (blocks self.new ≡ blocks self.old) };

    /// The same blocks in a node that nobody shares, over the same children.
    fn copy(&self, alloc: Global) -> Result<Self, NoMemory>
        ensures { IfOk result (λ tree. blocks tree ≡ blocks self.now) };

    /// A copy that was filled, and how many of its blocks were.
    fn filled(
        &self,
        alloc: Global,
        at: usize,
        from: usize,
        to: usize,
        least: usize,
        source: &Source<'_>,
    ) -> Result<(Self, usize), NoMemory>
        requires range { at < length (blocks self.now) }
        requires some { from < to }
        requires least { 0 < least }
        requires source { HasBlocks source.now to }
        ensures { IfOk result
            (λ made. IsFilled source.now at from to least made.1 (blocks self.now) (blocks made.0)) };
}

/// Puts the source's first block at place `at` of the node, in the node itself where nobody shares it, and else in a copy.
/// Where memory is refused, all blocks are as they were.
#[inline(always)]
pub fn set_in<T: Tree>(
    node: &mut Arc<T>,
    alloc: Global,
    at: usize,
    source: &Source<'_>,
) -> Result<(), NoMemory>
    requires range { at < length (T.blocks (arc_value node.old)) }
    requires source { HasBlocks source.now 1 }
    ensures ok { OnOk result
        (T.blocks (arc_value node.new) ≡ slice_set (T.blocks (arc_value node.old)) at (source_block source.now 0)) }
    ensures err { OnErr result (T.blocks (arc_value node.new) ≡ T.blocks (arc_value node.old)) }
{
    match Arc::get_mut(node) {
        Some(own) => own.set(alloc, at, source),
        None => {
            let mut other = node.copy(alloc)?;
            other.set(alloc, at, source)?;
            *node = Arc::new(alloc, other)?;
            Ok(())
        }
    }
}

/// Puts these bytes in the place of those of the node's block at place `at`, where nobody shares the node either.
#[inline(always)]
pub fn overwrite_in<T: Tree>(node: &mut Arc<T>, at: usize, bytes: &[u8]) -> bool
    requires { at < length (T.blocks (arc_value node.old)) }
    ensures taken { result ≡ true
        → T.blocks (arc_value node.new) ≡ slice_set (T.blocks (arc_value node.old)) at (Bytes bytes.now) }
    ensures left { result ≡ false → T.blocks (arc_value node.new) ≡ T.blocks (arc_value node.old) }
{
    match Arc::get_mut(node) {
        Some(own) => own.overwrite(at, bytes),
        None => false,
    }
}

/// Fills blocks of the node from place `at` on, in the node itself where nobody shares it, and else in a
/// copy. Where memory is refused, all blocks are as they were.
pub fn fill_in<T: Tree>(
    node: &mut Arc<T>,
    alloc: Global,
    at: usize,
    from: usize,
    to: usize,
    least: usize,
    source: &Source<'_>,
) -> Result<usize, NoMemory>
    requires range { at < length (T.blocks (arc_value node.old)) }
    requires some { from < to }
    requires least { 0 < least }
    requires source { HasBlocks source.now to }
    ensures ok { IfOk result (λ n. IsFilled source.now at from to least n
        (T.blocks (arc_value node.old)) (T.blocks (arc_value node.new))) }
    ensures err { OnErr result (T.blocks (arc_value node.new) ≡ T.blocks (arc_value node.old)) }
{
    match Arc::get_mut(node) {
        Some(own) => own.fill(alloc, at, from, to, least, source),
        None => {
            let (filled, count) = node.filled(alloc, at, from, to, least, source)?;
            *node = Arc::new(alloc, filled)?;
            Ok(count)
        }
    }
}
