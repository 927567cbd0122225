ghost use Rattle.std.specs.Prelude.{◌≡◌, ◌<◌, IfOk, OnErr, OnOk, false, length, slice_set, true};
ghost use Rattle.nvm_record.specs.declared.block.Block.TheVariants.{Bytes};
ghost use Rattle.nvm_store.specs.Inside.Rewrite.{zero_block};
ghost use Rattle.nvm_store.specs.Inside.Levels.{AreAll, blocks_of};
ghost use Rattle.nvm_store.specs.Inside.Source.{HasBlocks, IsFilled, source_block};
ghost use Rattle.nvm_store.specs.Inside.Tree.{IsStretch};

use crate::blocks::fork::Fork;
use crate::blocks::leaf::Leaf;
use crate::blocks::source::Source;
use crate::blocks::stored_block::StoredBlock;
use crate::blocks::tree::{Tree, fill_in, overwrite_in, set_in};
use nvm_record::NoMemory;
use std::alloc::Global;
use std::sync::Arc;

/// The most blocks of a leaf.
pub const LEAF: usize = 8;
/// How many children a fork over leaves, or over forks over leaves, has that isn't the top.
const CHILDREN: usize = 16;
/// The blocks of a fork over leaves that isn't the top.
const TWO: usize = 128;
/// The blocks of a fork over forks over leaves that isn't the top.
const THREE: usize = 2_048;
/// How many children a fork over forks of [`THREE`] has that isn't the top.
const WIDE: usize = 256;
/// The blocks of such a fork.
const FOUR: usize = 524_288;
/// The most blocks of a tree of two, three and four levels: the top has as many children as these take, 65 and 257 and 513.
const TWO_LEVELS: usize = 512;

const THREE_LEVELS: usize = 32_768;

const FOUR_LEVELS: usize = 1_048_576;

/// The tree of some blocks, with as many levels as their number calls for. The top has as many children as it takes: 33 of four levels for 65,536 blocks,
/// and 513 of five for 2^28.
#[derive(Drop)]
pub enum Levels {
    One(Arc<Leaf>),
    Two(Arc<Fork<Leaf, LEAF>>),
    Three(Arc<Fork<Fork<Leaf, LEAF>, TWO>>),
    Four(Arc<Fork<Fork<Fork<Leaf, LEAF>, TWO>, THREE>>),
    Five(Arc<Fork<Fork<Fork<Fork<Leaf, LEAF>, TWO>, THREE>, FOUR>>),
}

impl Levels {
    /// At least `count` blocks of `size` zero bytes. All leaves are one leaf, and all forks of a level one
    /// fork, so it takes the memory of one path.
    pub fn zeroed(alloc: Global, count: usize, size: usize) -> Result<Levels, NoMemory>
        ensures { IfOk result (λ levels. AreAll count (zero_block size) (blocks_of levels)) }
    {
        if count <= LEAF {
            return Ok(Levels::One(Leaf::zeroed(alloc, count, size)?));
        }
        let leaf = Leaf::zeroed(alloc, LEAF, size)?;
        if count <= TWO_LEVELS {
            return Ok(Levels::Two(Fork::of(alloc, leaf, count / LEAF + 1)?));
        }
        let two = Fork::of(alloc, leaf, CHILDREN)?;
        if count <= THREE_LEVELS {
            return Ok(Levels::Three(Fork::of(alloc, two, count / TWO + 1)?));
        }
        let three = Fork::of(alloc, two, CHILDREN)?;
        if count <= FOUR_LEVELS {
            return Ok(Levels::Four(Fork::of(alloc, three, count / THREE + 1)?));
        }
        let four = Fork::of(alloc, three, WIDE)?;
        Ok(Levels::Five(Fork::of(alloc, four, count / FOUR + 1)?))
    }

    /// The same tree, shared. It takes no memory.
    pub fn share(&self) -> Result<Levels, NoMemory>
        ensures { IfOk result (λ levels. blocks_of levels ≡ blocks_of self.now) }
    {
        match self {
            Levels::One(node) => Ok(Levels::One(Arc::try_clone(node)?)),
            Levels::Two(node) => Ok(Levels::Two(Arc::try_clone(node)?)),
            Levels::Three(node) => Ok(Levels::Three(Arc::try_clone(node)?)),
            Levels::Four(node) => Ok(Levels::Four(Arc::try_clone(node)?)),
            Levels::Five(node) => Ok(Levels::Five(Arc::try_clone(node)?)),
        }
    }

    /// The stored blocks from place `at` to the end of their leaf.
    #[inline(always)]
    pub fn stretch(&self, at: usize) -> &[StoredBlock]
        requires { at < length (blocks_of self.now) }
        ensures { IsStretch (blocks_of self.now) at result.now }
    {
        match self {
            Levels::One(node) => node.stretch(at),
            Levels::Two(node) => node.stretch(at),
            Levels::Three(node) => node.stretch(at),
            Levels::Four(node) => node.stretch(at),
            Levels::Five(node) => node.stretch(at),
        }
    }

    /// Puts the source's first block at place `at`. Where memory is refused, all blocks are as they were.
    pub fn set(&mut self, alloc: Global, at: usize, source: &Source<'_>) -> Result<(), NoMemory>
        requires range { at < length (blocks_of self.old) }
        requires source { HasBlocks source.now 1 }
        ensures ok { OnOk result (blocks_of self.new ≡ slice_set (blocks_of self.old) at (source_block source.now 0)) }
        ensures err { OnErr result (blocks_of self.new ≡ blocks_of self.old) }
    {
        match self {
            Levels::One(node) => set_in(node, alloc, at, source),
            Levels::Two(node) => set_in(node, alloc, at, source),
            Levels::Three(node) => set_in(node, alloc, at, source),
            Levels::Four(node) => set_in(node, alloc, at, source),
            Levels::Five(node) => set_in(node, alloc, at, source),
        }
    }

    /// Puts these bytes in the place of those of the block at place `at`, and says whether it did. It does where nobody shares a node on its path or
    /// its memory, and it has as many.
    #[inline(always)]
    pub fn overwrite(&mut self, at: usize, bytes: &[u8]) -> bool
        requires { at < length (blocks_of self.old) }
        ensures taken { result ≡ true → blocks_of self.new ≡ slice_set (blocks_of self.old) at (Bytes bytes.now) }
        ensures left { result ≡ false → blocks_of self.new ≡ blocks_of self.old }
    {
        match self {
            Levels::One(node) => overwrite_in(node, at, bytes),
            Levels::Two(node) => overwrite_in(node, at, bytes),
            Levels::Three(node) => overwrite_in(node, at, bytes),
            Levels::Four(node) => overwrite_in(node, at, bytes),
            Levels::Five(node) => overwrite_in(node, at, bytes),
        }
    }

    /// Puts the source's blocks from place `from` up to place `to` at the places from `at` on, as far as
    /// these are in one leaf, and answers how many. Where fewer than `least` do, it answers 0 and
    /// does nothing. Where memory is refused, all blocks are as they were.
    pub fn fill(
        &mut self,
        alloc: Global,
        at: usize,
        from: usize,
        to: usize,
        least: usize,
        source: &Source<'_>,
    ) -> Result<usize, NoMemory>
        requires range { at < length (blocks_of self.old) }
        requires some { from < to }
        requires least { 0 < least }
        requires source { HasBlocks source.now to }
        ensures ok { IfOk result
            (λ n. IsFilled source.now at from to least n (blocks_of self.old) (blocks_of self.new)) }
        ensures err { OnErr result (blocks_of self.new ≡ blocks_of self.old) }
    {
        match self {
            Levels::One(node) => fill_in(node, alloc, at, from, to, least, source),
            Levels::Two(node) => fill_in(node, alloc, at, from, to, least, source),
            Levels::Three(node) => fill_in(node, alloc, at, from, to, least, source),
            Levels::Four(node) => fill_in(node, alloc, at, from, to, least, source),
            Levels::Five(node) => fill_in(node, alloc, at, from, to, least, source),
        }
    }
}
