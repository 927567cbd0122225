ghost use Rattle.std.specs.Prelude.{◌≡◌, ℕ, ◌+◌, ◌*◌, ◌-◌, ◌<◌, ◌≤◌, IfOk, OnErr, OnOk, false, length, replicate, true};
ghost use Rattle.nvm_record.specs.declared.block.Block.TheVariants.{Bytes, Uncorrectable};
ghost use Rattle.nvm_record.specs.Lists.{IsAt};
ghost use Rattle.nvm_record.specs.PayloadRef.{lent_bytes};
ghost use Rattle.nvm_record.specs.Step.{block_at};
ghost use Rattle.nvm_store.specs.Inside.Rewrite.{IsRewritten, zero_block};
ghost use Rattle.nvm_store.specs.Inside.Source.{source_block, HasBlocks, IsFilled};

mod reading;

use crate::blocks::levels::{LEAF, Levels};
use crate::blocks::source::Source;
use crate::blocks::stretches;
use nvm_record::{NoMemory, PayloadRef};
use std::alloc::Global;
use std::fmt;
use std::fmt::{Debug, Formatter, Write};
use std::marker::Model;

/// The blocks of one unit, which contracts see as their list.
///
/// They are in a tree of nodes that copies share. A change works in place where nobody shares a node
/// on the way to its block, and copies the way where somebody does, so a copy of all blocks costs one
/// count and stays as it is. After an `Err` all blocks are as they were.
#[derive(Drop)]
pub struct SharedBlocks {
    levels: Levels,
    count: usize,
}

impl Model for SharedBlocks {
    ghost use Rattle.std.specs.Prelude.{List, ◌≤◌, length, take};
    ghost use Rattle.nvm_record.specs.declared.block.Block.{Block};
    ghost use Rattle.nvm_store.specs.Inside.Levels.{blocks_of};

    ghost Value = { List Block };

    ghost view = { λ b. take b.count (blocks_of b.levels) };

    ghost invariant = { λ b. b.count ≤ length (blocks_of b.levels) };
}

/// Shows how many blocks there are.
impl Debug for SharedBlocks {
    fn fmt<W: Write>(&self, f: &mut Formatter<W>) -> fmt::Result {
        write!(f, "{} blocks", self.count)
    }
}

impl SharedBlocks {
    /// `count` blocks of `size` zero bytes. They share one leaf, so they take the memory of one path of the
    /// tree.
    pub fn zeroed(alloc: Global, count: usize, size: usize) -> Result<SharedBlocks, NoMemory>
        ensures { IfOk result (λ blocks. blocks ≡ replicate count (zero_block size)) }
    {
        let levels = Levels::zeroed(alloc, count, size)?;
        Ok(SharedBlocks { levels, count })
    }

    /// How many blocks there are.
    pub fn len(&self) -> usize
        ensures { result ≡ length self.now }
    {
        self.count
    }

    /// The same blocks, shared: one more owner of the tree's top. It takes no memory, and is refused only
    /// where 2^63 - 1 copies share it already.
    pub fn share(&self) -> Result<SharedBlocks, NoMemory>
        ensures { IfOk result (λ blocks. blocks ≡ self.now) }
    {
        let levels = self.levels.share()?;
        Ok(SharedBlocks {
            levels,
            count: self.count,
        })
    }

    /// The `count` blocks from place `at` take the data, in blocks of `size` bytes. They share it, if it is shared. Else one that is alone
    /// takes it into its own memory if it can, and several share a copy.
    // A call, as a Read and a Compare of a tree are: inlined, they make their callers so large that the compiler drops `inline(always)` of these.
    #[inline(never)]
    pub fn write(
        &mut self,
        alloc: Global,
        at: usize,
        count: usize,
        size: usize,
        payload: PayloadRef<'_>,
    ) -> Result<(), NoMemory>
        requires range { at + count ≤ length self.old }
        requires payload { length (lent_bytes payload) ≡ count * size }
        ensures ok { OnOk result (IsRewritten at count (block_at size (lent_bytes payload.entry)) self.old self.new) }
        ensures err { OnErr result (self.new ≡ self.old) }
    {
        if count == 1 && !payload.is_shared() && self.overwrite(at, payload.as_slice()) {
            return Ok(());
        }
        self.put_data(alloc, at, count, size, payload)
    }

    /// The `count` blocks from place `at` take a share of the data, or of a copy.
    #[inline(never)]
    fn put_data(
        &mut self,
        alloc: Global,
        at: usize,
        count: usize,
        size: usize,
        payload: PayloadRef<'_>,
    ) -> Result<(), NoMemory>
        requires range { at + count ≤ length self.old }
        requires payload { length (lent_bytes payload) ≡ count * size }
        ensures ok { OnOk result (IsRewritten at count (block_at size (lent_bytes payload.entry)) self.old self.new) }
        ensures err { OnErr result (self.new ≡ self.old) }
    {
        if count == 1 {
            return self.set(alloc, at, &Source::Data { size, payload });
        }
        let copy = if payload.is_shared() {
            None
        } else {
            Some(payload.share(alloc)?)
        };
        let payload = match &copy {
            Some(copy) => copy.lend(),
            None => payload,
        };
        self.fill(alloc, at, count, &Source::Data { size, payload })
    }

    /// The `count` blocks from place `at` become `size` zero bytes each. It takes no memory for a leaf in which they are kept so already.
    pub fn zero(
        &mut self,
        alloc: Global,
        at: usize,
        count: usize,
        size: usize,
    ) -> Result<(), NoMemory>
        requires { at + count ≤ length self.old }
        ensures ok { OnOk result
            (IsRewritten at count (λ _. zero_block size) self.old self.new) }
        ensures err { OnErr result (self.new ≡ self.old) }
    {
        let zeroes = Source::Zeroes { size };
        if count > 0 && self.zero_already(at, count, &zeroes) == count {
            return Ok(());
        }
        self.fill(alloc, at, count, &zeroes)
    }

    /// The `count` blocks from place `at` are marked.
    pub fn mark(&mut self, alloc: Global, at: usize, count: usize) -> Result<(), NoMemory>
        requires { at + count ≤ length self.old }
        ensures ok { OnOk result (IsRewritten at count (λ _. Uncorrectable) self.old self.new) }
        ensures err { OnErr result (self.new ≡ self.old) }
    {
        self.fill(alloc, at, count, &Source::Marks)
    }

    /// How many blocks from place `from` on a source of zeroes leaves as they are, as far as they are in one leaf, and at most `most`: 0 where it changes
    /// how one of these is kept, and of another source.
    fn zero_already(&self, from: usize, most: usize, source: &Source<'_>) -> usize
        requires some { 0 < most }
        requires range { from + most ≤ length self.now }
        ensures few { result ≤ most }
        ensures same { (i j : ℕ) → i < result → IsAt self.now (from + i) (source_block source.now j) }
    {
        let Source::Zeroes { size } = *source else {
            return 0;
        };
        let stretch = self.stretch(from, most);
        if stretches::are_kept_as_zero(stretch, size) {
            stretch.len()
        } else {
            0
        }
    }

    /// Puts these bytes in the place of those of the block at place `at`, and says whether it did. It does where nobody shares its memory or its way
    /// in the tree, and it has as many.
    #[inline(always)]
    fn overwrite(&mut self, at: usize, bytes: &[u8]) -> bool
        requires { at < length self.old }
        ensures taken { result ≡ true → IsRewritten at 1 (λ _. Bytes bytes.now) self.old self.new }
        ensures left { result ≡ false → self.new ≡ self.old }
    {
        self.levels.overwrite(at, bytes)
    }

    /// Puts the source's first block at place `at`.
    fn set(&mut self, alloc: Global, at: usize, source: &Source<'_>) -> Result<(), NoMemory>
        requires range { at < length self.old }
        requires source { HasBlocks source.now 1 }
        ensures ok { OnOk result (IsRewritten at 1 (source_block source.now) self.old self.new) }
        ensures err { OnErr result (self.new ≡ self.old) }
    {
        self.levels.set(alloc, at, source)
    }

    /// Puts the source's blocks from place `from` up to place `to` at the places from `at` on, as far as
    /// these are in one leaf, and answers how many. Where fewer than `least` do, it answers 0 and does
    /// nothing.
    fn fill_stretch(
        &mut self,
        alloc: Global,
        at: usize,
        from: usize,
        to: usize,
        least: usize,
        source: &Source<'_>,
    ) -> Result<usize, NoMemory>
        requires range { at + (to - from) ≤ length self.old }
        requires some { from < to }
        requires least { 0 < least }
        requires source { HasBlocks source.now to }
        ensures ok { IfOk result (λ n. IsFilled source.now at from to least n self.old self.new) }
        ensures err { OnErr result (self.new ≡ self.old) }
    {
        self.levels.fill(alloc, at, from, to, least, source)
    }

    /// The `count` blocks from place `at` become the source's.
    ///
    /// One block is put in place, and so are several of one leaf. Those of several leaves are put into a shared
    /// copy, which copies each node of their ways once, and takes this one's place where nothing was refused.
    fn fill(
        &mut self,
        alloc: Global,
        at: usize,
        count: usize,
        source: &Source<'_>,
    ) -> Result<(), NoMemory>
        requires range { at + count ≤ length self.old }
        requires source { HasBlocks source.now count }
        ensures ok { OnOk result (IsRewritten at count (source_block source.now) self.old self.new) }
        ensures err { OnErr result (self.new ≡ self.old) }
    {
        if count == 1 {
            return self.set(alloc, at, source);
        }
        if count > 0 && count <= LEAF - at % LEAF {
            let done = self.fill_stretch(alloc, at, 0, count, count, source)?;
            if done > 0 {
                return Ok(());
            }
        }
        *self = self.filled(alloc, at, count, source)?;
        Ok(())
    }

    /// A copy of which the `count` blocks from place `at` are the source's.
    fn filled(
        &self,
        alloc: Global,
        at: usize,
        count: usize,
        source: &Source<'_>,
    ) -> Result<SharedBlocks, NoMemory>
        requires range { at + count ≤ length self.now }
        requires source { HasBlocks source.now count }
        ensures { IfOk result (IsRewritten at count (source_block source.now) self.now) }
    {
        let mut after = self.share()?;
        let mut done = 0;
        while done < count {
            let same = self.zero_already(at + done, count - done, source);
            done += if same > 0 {
                same
            } else {
                after.fill_stretch(alloc, at + done, done, count, 1, source)?
            };
        }
        Ok(after)
    }
}
