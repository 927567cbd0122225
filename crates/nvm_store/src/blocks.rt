ghost use Rattle.std.specs.Prelude.{◌≡◌, ◌+◌, ◌*◌, ◌<◌, ◌≤◌, IfOk, IsOk, OnErr, OnOk, length, replicate, true};
ghost use Rattle.nvm_record.specs.PayloadRef.{lent_bytes};
ghost use Rattle.nvm_record.specs.declared.block.Block.TheVariants.{Uncorrectable};
ghost use Rattle.nvm_record.specs.Step.{block_at};
ghost use Rattle.nvm_store.specs.Inside.Memory.{AreBounded, FitsSize, listed, is_own};
ghost use Rattle.nvm_store.specs.Inside.Rewrite.{IsRewritten, zero_block};
ghost use Rattle.nvm_store.specs.Inside.Source.{HasBlocks, HasSize, source_block};

mod content;
mod flat_blocks;
mod fork;
mod leaf;
mod levels;
mod numbers;
mod page_numbers;
mod paged_blocks;
mod reading;
mod shared_blocks;
mod source;
mod stored_block;
mod stretches;
mod tree;

use crate::blocks::flat_blocks::FlatBlocks;
use crate::blocks::paged_blocks::PagedBlocks;
use crate::blocks::shared_blocks::SharedBlocks;
use crate::blocks::source::Source;
use nvm_record::{NoMemory, PayloadRef};
use std::alloc::Global;
use std::fmt;
use std::fmt::{Debug, Formatter, Write};
use std::marker::Model;

/// The most bytes of a unit whose blocks are in one piece of memory.
const MOST_FLAT_BYTES: usize = 65_536;
/// The most bytes of a block that is in a page: eight of them are 4 KiB.
const MOST_IN_PAGE: usize = 512;

/// The blocks of one unit. Contracts see the size of each in bytes, their list, and whether they are in memory that is theirs alone. After an `Err` all
/// blocks are as they were.
#[derive(Drop)]
pub struct Blocks {
    size: usize,
    memory: Memory,
}

/// Where they are.
#[derive(Drop)]
pub enum Memory {
    /// In a tree, which copies share.
    Shared(SharedBlocks),
    /// Nowhere yet, since all of them are zeroes. They will have memory that is theirs alone.
    Zeroes(usize),
    /// In one piece of memory.
    Flat(FlatBlocks),
    /// In pages.
    Paged(PagedBlocks),
}

impl Model for Blocks {
    ghost use Rattle.nvm_store.specs.Inside.Memory.{InMemory, FitsSize, is_own, listed};

    ghost Value = { InMemory };

    ghost view = { λ b. record {
      size = b.size;
      list = listed b.size b.memory;
      own = is_own b.memory;
    } };

    ghost invariant = { λ b. FitsSize b.size b.memory };
}

/// Shows how many blocks there are.
impl Debug for Blocks {
    fn fmt<W: Write>(&self, f: &mut Formatter<W>) -> fmt::Result {
        write!(f, "{} blocks", self.len())
    }
}

impl Blocks {
    /// `count` blocks of `size` zero bytes, in a tree. They share one leaf, so they take the memory of one path of the
    /// tree.
    pub fn zeroed(alloc: Global, count: usize, size: usize) -> Result<Blocks, NoMemory>
        ensures size { IfOk result (λ blocks. blocks.size ≡ size) }
        ensures list { IfOk result (λ blocks. blocks.list ≡ replicate count (zero_block size)) }
    {
        let blocks = SharedBlocks::zeroed(alloc, count, size)?;
        Ok(Blocks {
            size,
            memory: Memory::Shared(blocks),
        })
    }

    /// The same, to be changed in place. They take no memory until the first of them is written or marked, and then are in one piece if they have at most
    /// `MOST_FLAT_BYTES`, and else in pages; but blocks of more than `MOST_IN_PAGE` bytes are in a tree then.
    pub fn own(alloc: Global, count: usize, size: usize) -> Result<Blocks, NoMemory>
        requires { AreBounded size count }
        ensures size { IfOk result (λ blocks. blocks.size ≡ size) }
        ensures list { IfOk result (λ blocks. blocks.list ≡ replicate count (zero_block size)) }
    {
        if count * size > MOST_FLAT_BYTES && size > MOST_IN_PAGE {
            return Blocks::zeroed(alloc, count, size);
        }
        Ok(Blocks {
            size,
            memory: Memory::Zeroes(count),
        })
    }

    /// How many blocks there are.
    pub fn len(&self) -> usize
        ensures { result ≡ length self.now.list }
    {
        match &self.memory {
            Memory::Shared(blocks) => blocks.len(),
            Memory::Zeroes(count) => *count,
            Memory::Flat(blocks) => blocks.len(),
            Memory::Paged(blocks) => blocks.len(),
        }
    }

    /// Whether they are in memory that is theirs alone, in which zeroing them is never refused.
    pub fn is_own(&self) -> bool
        ensures { result ≡ self.now.own }
    {
        match &self.memory {
            Memory::Shared(_) => false,
            Memory::Zeroes(_) | Memory::Flat(_) | Memory::Paged(_) => true,
        }
    }

    /// The same blocks. Those of a tree are shared, at the cost of one more owner of its top: that takes no memory, and is refused
    /// only where 2^63 - 1 copies share it already. Others are copied.
    pub fn share(&self) -> Result<Blocks, NoMemory>
        ensures { IfOk result (λ blocks. blocks ≡ self.now) }
    {
        let memory = match &self.memory {
            Memory::Shared(blocks) => Memory::Shared(blocks.share()?),
            Memory::Zeroes(count) => Memory::Zeroes(*count),
            Memory::Flat(blocks) => Memory::Flat(blocks.copy()?),
            Memory::Paged(blocks) => Memory::Paged(blocks.copy()?),
        };
        Ok(Blocks {
            size: self.size,
            memory,
        })
    }

    /// The `count` blocks from place `at` take the data.
    #[inline(always)]
    pub fn write(
        &mut self,
        alloc: Global,
        at: usize,
        count: usize,
        payload: PayloadRef<'_>,
    ) -> Result<(), NoMemory>
        requires some { 0 < count }
        requires range { at + count ≤ length self.old.list }
        requires payload { length (lent_bytes payload) ≡ count * self.old.size }
        ensures size { self.new.size ≡ self.old.size }
        ensures own { self.new.own ≡ self.old.own }
        ensures ok { OnOk result
            (IsRewritten at count (block_at self.old.size (lent_bytes payload.entry)) self.old.list self.new.list) }
        ensures err { OnErr result (self.new.list ≡ self.old.list) }
    {
        match &mut self.memory {
            Memory::Shared(blocks) => blocks.write(alloc, at, count, self.size, payload),
            Memory::Zeroes(all) => {
                let (all, size) = (*all, self.size);
                let source = Source::Data { size, payload };
                begin(&mut self.memory, alloc, all, size, at, count, &source)
            }
            Memory::Flat(blocks) => {
                blocks.put(at, count, payload.as_slice());
                Ok(())
            }
            Memory::Paged(blocks) => blocks.write(at, count, payload.as_slice()),
        }
    }

    /// The `count` blocks from place `at` become zero bytes. Memory that is theirs alone is given back: all of it where they are all or no page is left,
    /// and that of each page that they fill.
    pub fn zero(&mut self, alloc: Global, at: usize, count: usize) -> Result<(), NoMemory>
        requires { at + count ≤ length self.old.list }
        ensures size { self.new.size ≡ self.old.size }
        ensures own { self.new.own ≡ self.old.own }
        ensures never { self.old.own ≡ true → IsOk result }
        ensures ok { OnOk result
            (IsRewritten at count (λ _. zero_block self.old.size) self.old.list self.new.list) }
        ensures err { OnErr result (self.new.list ≡ self.old.list) }
    {
        if count == self.len() && self.is_own() {
            self.memory = Memory::Zeroes(count);
            return Ok(());
        }
        match &mut self.memory {
            Memory::Shared(blocks) => blocks.zero(alloc, at, count, self.size),
            Memory::Zeroes(_) => Ok(()),
            Memory::Flat(blocks) => {
                blocks.clear(at, count);
                Ok(())
            }
            Memory::Paged(blocks) => {
                blocks.zero(at, count);
                if blocks.has_no_page() {
                    self.memory = Memory::Zeroes(blocks.len());
                }
                Ok(())
            }
        }
    }

    /// The `count` blocks from place `at` are marked.
    pub fn mark(&mut self, alloc: Global, at: usize, count: usize) -> Result<(), NoMemory>
        requires { at + count ≤ length self.old.list }
        ensures size { self.new.size ≡ self.old.size }
        ensures own { self.new.own ≡ self.old.own }
        ensures ok { OnOk result (IsRewritten at count (λ _. Uncorrectable) self.old.list self.new.list) }
        ensures err { OnErr result (self.new.list ≡ self.old.list) }
    {
        match &mut self.memory {
            Memory::Shared(blocks) => blocks.mark(alloc, at, count),
            Memory::Zeroes(all) => {
                let (all, size) = (*all, self.size);
                begin(
                    &mut self.memory,
                    alloc,
                    all,
                    size,
                    at,
                    count,
                    &Source::Marks,
                )
            }
            Memory::Flat(blocks) => {
                blocks.mark(at, count);
                Ok(())
            }
            Memory::Paged(blocks) => blocks.put(at, count, &Source::Marks),
        }
    }
}

/// Gives `all` blocks of `size` zero bytes, which had no memory, memory of their own, in which the `count` from place `at` are the source's.
#[cold]
#[inline(never)]
fn begin(
    memory: &mut Memory,
    alloc: Global,
    all: usize,
    size: usize,
    at: usize,
    count: usize,
    source: &Source<'_>,
) -> Result<(), NoMemory>
    requires few { AreBounded size all }
    requires range { at + count ≤ all }
    requires source { HasBlocks source.now count }
    requires size { HasSize source.now size }
    ensures fits { OnOk result (FitsSize size memory.new) }
    ensures own { OnOk result (is_own memory.new ≡ true) }
    ensures ok { OnOk result (IsRewritten at count (source_block source.now) (replicate all (zero_block size)) (listed size memory.new)) }
    ensures err { OnErr result (memory.new ≡ memory.old) }
{
    if all * size <= MOST_FLAT_BYTES {
        let mut blocks = FlatBlocks::zeroed(alloc, all, size)?;
        blocks.fill(at, count, 0, source);
        *memory = Memory::Flat(blocks);
    } else {
        let mut blocks = PagedBlocks::zeroed(alloc, all, size)?;
        blocks.put(at, count, source)?;
        *memory = Memory::Paged(blocks);
    }
    Ok(())
}
