ghost use Rattle.std.specs.Prelude.{◌≡◌, ◌↔◌, ◌+◌, ◌*◌, ◌^◌, ◌<◌, ◌≤◌, IfOk, IsOk, IsTrue, OnErr, OnOk, length, true};
ghost use Rattle.nvm_record.specs.Medium.{Medium, zero_medium};
ghost use Rattle.nvm_record.specs.Step.{medium_after};
ghost use Rattle.nvm_record.specs.PayloadRef.{lent_bytes};
ghost use Rattle.nvm_record.specs.Ranges.{ranges_of};
ghost use Rattle.nvm_store.specs.Operation.{write_operation, zeroes_operation, uncorrectable_operation, deallocate_operation};
ghost use Rattle.nvm_store.specs.ActRef.{lent_operation_of};
ghost use Rattle.nvm_store.specs.Look.{look_operation_of};
ghost use Rattle.nvm_store.specs.Contents.{Holds, LiesAt, Covers, Succeeds, StaysInPlace, place_of};
ghost use Rattle.nvm_store.specs.Inside.Memory.{unit_from};
ghost use Rattle.nvm_store.specs.Inside.Sound.{AreSound};
ghost use Rattle.nvm_store.specs.Place.{IsWithin, place_at};

mod reading;

use crate::act_ref::ActRef;
use crate::blocks::Blocks;
use crate::cut_ranges::lowest_cut;
use crate::look::Look;
use crate::place::Place;
use nvm_record::laws::{cut_ranges_lie_within, steps_are_local};
use nvm_record::{BlockSize, NoMemory, PayloadRef};
use std::alloc::Global;
use std::marker::Model;

/// The blocks of one unit, which lie on neighbouring LBAs of the namespace.
///
/// Contracts see the first LBA, the block size in bytes, and the list of the blocks. Those of a unit that [`zeroed`](UnitBlocks::zeroed) made are
/// in a tree, which copies share, and a block's data is a part of the payload that was written, or a copy; those of one that
/// [`own`](UnitBlocks::own) made are in memory of its own.
#[derive(Debug, Drop)]
pub struct UnitBlocks {
    first: u64,
    size: BlockSize,
    blocks: Blocks,
}

impl Model for UnitBlocks {
    ghost use Rattle.nvm_store.specs.Contents.{Contents};
    ghost use Rattle.nvm_store.specs.Inside.Memory.{IsUnit};

    ghost Value = { Contents };

    ghost view = { λ u. record {
      first = u.first;
      size = u.size;
      blocks = u.blocks.list;
    } };

    ghost invariant = { λ u. IsUnit u.first u.size u.blocks };
}

impl UnitBlocks {
    /// The unit of `blocks` blocks of this size from LBA `first`, all of them zero bytes.
    pub fn zeroed(
        alloc: Global,
        first: u64,
        blocks: u32,
        size: BlockSize,
    ) -> Result<UnitBlocks, NoMemory>
        requires some { 0 < blocks }
        requires low { first + blocks ≤ 2 ^ 40 }
        ensures place { IfOk result (LiesAt (place_at first blocks size)) }
        ensures zeroes { IfOk result (λ unit. Holds unit (zero_medium size)) }
    {
        let blocks = Blocks::zeroed(alloc, blocks as usize, size.bytes() as usize)?;
        Ok(UnitBlocks {
            first,
            size,
            blocks,
        })
    }

    /// What [`zeroed`](UnitBlocks::zeroed) gives, to be changed in place. It takes no memory until a block is written or marked, and none
    /// again once all are zeroed at once. In between, blocks of at most 65,536 bytes together are in one piece of memory. More of them, of at most
    /// 512 bytes each, are in pages of 8: a page takes its memory once one of its blocks is written or marked, and gives it back where one run of
    /// zeroed blocks has all of them. The table of pages takes 4 bytes for each 512 blocks of the unit, and 256 more once one of these has a page.
    /// All pages are one piece of memory, which may move when it grows, by a quarter. Larger blocks are in a tree.
    pub fn own(
        alloc: Global,
        first: u64,
        blocks: u32,
        size: BlockSize,
    ) -> Result<UnitBlocks, NoMemory>
        requires some { 0 < blocks }
        requires low { first + blocks ≤ 2 ^ 40 }
        ensures place { IfOk result (LiesAt (place_at first blocks size)) }
        ensures zeroes { IfOk result (λ unit. Holds unit (zero_medium size)) }
    {
        let blocks = Blocks::own(alloc, blocks as usize, size.bytes() as usize)?;
        Ok(UnitBlocks {
            first,
            size,
            blocks,
        })
    }

    /// The same unit. One in a tree shares all blocks: that takes no memory, and is refused only where 2^63 - 1 units share them already. Else they
    /// are copied, which may be refused for want of memory.
    pub fn share(&self) -> Result<UnitBlocks, NoMemory>
        ensures { IfOk result (λ unit. unit ≡ self.now) }
    {
        let blocks = self.blocks.share()?;
        Ok(UnitBlocks {
            first: self.first,
            size: self.size,
            blocks,
        })
    }

    /// Where the unit lies.
    pub fn place(&self) -> Place
        ensures { result ≡ place_of self.now }
    {
        Place {
            first: self.first,
            blocks: self.blocks.len() as u32,
            size: self.size,
        }
    }

    /// Whether the act's range has a block and lies in the unit, its data, if it has any, has exactly the
    /// blocks of the range, and of a Deallocate's ranges a block is left there. It takes no memory, and no
    /// LBA makes it wrap.
    pub fn covers(&self, act: ActRef<'_>) -> bool
        ensures { IsTrue result ↔ Covers self.now (lent_operation_of act.entry) }
    {
        self.place().covers(act)
    }

    /// Whether the look's range has a block and lies in the unit, and its data, if it has any, has exactly the
    /// blocks of the range. It takes no memory, and no LBA makes it wrap.
    pub fn covers_look(&self, look: Look<'_>) -> bool
        ensures { IsTrue result ↔ Covers self.now (look_operation_of look.entry) }
    {
        self.place().covers_look(look)
    }

    /// Makes the act's step, at the cost of its own blocks and of their ways in the tree, whatever else the
    /// unit holds. A Deallocate clears each block once, and costs a walk over the ranges for each run of
    /// blocks that it clears. In a tree, where no other unit shares them, these are changed in place: one block that is
    /// written, and blocks of one leaf that are zeroed, marked, or cleared as the only run of a Deallocate.
    /// Blocks in one piece of memory or in pages are always changed in place. Where memory is refused, the unit is as it was.
    #[inline(always)]
    pub fn change(&mut self, alloc: Global, act: ActRef<'_>) -> Result<(), NoMemory>
        requires covered { Covers self.old (lent_operation_of act) }
        requires success { Succeeds self.old (lent_operation_of act) }
        ensures step { OnOk result ((m : Medium) → Holds self.old m
            → Holds self.new (medium_after self.old.size (lent_operation_of act.entry) m)) }
        ensures place { StaysInPlace self.old self.new }
        ensures err { OnErr result (self.new ≡ self.old) }
    {
        match act {
            ActRef::Write {
                first,
                blocks,
                payload,
            } => self.write(alloc, first, blocks, payload),
            ActRef::Zeroes { first, blocks } => self.zero(alloc, first, blocks),
            ActRef::Uncorrectable { first, blocks } => self.mark(alloc, first, blocks),
            // Its comparison holds, so it is its Write.
            ActRef::Pair {
                first,
                blocks,
                compare: _,
                write,
            } => self.write(alloc, first, blocks, write),
            ActRef::Deallocate {
                first,
                blocks,
                ranges,
            } => self.deallocate(alloc, first, blocks, ranges.as_slice()),
        }
    }

    /// The `blocks` LBAs from `first` take the data.
    #[inline(always)]
    fn write(
        &mut self,
        alloc: Global,
        first: u64,
        blocks: u32,
        payload: PayloadRef<'_>,
    ) -> Result<(), NoMemory>
        requires range { IsWithin (place_of self.old) first blocks }
        requires payload { length (lent_bytes payload) ≡ blocks * self.old.size }
        ensures step { OnOk result ((m : Medium) → Holds self.old m
            → Holds self.new (medium_after self.old.size (write_operation first blocks (lent_bytes payload.entry)) m)) }
        ensures place { StaysInPlace self.old self.new }
        ensures err { OnErr result (self.new ≡ self.old) }
    {
        let at = (first - self.first) as usize;
        steps_are_local();
        self.blocks.write(alloc, at, blocks as usize, payload)
    }

    /// The `blocks` LBAs from `first` become zero bytes.
    fn zero(&mut self, alloc: Global, first: u64, blocks: u32) -> Result<(), NoMemory>
        requires { IsWithin (place_of self.old) first blocks }
        ensures step { OnOk result ((m : Medium) → Holds self.old m
            → Holds self.new (medium_after self.old.size (zeroes_operation first blocks) m)) }
        ensures place { StaysInPlace self.old self.new }
        ensures err { OnErr result (self.new ≡ self.old) }
    {
        let at = (first - self.first) as usize;
        steps_are_local();
        self.blocks.zero(alloc, at, blocks as usize)
    }

    /// The `blocks` LBAs from `first` are marked.
    fn mark(&mut self, alloc: Global, first: u64, blocks: u32) -> Result<(), NoMemory>
        requires { IsWithin (place_of self.old) first blocks }
        ensures step { OnOk result ((m : Medium) → Holds self.old m
            → Holds self.new (medium_after self.old.size (uncorrectable_operation first blocks) m)) }
        ensures place { StaysInPlace self.old self.new }
        ensures err { OnErr result (self.new ≡ self.old) }
    {
        let at = (first - self.first) as usize;
        steps_are_local();
        self.blocks.mark(alloc, at, blocks as usize)
    }

    /// Those of the `blocks` LBAs from `first` that are in one of the ranges become zero bytes: in place in memory of the unit's own. Else one run
    /// of them is cleared as a Write Zeroes is, and several in a share, which takes the unit's place where nothing was refused.
    fn deallocate(
        &mut self,
        alloc: Global,
        first: u64,
        blocks: u32,
        ranges: &[u8],
    ) -> Result<(), NoMemory>
        requires { IsWithin (place_of self.old) first blocks }
        ensures step { OnOk result ((m : Medium) → Holds self.old m → Holds self.new
            (medium_after self.old.size (deallocate_operation first blocks (ranges_of ranges.now)) m)) }
        ensures place { StaysInPlace self.old self.new }
        ensures err { OnErr result (self.new ≡ self.old) }
    {
        if self.blocks.is_own() {
            return clear_runs(&mut self.blocks, alloc, self.first, first, blocks, ranges);
        }
        cut_ranges_lie_within();
        // The unit's LBAs fit, so each of them does.
        let _first = self.first;
        let Some(run) = lowest_cut(first, blocks, ranges) else {
            return Ok(());
        };
        let past = run.first + u64::from(run.blocks);
        let left = blocks - (past - first) as u32;
        if lowest_cut(past, left, ranges).is_none() {
            return self.zero(alloc, run.first, run.blocks);
        }
        let mut after = self.blocks.share()?;
        clear_runs(&mut after, alloc, self.first, first, blocks, ranges)?;
        self.blocks = after;
        Ok(())
    }
}

/// Of the blocks from LBA `start`, those become zero bytes that are among the `count` LBAs from `first` and in one of the ranges. Each is cleared once, also
/// where ranges overlap. In memory of their own that is never refused; else some of them may have become zero bytes then.
fn clear_runs(
    blocks: &mut Blocks,
    alloc: Global,
    start: u64,
    first: u64,
    count: u32,
    ranges: &[u8],
) -> Result<(), NoMemory>
    requires sound { AreSound start blocks.old.size blocks.old.list }
    requires range { IsWithin (place_of (unit_from start blocks.old)) first count }
    ensures sound { AreSound start blocks.new.size blocks.new.list }
    ensures place { StaysInPlace (unit_from start blocks.old) (unit_from start blocks.new) }
    ensures never { blocks.old.own ≡ true → IsOk result }
    ensures step { OnOk result ((m : Medium) → Holds (unit_from start blocks.old) m → Holds (unit_from start blocks.new)
        (medium_after blocks.old.size (deallocate_operation first count (ranges_of ranges.now)) m)) }
{
    cut_ranges_lie_within();
    steps_are_local();
    let mut from = first;
    let mut left = count;
    while let Some(run) = lowest_cut(from, left, ranges) {
        let at = (run.first - start) as usize;
        blocks.zero(alloc, at, run.blocks as usize)?;
        let past = run.first + u64::from(run.blocks);
        left -= (past - from) as u32;
        from = past;
    }
    Ok(())
}
