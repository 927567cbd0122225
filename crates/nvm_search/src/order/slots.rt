//! The contents of a part's blocks.
use crate::numbers::{MARK, ZERO, to_u32};
use crate::order::acts::{NONE, Wants};
use crate::order::known::Known;
use nvm_record::NoMemory;
use nvm_standard::Deallocated;
use nvm_trace::Start;
use std::ops::Range;

/// The value of what nobody knows.
pub const UNKNOWN: u32 = u32::MAX;

/// A content of a block.
#[derive(Clone, Copy, PartialEq, Eq, PartialOrd, Ord)]
struct Slot {
    block: u32,
    value: u32,
}

/// All contents that blocks of a part may be found to have, block by block. A slot is a place among them.
#[derive(Drop)]
pub struct Slots {
    slots: Vec<Slot>,
    deallocated: Deallocated,
    /// The value of a block of FFh.
    ones: u32,
}

impl Slots {
    /// No slots but those of each block that may be asked for whatever the acts are.
    pub fn new(known: &Known<'_, '_>, blocks: u32) -> Result<Slots, NoMemory> {
        let mut slots = Vec::new(known.alloc);
        for block in 0..blocks {
            for value in [ZERO, MARK, known.ones, known.fresh] {
                slots.push(Slot { block, value })?;
            }
            if known.points.start == Start::Unknown {
                let value = UNKNOWN;
                slots.push(Slot { block, value })?;
            }
        }
        Ok(Slots {
            slots,
            deallocated: known.points.deallocated,
            ones: known.ones,
        })
    }

    /// Adds the slot of a block's value. Behind the last the slots have to be sorted.
    pub fn add(&mut self, block: u32, value: u32) -> Result<(), NoMemory> {
        self.slots.push(Slot { block, value })?;
        Ok(())
    }

    /// Sorts the slots, each once.
    pub fn sort(&mut self) -> Result<(), NoMemory> {
        self.slots.sort()?;
        self.slots.dedup();
        Ok(())
    }

    /// How many there are.
    pub fn count(&self) -> u32 {
        to_u32(self.slots.len())
    }

    /// The slot of a block's value, which is one of them.
    pub fn of(&self, block: u32, value: u32) -> u32 {
        let slot = Slot { block, value };
        to_u32(self.slots.partition_point(|known| *known < slot))
    }

    /// The slots of a block.
    pub fn all_of(&self, block: u32) -> Range<u32> {
        self.of(block, 0)..self.of(block.saturating_add(1), 0)
    }

    /// The value of a slot.
    pub fn value(&self, slot: u32) -> u32 {
        match self.slots.get(slot as usize) {
            Some(slot) => slot.value,
            None => NONE,
        }
    }

    /// The block of a slot.
    pub fn block(&self, slot: u32) -> u32 {
        match self.slots.get(slot as usize) {
            Some(slot) => slot.block,
            None => 0,
        }
    }

    pub fn is_mark(&self, slot: u32) -> bool {
        self.value(slot) == MARK
    }

    pub fn is_unknown(&self, slot: u32) -> bool {
        self.value(slot) == UNKNOWN
    }

    /// Whether what finds this may find the slot.
    pub fn suits(&self, wants: Wants, slot: u32) -> bool {
        match wants {
            Wants::Nothing => true,
            Wants::Slot(wanted) => slot == wanted,
            Wants::AnyBytes => !self.is_mark(slot),
            Wants::OtherThan(other) => slot != other && !self.is_mark(slot),
        }
    }

    /// The slots that a Deallocate may give in the block: that of zeroes and that of FFh, and `NONE` in the place of one that it may not.
    pub fn deallocated(&self, block: u32) -> [u32; 2] {
        let mut slots = [NONE, NONE];
        if self.deallocated != Deallocated::Ones {
            slots[0] = self.of(block, ZERO);
        }
        if self.deallocated != Deallocated::Zeroes {
            slots[1] = self.of(block, self.ones);
        }
        slots
    }
}
