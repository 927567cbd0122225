//! What is done in a search, and which acts are over by that.
mod blocks;

use crate::numbers::{ZERO, to_u32};
use crate::order::acts::{Act, NONE};
use crate::order::lists::{Entry, Group, NO_ENTRY};
use crate::order::making::Part;
use crate::order::slots::UNKNOWN;
use crate::order::state::State;
use nvm_record::NoMemory;
use std::alloc::Global;

/// An act in order.
#[derive(Clone, Copy)]
pub struct Step {
    pub act: u32,
    /// The slot that it gives, where it had a choice.
    pub slot: u32,
    /// Of an act of which one block is done, that block.
    pub block: u32,
    /// The latest time at which it or an act before it began.
    pub latest: u32,
}

/// What is kept in a state. Steps are counted from 1.
#[derive(Clone, Copy)]
pub enum Field {
    /// The step that the act is, or 0.
    Step(u32),
    /// The slot that is in the block.
    Content(u32),
    /// The latest beginning of what surely put something in the block, counted from 1.
    Rewritten(u32),
    /// The slot that was in the block at first, where nobody knew that and it matters.
    First(u32),
    /// The step that put what is in the block.
    Setter(u32),
    /// The last step that put something else in the place of the slot.
    Loser(u32),
    /// The latest time at which an act in order began.
    Latest,
    /// How many of all acts have begun and were looked at.
    Begun,
    /// How many acts at the head of a group are over.
    Head(u32),
    /// How many from one of all acts on are over, as far as that is known.
    Skip(u32),
}

/// A number of a pair of numbers, of which each bit hangs on all of theirs.
pub fn key(one: u32, other: u32) -> u64 {
    let mut mixed = (u64::from(other) << 32) | u64::from(one);
    for factor in [0xbf58_476d_1ce4_e5b9u64, 0x94d0_49bb_1331_11ebu64] {
        mixed = (mixed ^ (mixed >> 29)).wrapping_mul(factor);
    }
    mixed ^ (mixed >> 32)
}

#[derive(Drop)]
pub struct Board<'p> {
    pub part: &'p Part,
    pub state: State,
    /// A number that hangs on what is done and what is in the blocks.
    pub hash: u64,
    pub steps: Vec<Step>,
    /// The end of the act that has to be done first.
    pub horizon: u32,
}

impl<'p> Board<'p> {
    /// Nothing is done, and in the blocks is what was there at first. Where nobody knows that, it is what somebody found and nobody can
    /// have put there.
    pub fn new(alloc: Global, part: &'p Part) -> Result<Board<'p>, NoMemory> {
        let mut board = Board {
            part,
            state: State::new(alloc, 0)?,
            hash: 0,
            steps: Vec::new(alloc),
            horizon: 0,
        };
        board.state = State::new(alloc, board.place(Field::Skip(part.count())) as usize)?;
        let value = if part.starts_unknown { UNKNOWN } else { ZERO };
        for block in 0..part.blocks {
            board.set(Field::Content(block), part.slots.of(block, value))?;
            board.set(Field::First(block), NONE)?;
        }
        if part.starts_unknown {
            for slot in 0..part.slots.count() {
                if board.is_of_start(slot)? {
                    board.bind(part.slots.block(slot), slot)?;
                }
            }
        }
        board.state.keep();
        Ok(board)
    }

    /// Whether somebody found the slot and nobody began to put it there before.
    fn is_of_start(&mut self, slot: u32) -> Result<bool, NoMemory> {
        let part = self.part;
        let anything = self.first_of(Group::Anything(part.slots.block(slot)))?;
        let first = self.first_of(Group::Givers(slot))?.time.min(anything.time);
        let finders = part.lists.of(Group::Finders(slot));
        for finder in finders {
            if finder.time >= first {
                break;
            }
            if part.act(finder.act).until < first {
                return Ok(true);
            }
        }
        Ok(first == NONE && !finders.is_empty())
    }

    /// Where the field stands.
    fn place(&self, field: Field) -> u32 {
        let lists = &self.part.lists;
        let (blocks, slots, place) = match field {
            Field::Step(act) => return act,
            Field::Content(block) => (0, 0, block),
            Field::Rewritten(block) => (1, 0, block),
            Field::First(block) => (2, 0, block),
            Field::Setter(block) => (3, 0, block),
            Field::Loser(slot) => (4, 0, slot),
            Field::Latest => (4, 1, 0),
            Field::Begun => (4, 1, 1),
            Field::Head(group) => (4, 1, group.saturating_add(2)),
            Field::Skip(at) => (4, 1, at.saturating_add(lists.count()).saturating_add(2)),
        };
        self.part
            .count()
            .saturating_add(self.part.blocks.saturating_mul(blocks))
            .saturating_add(self.part.slots.count().saturating_mul(slots))
            .saturating_add(place)
    }

    pub fn at(&self, field: Field) -> u32 {
        self.state.at(self.place(field))
    }

    pub fn set(&mut self, field: Field, number: u32) -> Result<(), NoMemory> {
        let place = self.place(field);
        self.state.set(place, number)
    }

    /// The number of the next step.
    pub fn next_step(&self) -> u32 {
        to_u32(self.steps.len()).saturating_add(1)
    }

    pub fn is_placed(&self, number: u32) -> bool {
        self.at(Field::Step(number)) != 0
    }

    /// Whether the act was done, or can't be any more.
    pub fn is_over(&self, number: u32) -> bool {
        let act = self.part.act(number);
        if !act.again && self.is_placed(number) {
            return true;
        }
        if act.sure {
            return false;
        }
        let latest = self.at(Field::Latest);
        if act.until < latest {
            return true;
        }
        if act.before != NONE && !self.is_placed(act.before) {
            let before = self.part.act(act.before);
            if !before.sure && before.until < latest {
                return true;
            }
        }
        if act.over == NONE {
            return false;
        }
        let block = self.part.cell(act.cell).block;
        self.at(Field::Rewritten(block)) > act.over.saturating_add(1)
    }

    /// Whether what has to be done before the act isn't.
    pub fn is_too_early(&self, act: &Act) -> bool {
        act.before != NONE && !self.is_placed(act.before)
    }

    /// The acts of a group, from the first that isn't over on.
    pub fn acts_of(&mut self, group: Group) -> Result<&'p [Entry], NoMemory> {
        let part = self.part;
        let acts = part.lists.of(group);
        let field = Field::Head(part.lists.number(group));
        let mut head = acts.len();
        for at in self.at(field) as usize..acts.len() {
            if !self.is_over(acts[at].act) {
                head = at;
                break;
            }
        }
        self.set(field, to_u32(head))?;
        let Some(left) = acts.get(head..) else {
            return Ok(&[]);
        };
        Ok(left)
    }

    /// The first act of a group that isn't over.
    pub fn first_of(&mut self, group: Group) -> Result<Entry, NoMemory> {
        match self.acts_of(group)?.first() {
            Some(entry) => Ok(*entry),
            None => Ok(NO_ENTRY),
        }
    }

    /// The acts of a group, from the first that isn't over on, whose times are before this one.
    pub fn acts_before(&mut self, group: Group, time: u32) -> Result<&'p [Entry], NoMemory> {
        let acts = self.acts_of(group)?;
        Ok(&acts[..acts.partition_point(|entry| entry.time < time)])
    }

    /// The acts of a group, from the first that isn't over on, whose times are no later than the horizon.
    pub fn acts_begun(&mut self, group: Group) -> Result<&'p [Entry], NoMemory> {
        self.acts_before(group, self.horizon.saturating_add(1))
    }
}
