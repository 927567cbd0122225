//! Acts by what they do and by time.
use crate::numbers::Numbers;
use crate::order::acts::{Act, Cell, Gives, NONE, Wants};
use nvm_record::NoMemory;
use std::alloc::Global;

/// Acts that do the same. They stand by beginning where nothing else is said.
#[derive(Clone, Copy)]
pub enum Group {
    All,
    /// All that have to be done and put something.
    Changes,
    /// All that have to be done, by end.
    Sure,
    /// All that may be done, put something, and may not be done after some time, by that time.
    Optional,
    /// Who surely finds a slot.
    Finders(u32),
    /// Who may find a slot or not, and puts nothing.
    Willing(u32),
    /// Who may give a slot.
    Givers(u32),
    /// Who may put anything in a block.
    Anything(u32),
    /// All acts of a block that have to be done, by end.
    SureOf(u32),
    /// Who looks at a block for any bytes, or for others than some.
    Loose(u32),
    /// Who may put something in a block.
    Writers(u32),
    /// The tied acts of a block.
    Tied(u32),
    /// The Deallocates of a block, by when they were over.
    Deallocates(u32),
}

/// An act of a group, at its time.
#[derive(Clone, Copy, PartialEq, Eq, PartialOrd, Ord)]
pub struct Entry {
    group: u32,
    pub time: u32,
    pub act: u32,
}

/// Where there is no act.
pub const NO_ENTRY: Entry = Entry {
    group: NONE,
    time: NONE,
    act: NONE,
};

/// All groups of a part's acts.
#[derive(Drop)]
pub struct Lists {
    blocks: u32,
    slots: u32,
    entries: Vec<Entry>,
    /// Where each group begins, and where the last ends.
    starts: Numbers,
}

impl Lists {
    /// No acts.
    pub fn new(alloc: Global, blocks: u32, slots: u32) -> Lists {
        Lists {
            blocks,
            slots,
            entries: Vec::new(alloc),
            starts: Numbers::of(Vec::new(alloc)),
        }
    }

    /// The group's number.
    pub fn number(&self, group: Group) -> u32 {
        let (slots, blocks, place) = match group {
            Group::All => return 0,
            Group::Changes => return 1,
            Group::Sure => return 2,
            Group::Optional => return 3,
            Group::Finders(slot) => (0, 0, slot),
            Group::Willing(slot) => (1, 0, slot),
            Group::Givers(slot) => (2, 0, slot),
            Group::Anything(block) => (3, 0, block),
            Group::SureOf(block) => (3, 1, block),
            Group::Loose(block) => (3, 2, block),
            Group::Writers(block) => (3, 3, block),
            Group::Tied(block) => (3, 4, block),
            Group::Deallocates(block) => (3, 5, block),
        };
        self.slots
            .saturating_mul(slots)
            .saturating_add(self.blocks.saturating_mul(blocks))
            .saturating_add(place)
            .saturating_add(4)
    }

    /// How many groups there are.
    pub fn count(&self) -> u32 {
        self.number(Group::Deallocates(self.blocks))
    }

    fn push(&mut self, group: Group, time: u32, act: u32) -> Result<(), NoMemory> {
        let group = self.number(group);
        self.entries.push(Entry { group, time, act })?;
        Ok(())
    }

    /// Adds an act. Behind the last the acts have to be sorted.
    pub fn add(&mut self, act: &Act, number: u32) -> Result<(), NoMemory> {
        self.push(Group::All, act.from, number)?;
        if act.sure {
            self.push(Group::Sure, act.until, number)?;
            if !act.is_look {
                self.push(Group::Changes, act.from, number)?;
            }
        } else if !act.is_look && act.until != NONE {
            self.push(Group::Optional, act.until, number)?;
        }
        Ok(())
    }

    /// Adds a cell of the act. `deallocated`: the block's slots that a Deallocate may give, as [`Slots::deallocated`] has them.
    pub fn add_cell(
        &mut self,
        act: &Act,
        cell: &Cell,
        deallocated: [u32; 2],
    ) -> Result<(), NoMemory> {
        let number = cell.act;
        match cell.wants {
            Wants::Nothing => {}
            Wants::Slot(slot) if act.sure => self.push(Group::Finders(slot), act.from, number)?,
            Wants::Slot(slot) if act.is_look => self.push(Group::Willing(slot), act.from, number)?,
            Wants::Slot(_) => {}
            Wants::AnyBytes | Wants::OtherThan(_) => {
                self.push(Group::Loose(cell.block), act.from, number)?
            }
        }
        match cell.gives {
            Gives::Nothing => {}
            Gives::Slot(slot) => self.push(Group::Givers(slot), act.from, number)?,
            Gives::Deallocated => {
                self.push(Group::Deallocates(cell.block), act.over, number)?;
                for slot in deallocated {
                    if slot != NONE {
                        self.push(Group::Givers(slot), act.from, number)?;
                    }
                }
            }
            Gives::Anything => self.push(Group::Anything(cell.block), act.from, number)?,
        }
        if act.sure && !act.any {
            self.push(Group::SureOf(cell.block), act.until, number)?;
        }
        if act.tied {
            self.push(Group::Tied(cell.block), act.from, number)?;
        }
        if !act.is_look {
            self.push(Group::Writers(cell.block), act.from, number)?;
        }
        Ok(())
    }

    /// Sorts the acts.
    pub fn sort(&mut self, alloc: Global) -> Result<(), NoMemory> {
        self.entries.sort()?;
        self.starts = Numbers::new(alloc, (self.count() as usize).saturating_add(1), 0)?;
        for entry in &self.entries {
            self.starts.increment(entry.group.saturating_add(1));
        }
        for group in 0..self.count() {
            let next = group.saturating_add(1);
            let end = self.starts.at(group).saturating_add(self.starts.at(next));
            self.starts.put(next, end);
        }
        Ok(())
    }

    /// The place of a group's first act among all acts of all groups.
    pub fn start(&self, group: Group) -> u32 {
        self.starts.at(self.number(group))
    }

    /// Whether somebody may put anything in a block.
    pub fn has_anything(&self) -> bool {
        self.start(Group::Anything(0)) < self.start(Group::SureOf(0))
    }

    /// The acts of a group.
    pub fn of(&self, group: Group) -> &[Entry] {
        let number = self.number(group);
        let end = self.starts.at(number.saturating_add(1));
        let acts = self
            .entries
            .get(self.starts.at(number) as usize..end as usize);
        let Some(acts) = acts else {
            return &[];
        };
        acts
    }

    /// The acts of a group whose times aren't after this one.
    pub fn up_to(&self, group: Group, time: u32) -> &[Entry] {
        let acts = self.of(group);
        &acts[..acts.partition_point(|entry| entry.time <= time)]
    }
}
