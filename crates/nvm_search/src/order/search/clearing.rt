//! What has to be done before an act that puts something.
use crate::order::acts::{Act, Gives, NONE, Wants};
use crate::order::board::Field;
use crate::order::lists::Group;
use crate::order::search::Search;
use nvm_record::NoMemory;

impl<'p> Search<'p> {
    /// Whether nothing has to be done before the act. What has to be and can be is made a target.
    pub(super) fn is_clear(&mut self, number: u32, act: &Act, slot: u32) -> Result<bool, NoMemory> {
        let targets = self.targets.len();
        for at in act.cell..act.cells_end() {
            let cell = self.board.part.cell(at);
            let given = self.board.given(&cell, slot);
            if given == NONE {
                continue;
            }
            let stays = given == self.board.content(cell.block);
            if !(stays || self.is_left(number, cell.block)?)
                || !self.is_in_time(number, cell.block, given)?
            {
                self.targets.truncate(targets);
                return Ok(false);
            }
        }
        if act.cells > 1 {
            self.parts_tied(act, true)?;
        }
        if act.sure {
            self.aim_at_deallocates(act)?;
        }
        Ok(self.targets.len() == targets)
    }

    /// Whether each that has to find what is in the block now can do so before this act, or after another that puts it again.
    fn is_left(&mut self, number: u32, block: u32) -> Result<bool, NoMemory> {
        let part = self.board.part;
        let slot = self.board.content(block);
        for entry in self.board.acts_of(Group::Finders(slot))? {
            let finder = entry.act;
            if finder == number || self.board.is_over(finder) {
                continue;
            }
            let is_begun = entry.time <= self.board.horizon;
            let until = self.known.end(finder);
            if self.is_supplied(slot, number, finder, until, 0)? {
                if is_begun {
                    continue;
                }
                break;
            }
            self.blame(Field::Setter(block))?;
            self.blame_givers(slot)?;
            if !is_begun {
                return Ok(false);
            }
            self.aim(finder, NONE)?;
        }
        Ok(true)
    }

    /// Until when what the act puts in the block has to stay there: the latest beginning of those that find it and for whom nobody else
    /// puts it.
    fn stays_until(&mut self, number: u32, block: u32, slot: u32) -> Result<u32, NoMemory> {
        let given = self.next_of(Group::Givers(slot), number)?;
        let supplied = given.min(self.next_of(Group::Anything(block), number)?);
        for entry in self
            .board
            .acts_before(Group::Finders(slot), supplied)?
            .iter()
            .rev()
        {
            if entry.act != number
                && !self.board.is_over(entry.act)
                && (supplied == NONE || self.known.end(entry.act) < supplied)
            {
                return Ok(entry.time);
            }
        }
        Ok(0)
    }

    /// The time of the first act of a group that isn't over, but for this one.
    fn next_of(&mut self, group: Group, but: u32) -> Result<u32, NoMemory> {
        for entry in self.board.acts_of(group)? {
            if entry.act != but && !self.board.is_over(entry.act) {
                return Ok(entry.time);
            }
        }
        Ok(NONE)
    }

    /// Whether each act of the block that has to be done while what this one puts stays there can be done before.
    fn is_in_time(&mut self, number: u32, block: u32, slot: u32) -> Result<bool, NoMemory> {
        let part = self.board.part;
        let until = self.stays_until(number, block, slot)?;
        for entry in self.board.acts_before(Group::SureOf(block), until)? {
            let other = entry.act;
            if other == number || self.board.is_over(other) {
                continue;
            }
            let act = part.act(other);
            let Some(cell) = part.cell_of(&act, block) else {
                continue;
            };
            // A change alone that finds nothing can't be behind, where something stays.
            let can_be_after = cell.wants != Wants::Nothing && part.slots.suits(cell.wants, slot);
            if cell.gives == Gives::Slot(slot) || can_be_after {
                continue;
            }
            if act.from > self.board.horizon {
                return Ok(false);
            }
            self.aim(other, NONE)?;
        }
        Ok(true)
    }

    /// Whether the entry would come between two blocks of a tied act's point. `aims`: such acts are made targets.
    pub(super) fn parts_tied(&mut self, entry: &Act, aims: bool) -> Result<bool, NoMemory> {
        let part = self.board.part;
        let mut parts = false;
        for at in entry.cell..entry.cells_end() {
            for tied in self.board.acts_begun(Group::Tied(part.cell(at).block))? {
                if self.board.is_over(tied.act) {
                    continue;
                }
                let step = self.begun_in(entry, &part.act(tied.act));
                if step != 0 && aims {
                    self.conflict.push(step)?;
                    self.aim(tied.act, NONE)?;
                }
                parts = parts || step != 0;
            }
        }
        Ok(parts)
    }

    /// The last step at which the act's point was done in a block of the entry, counted from 1, or 0.
    pub(super) fn begun_in(&self, entry: &Act, act: &Act) -> u32 {
        let part = self.board.part;
        let mut last = 0u32;
        for sibling in act.sibling..act.siblings_end() {
            if part
                .cell_of(entry, part.cell(part.act(sibling).cell).block)
                .is_some()
            {
                last = last.max(self.board.at(Field::Step(sibling)));
            }
        }
        last
    }

    /// Makes targets of Deallocates that somebody needs and that couldn't be done any more after the act.
    fn aim_at_deallocates(&mut self, act: &Act) -> Result<(), NoMemory> {
        let part = self.board.part;
        for at in act.cell..act.cells_end() {
            let block = part.cell(at).block;
            for entry in self.board.acts_before(Group::Deallocates(block), act.from)? {
                let number = entry.act;
                if self.board.is_over(number) {
                    continue;
                }
                for slot in part.slots.deallocated(block) {
                    if slot != NONE && self.is_needed(number, slot, act.from)? {
                        self.aim(number, slot)?;
                    }
                }
            }
        }
        Ok(())
    }
}
