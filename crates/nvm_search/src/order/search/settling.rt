//! Looks that are done as soon as they find what they found: they change nothing, so that no order is lost.
use crate::numbers::to_u32;
use crate::order::acts::{Act, Gives, NONE};
use crate::order::board::Field;
use crate::order::lists::Group;
use crate::order::search::{Move, Search};
use nvm_record::NoMemory;

impl<'p> Search<'p> {
    /// Does the looks that have begun and find what they found, and gives the act that has to be done first, or none where all are done.
    pub(super) fn settle(&mut self) -> Result<u32, NoMemory> {
        let part = self.board.part;
        for _ in 0..u64::MAX {
            let urgent = self.board.first_of(Group::Sure)?;
            self.board.horizon = urgent.time;
            let begun = self.board.at(Field::Begun);
            let all = part.lists.up_to(Group::All, urgent.time);
            let mut is_done = false;
            for at in begun as usize..all.len() {
                is_done = self.look(all[at].act)? || is_done;
            }
            self.board.set(Field::Begun, begun.max(to_u32(all.len())))?;
            if urgent.act == NONE || !is_done {
                return Ok(urgent.act);
            }
        }
        Ok(NONE)
    }

    /// Does the looks of a group that can be done.
    fn look_all(&mut self, group: Group) -> Result<(), NoMemory> {
        for entry in self.board.acts_begun(group)? {
            self.look(entry.act)?;
        }
        Ok(())
    }

    /// Does the looks that find what is in the block now.
    pub(super) fn settle_block(&mut self, block: u32) -> Result<(), NoMemory> {
        self.look_all(Group::Loose(block))?;
        let content = self.board.content(block);
        self.look_all(Group::Willing(content))?;
        let content = self.board.content(block);
        self.look_all(Group::Finders(content))
    }

    /// Does the act if it is a look that finds what it found, with all of its point where that is tied. Says whether it was done.
    fn look(&mut self, number: u32) -> Result<bool, NoMemory> {
        let part = self.board.part;
        let act = part.act(number);
        let bound = act.sure || !act.any;
        if !act.is_look
            || self.board.is_over(number)
            || !self.board.fits_all(&act, bound)
            || self.known.is_held_up(number)
            || self.board.is_too_early(&act)
            || self.too_soon_for(&act)?.is_some()
        {
            return Ok(false);
        }
        let (from, to) = self.fellows(number);
        for fellow in from..to {
            let fits = !act.tied || self.board.fits_all(&part.act(fellow), true);
            if !fits && !self.board.is_placed(fellow) {
                return Ok(false);
            }
        }
        for fellow in from..to {
            if !self.board.is_placed(fellow) {
                self.place(Move::of(fellow))?;
            }
        }
        Ok(true)
    }

    /// An act that may be done, that somebody needs, and that couldn't be done any more after this one, and the slot that it has to give.
    pub(super) fn too_soon_for(&mut self, act: &Act) -> Result<Option<(u32, u32)>, NoMemory> {
        let part = self.board.part;
        if act.from <= self.board.at(Field::Latest) {
            return Ok(None);
        }
        for entry in self.board.acts_before(Group::Optional, act.from)? {
            let number = entry.act;
            if self.board.is_over(number) {
                continue;
            }
            if self.tries_all {
                return Ok(Some((number, NONE)));
            }
            let other = part.act(number);
            for at in other.cell..other.cells_end() {
                let cell = part.cell(at);
                let slots = match cell.gives {
                    Gives::Slot(slot) => slot..slot.saturating_add(1),
                    Gives::Anything => part.slots.all_of(cell.block),
                    Gives::Nothing | Gives::Deallocated => continue,
                };
                for slot in slots {
                    if self.is_needed(number, slot, act.from)? {
                        return Ok(Some((number, slot)));
                    }
                }
            }
        }
        Ok(None)
    }

    /// Whether somebody has to find the slot that the act may give, and nobody else can give it who may come after something that begins
    /// at this time, or somebody has to find something else than what is in the slot's block, and nobody else puts anything there in time.
    pub(super) fn is_needed(
        &mut self,
        number: u32,
        slot: u32,
        after: u32,
    ) -> Result<bool, NoMemory> {
        let part = self.board.part;
        let from = part.act(number).from;
        let block = part.slots.block(slot);
        let content = self.board.content(block);
        if content == slot {
            return Ok(false);
        }
        for entry in self.board.acts_of(Group::Finders(slot))? {
            let finder = entry.act;
            if self.board.is_over(finder) {
                continue;
            }
            let until = self.known.end(finder);
            if until >= from && !self.is_supplied(slot, number, finder, until, after)? {
                return Ok(true);
            }
            if entry.time > self.board.horizon {
                break;
            }
        }
        if part.slots.is_mark(slot) {
            return Ok(false);
        }
        for entry in self.board.acts_of(Group::Loose(block))? {
            let finder = part.act(entry.act);
            if self.board.is_over(entry.act) || !finder.sure || finder.any {
                continue;
            }
            let Some(cell) = part.cell_of(&finder, block) else {
                continue;
            };
            let waits = part.slots.suits(cell.wants, slot)
                && !part.slots.suits(cell.wants, content);
            if waits && finder.until >= from && !self.is_written(number, block, finder.until)? {
                return Ok(true);
            }
            if entry.time > self.board.horizon {
                break;
            }
        }
        Ok(false)
    }

    /// Whether another act surely puts something in the block that begins by a time.
    fn is_written(&mut self, one: u32, block: u32, until: u32) -> Result<bool, NoMemory> {
        let part = self.board.part;
        for entry in self
            .board
            .acts_before(Group::Writers(block), until.saturating_add(1))?
        {
            let writer = entry.act;
            if writer != one && !self.board.is_over(writer) && part.act(writer).sure {
                return Ok(true);
            }
        }
        Ok(false)
    }

    /// Whether another act than these two can give the slot, begins by a time, and may come after something that begins at another.
    pub(super) fn is_supplied(
        &mut self,
        slot: u32,
        one: u32,
        other: u32,
        until: u32,
        after: u32,
    ) -> Result<bool, NoMemory> {
        let part = self.board.part;
        let block = part.slots.block(slot);
        let is_begun = part.act(other).from <= self.board.horizon;
        let time = until.saturating_add(1);
        for entry in self.board.acts_before(Group::Anything(block), time)? {
            let giver = entry.act;
            if giver != one && !self.board.is_over(giver) && part.act(giver).until >= after {
                return Ok(true);
            }
        }
        for entry in self.board.acts_before(Group::Givers(slot), time)? {
            let giver = entry.act;
            if giver == one || giver == other || self.board.is_over(giver) {
                continue;
            }
            if self.known.is_before(other, giver) {
                continue;
            }
            let act = part.act(giver);
            // Where the finder has begun, what has to be done before the giver was, or can be now.
            let can_follow = !is_begun
                || !self.board.is_too_early(&act)
                || self.board.fits_all(&part.act(act.before), false);
            if act.sure || (act.until >= after && act.over >= after && can_follow) {
                return Ok(true);
            }
        }
        Ok(false)
    }
}
