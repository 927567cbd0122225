//! Whether anybody may find what an act puts, or what it puts that in the place of.
use crate::order::acts::{Act, NONE, Wants};
use crate::order::lists::Group;
use crate::order::search::Search;
use nvm_record::NoMemory;

impl<'p> Search<'p> {
    /// Whether the act can be next, has to be done, and nobody finds what it puts or, before it, what it puts that in the place of: then each
    /// order that goes on from here does so as well with the act first.
    pub(super) fn is_unseen(&mut self, number: u32) -> Result<bool, NoMemory> {
        let part = self.board.part;
        let act = part.act(number);
        if !act.sure
            || act.any
            || act.is_look
            || !self.can_be_tried(number)?
            || self.too_soon_for(&act)?.is_some()
        {
            return Ok(false);
        }
        for at in act.cell..act.cells_end() {
            let cell = part.cell(at);
            let given = self.board.given(&cell, NONE);
            let content = self.board.content(cell.block);
            if cell.wants != Wants::Nothing
                || given == NONE
                || part.slots.is_unknown(content)
                || self.has_begun(Group::Finders(given), NONE)?
                || self.has_begun(Group::Willing(given), NONE)?
                || self.has_begun(Group::Finders(content), act.until)?
                || self.has_begun(Group::Willing(content), act.until)?
                || self.has_loose(&act, cell.block)?
                || self.has_begun(Group::Deallocates(cell.block), act.from)?
            {
                return Ok(false);
            }
        }
        Ok(true)
    }

    /// Whether somebody may find something in the block that isn't what was compared. Whoever comes behind something else that is surely put
    /// there after the act doesn't count.
    fn has_loose(&mut self, act: &Act, block: u32) -> Result<bool, NoMemory> {
        let part = self.board.part;
        let mut rewritten = NONE;
        for entry in self.board.acts_of(Group::Writers(block))? {
            let writer = part.act(entry.act);
            if entry.time > act.until && writer.sure && !writer.any {
                rewritten = writer.until;
                break;
            }
        }
        self.has_begun(Group::Loose(block), rewritten)
    }

    /// Whether somebody may find what the act puts. What can be done right before that, which is so of one block where time is left, is of use
    /// only to somebody who began.
    pub(super) fn is_of_use(&mut self, act: &Act, slot: u32) -> Result<bool, NoMemory> {
        let part = self.board.part;
        let most = if act.cells > 1 || act.until < self.board.horizon {
            NONE
        } else {
            self.board.horizon
        };
        for at in act.cell..act.cells_end() {
            let cell = part.cell(at);
            let given = self.board.given(&cell, slot);
            if given == NONE || given == self.board.content(cell.block) {
                continue;
            }
            if self.has_begun(Group::Finders(given), most)?
                || self.has_begun(Group::Willing(given), most)?
                || self.has_begun(Group::Loose(cell.block), most)?
            {
                return Ok(true);
            }
        }
        Ok(false)
    }

    /// Whether an act of a group that isn't over begins by this time.
    fn has_begun(&mut self, group: Group, most: u32) -> Result<bool, NoMemory> {
        let first = self.board.first_of(group)?;
        Ok(first.act != NONE && first.time <= most)
    }
}
