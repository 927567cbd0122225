//! Acts that are done right behind optional ones that put what they find.
use crate::order::acts::{Cell, NONE, Wants};
use crate::order::lists::Group;
use crate::order::search::every::Later;
use crate::order::search::{Move, Search};
use nvm_record::NoMemory;

/// In the place of a move's slot: the act is done with its fellows, behind optional acts that put what they find.
const FETCHED: u32 = NONE - 1;

impl<'p> Search<'p> {
    /// The acts that are done together with this one: of a tied look all of its point.
    pub(super) fn fellows(&self, number: u32) -> (u32, u32) {
        let act = self.board.part.act(number);
        if act.tied && act.is_look {
            (act.sibling, act.siblings_end())
        } else {
            (number, number.saturating_add(1))
        }
    }

    /// An optional act of one block that can put there now what the cell finds.
    fn fetcher(&mut self, cell: &Cell) -> Result<Option<Move>, NoMemory> {
        let part = self.board.part;
        let Wants::Slot(slot) = cell.wants else {
            return Ok(None);
        };
        for entry in self.board.acts_begun(Group::Givers(slot))? {
            let giver = entry.act;
            let act = part.act(giver);
            if !act.sure && !act.is_look && act.cells == 1 && self.can_be_tried(giver)? {
                return Ok(Some(Move { act: giver, slot }));
            }
        }
        Ok(None)
    }

    /// Adds the move of doing an act with its fellows behind optional ones, if each block in which they don't find what they found can get
    /// that so, and it is the first of them that isn't done. Says whether it did.
    pub(super) fn try_fetched(&mut self, number: u32, later: &mut Later) -> Result<bool, NoMemory> {
        let act = self.board.part.act(number);
        if act.any
            || self.board.is_over(number)
            || self.board.is_placed(number)
            || self.board.is_too_early(&act)
            || (!act.is_look && self.board.fits_all(&act, false))
        {
            return Ok(false);
        }
        for fellow in self.fellows(number).0..number {
            if !self.board.is_placed(fellow) {
                return Ok(false);
            }
        }
        let made = Move {
            act: number,
            slot: FETCHED,
        };
        match self.fetch(number, false)? {
            Some(true) => self.moves.push(made)?,
            Some(false) => later.unclear.push(made)?,
            None => return Ok(false),
        }
        Ok(true)
    }

    /// Goes over the optional acts that put what the act and its fellows find. Says whether nothing seems to have to be done before them,
    /// and nothing where there is none in some block. `places`: it does those that there are instead.
    fn fetch(&mut self, number: u32, places: bool) -> Result<Option<bool>, NoMemory> {
        let part = self.board.part;
        let (from, to) = self.fellows(number);
        let mut is_clear = true;
        for fellow in from..to {
            let act = part.act(fellow);
            for at in act.cell..act.cells_end() {
                let cell = part.cell(at);
                if self.board.is_placed(fellow) || self.board.fits(&cell, false) {
                    continue;
                }
                match self.fetcher(&cell)? {
                    Some(made) if places => self.place(made)?,
                    Some(made) => {
                        let giver = part.act(made.act);
                        is_clear = is_clear && self.is_clear(made.act, &giver, made.slot)?;
                    }
                    None if places => {}
                    None => return Ok(None),
                }
            }
        }
        Ok(Some(is_clear))
    }

    /// Makes the move.
    pub(super) fn make_any(&mut self, made: Move) -> Result<(), NoMemory> {
        if made.slot != FETCHED {
            return self.make(made);
        }
        self.fetch(made.act, true)?;
        let part = self.board.part;
        let (from, to) = self.fellows(made.act);
        for fellow in from..to {
            let act = part.act(fellow);
            for at in act.cell..act.cells_end() {
                self.settle_block(part.cell(at).block)?;
            }
        }
        for fellow in from..to {
            if self.can_be_tried(fellow)? {
                self.make(Move::of(fellow))?;
            }
        }
        Ok(())
    }
}
