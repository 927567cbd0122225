//! Every order of a part's acts, one after the other, where moves that look right lead to none.
use crate::numbers::to_u32;
use crate::order::acts::{Act, Gives, NONE};
use crate::order::board::Field;
use crate::order::lists::Group;
use crate::order::search::{Move, Search};
use nvm_record::NoMemory;

/// How many looks it is to try an act that can be next.
const TRIED: u64 = 8;

/// Moves that are made behind others: before which something else seems to have to be done, and then of optional acts alone.
#[derive(Drop)]
pub(super) struct Later {
    pub unclear: Vec<Move>,
    pub optional: Vec<Move>,
}

impl<'p> Search<'p> {
    /// Whether there is an order, which the board has then. None where the search went on for as long as it might. It begins anew, and
    /// what was in the blocks at first has to be known.
    pub fn run_through(&mut self) -> Result<Option<bool>, NoMemory> {
        self.tries_all = true;
        for _ in 0..u64::MAX {
            if self.settle()? == NONE {
                return Ok(Some(true));
            }
            if self.left_in_all == 0 {
                break;
            }
            if !self.failed.has(self.board.hash) {
                self.failed.note(self.board.hash)?;
                self.find_every_move()?;
            }
            if !self.take_next()? {
                return Ok(Some(false));
            }
        }
        Ok(None)
    }

    /// Makes the next move of the last turn that has one. Says whether there was one.
    fn take_next(&mut self) -> Result<bool, NoMemory> {
        for _ in 0..u64::MAX {
            let Some(turn) = self.turns.last() else {
                break;
            };
            let turn = *turn;
            self.return_to(&turn);
            if turn.next < self.moves.len() {
                self.settle()?;
                self.take_move()?;
                return Ok(true);
            }
            self.drop_turn(turn.start);
        }
        Ok(false)
    }

    /// A turn of all moves that can be made now: first those before which nothing else seems to have to be done, and last what needn't be
    /// done at all.
    fn find_every_move(&mut self) -> Result<(), NoMemory> {
        let part = self.board.part;
        let turn = self.turn(true);
        let mut later = Later {
            unclear: Vec::new(self.alloc),
            optional: Vec::new(self.alloc),
        };
        let begun = part.lists.up_to(Group::All, self.board.horizon);
        let left = self.board.acts_of(Group::All)?.len();
        let mut at = part.acts.len().saturating_sub(left);
        for _ in 0..part.acts.len() {
            at = self.skip_over(at)?;
            let Some(entry) = begun.get(at) else {
                break;
            };
            if self.is_unseen(entry.act)? {
                self.moves.truncate(turn.start);
                self.moves.push(Move::of(entry.act))?;
                later.unclear.clear();
                later.optional.clear();
                break;
            }
            let is_tried = self.try_act(entry.act, &mut later)?;
            self.left_in_all = self
                .left_in_all
                .saturating_sub(if is_tried { TRIED } else { 1 });
            at = at.saturating_add(1);
        }
        self.moves.extend_from_slice(&later.unclear)?;
        self.moves.extend_from_slice(&later.optional)?;
        self.turns.push(turn)?;
        self.targets.clear();
        self.conflict.clear();
        Ok(())
    }

    /// The first place of all acts by beginning, from this one on, whose act isn't over.
    fn skip_over(&mut self, place: usize) -> Result<usize, NoMemory> {
        let part = self.board.part;
        let mut at = place;
        for _ in place..part.acts.len() {
            let Some(entry) = part.lists.of(Group::All).get(at) else {
                break;
            };
            if !self.board.is_over(entry.act) {
                break;
            }
            let skipped = self.board.at(Field::Skip(to_u32(at))).max(1);
            at = at.saturating_add(skipped as usize);
        }
        if at > place {
            let skipped = to_u32(at.saturating_sub(place));
            self.board.set(Field::Skip(to_u32(place)), skipped)?;
        }
        Ok(at)
    }

    /// Whether the act can be next in any order that goes on.
    pub(super) fn can_be_tried(&mut self, number: u32) -> Result<bool, NoMemory> {
        let part = self.board.part;
        let act = part.act(number);
        if self.board.is_over(number)
            || !self.board.fits_all(&act, false)
            || self.board.is_too_early(&act)
        {
            return Ok(false);
        }
        if act.is_look {
            return Ok(true);
        }
        for at in act.cell..act.cells_end() {
            let cell = part.cell(at);
            let content = self.board.content(cell.block);
            let stays = matches!(&cell.gives, Gives::Nothing) || cell.gives == Gives::Slot(content);
            if !stays && self.is_last_of(number, content)? {
                return Ok(false);
            }
        }
        Ok(act.cells < 2 || !self.parts_tied(&act, false)?)
    }

    /// Adds the act's moves. Says whether it can be next.
    fn try_act(&mut self, number: u32, later: &mut Later) -> Result<bool, NoMemory> {
        let part = self.board.part;
        let act = part.act(number);
        if act.is_look && act.tied {
            let is_fetched = self.try_fetched(number, later)?;
            if self.can_be_tried(number)? && self.may_be_apart(&act)? {
                later.optional.push(Move::of(number))?;
                return Ok(true);
            }
            return Ok(is_fetched);
        }
        if !self.can_be_tried(number)? {
            return self.try_fetched(number, later);
        }
        let cell = part.cell(act.cell);
        if cell.gives == Gives::Deallocated {
            for slot in part.slots.deallocated(cell.block) {
                if slot != NONE {
                    self.add_try(Move { act: number, slot }, later)?;
                }
            }
        } else {
            self.add_try(Move::of(number), later)?;
        }
        Ok(true)
    }

    /// Whether something may come between the tied look and another block of its point that isn't done: what puts nothing there.
    fn may_be_apart(&mut self, look: &Act) -> Result<bool, NoMemory> {
        let part = self.board.part;
        let block = part.cell(look.cell).block;
        for entry in self.board.acts_begun(Group::Writers(block))? {
            if self.board.is_over(entry.act) {
                continue;
            }
            let writer = part.act(entry.act);
            for sibling in look.sibling..look.siblings_end() {
                let block = part.cell(part.act(sibling).cell).block;
                if !self.board.is_placed(sibling) && part.cell_of(&writer, block).is_none() {
                    return Ok(true);
                }
            }
        }
        Ok(false)
    }

    /// Whether somebody else than the act has to find the slot, which is in its block now, and nobody can put it there again in time.
    fn is_last_of(&mut self, number: u32, slot: u32) -> Result<bool, NoMemory> {
        for entry in self.board.acts_of(Group::Finders(slot))? {
            if entry.act != number
                && !self.board.is_over(entry.act)
                && !self.can_be_given(slot, number, entry.act)?
            {
                return Ok(true);
            }
        }
        Ok(false)
    }

    /// Whether another act than these two can give the slot and begins before the second has to be done.
    fn can_be_given(&mut self, slot: u32, one: u32, finder: u32) -> Result<bool, NoMemory> {
        let until = self.board.part.act(finder).until.saturating_add(1);
        for entry in self.board.acts_before(Group::Givers(slot), until)? {
            let giver = entry.act;
            if giver != one && giver != finder && !self.board.is_over(giver) {
                return Ok(true);
            }
        }
        Ok(false)
    }

    /// Adds the move, unless it is of no use.
    fn add_try(&mut self, made: Move, later: &mut Later) -> Result<(), NoMemory> {
        let act = self.board.part.act(made.act);
        if !act.sure && !act.is_look {
            if self.is_of_use(&act, made.slot)? {
                later.optional.push(made)?;
            }
        } else if act.is_look || self.is_clear(made.act, &act, made.slot)? {
            self.moves.push(made)?;
        } else {
            later.unclear.push(made)?;
        }
        Ok(())
    }
}
