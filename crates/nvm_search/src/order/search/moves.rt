//! Which acts can be next: the one that has to be done first, or what has to be done before it.
use crate::order::acts::{Act, Cell, Gives, NONE, Wants};
use crate::order::board::Field;
use crate::order::lists::Group;
use crate::order::search::{Move, Search, Target};
use nvm_record::NoMemory;

impl<'p> Search<'p> {
    /// Finds moves that lead to an act, but for those from `start` on.
    pub(super) fn find_moves(&mut self, start: usize, wanted: u32) -> Result<(), NoMemory> {
        self.skip_moves(start);
        self.aim(wanted, NONE)?;
        self.visit_all()
    }

    /// Begins a round in which the moves from `start` on aren't found again.
    fn skip_moves(&mut self, start: usize) {
        self.round = self.round.saturating_add(1);
        for at in start..self.moves.len() {
            if let Some(made) = self.moves.get(at) {
                self.seen.put(made.act, self.round);
            }
        }
    }

    /// Finds the moves that lead to any change that has to be done, but for those from `start` on.
    pub(super) fn find_all_moves(&mut self, start: usize) -> Result<(), NoMemory> {
        let part = self.board.part;
        self.skip_moves(start);
        for entry in self.board.acts_begun(Group::Changes)? {
            if !self.board.is_over(entry.act) {
                self.aim(entry.act, NONE)?;
                self.visit_all()?;
            }
        }
        Ok(())
    }

    /// Visits the targets until there is none.
    fn visit_all(&mut self) -> Result<(), NoMemory> {
        for _ in 0..u64::MAX {
            let Some(target) = self.targets.pop() else {
                break;
            };
            self.visit(target)?;
        }
        Ok(())
    }

    /// Makes the act a target.
    pub(super) fn aim(&mut self, act: u32, slot: u32) -> Result<(), NoMemory> {
        self.targets.push(Target {
            act,
            slot,
            apart: false,
        })?;
        Ok(())
    }

    /// Adds the target's move if it can be next, or makes targets of what has to be done before.
    fn visit(&mut self, target: Target) -> Result<(), NoMemory> {
        self.left_in_all = self.left_in_all.saturating_sub(1);
        let number = target.act;
        let act = self.board.part.act(number);
        if self.board.is_over(number) || act.from > self.board.horizon {
            return Ok(());
        }
        if !target.apart {
            if self.seen.at(number) == self.round {
                return Ok(());
            }
            self.seen.put(number, self.round);
        }
        let targets = self.targets.len();
        self.known.aim_at_missing(number, &mut self.targets)?;
        if self.targets.len() > targets
            || self.has_to_wait(&act)?
            || !self.can_be_next(target, &act)?
        {
            return Ok(());
        }
        self.moves.push(Move {
            act: number,
            slot: target.slot,
        })?;
        Ok(())
    }

    /// Whether something has to be done before the act, as far as its times and what it finds go. That is made a target.
    fn has_to_wait(&mut self, act: &Act) -> Result<bool, NoMemory> {
        if self.board.is_too_early(act) {
            self.aim(act.before, NONE)?;
            return Ok(true);
        }
        if !self.board.fits_all(act, false) {
            self.aim_at_givers(act)?;
            return Ok(true);
        }
        if let Some((needed, slot)) = self.too_soon_for(act)? {
            self.aim(needed, slot)?;
            return Ok(true);
        }
        Ok(false)
    }

    /// Whether the act can be next, as far as others go that find or put something. What has to be done before is made a target.
    fn can_be_next(&mut self, target: Target, act: &Act) -> Result<bool, NoMemory> {
        if !act.is_look {
            return self.is_clear(target.act, act, target.slot);
        }
        if !act.tied {
            return Ok(true);
        }
        if !target.apart && self.aim_at_siblings(target, act)? {
            return Ok(false);
        }
        self.can_be_apart(target.act, act)
    }

    /// Where blocks of its point don't have yet what was found there, makes targets of those who put it, and then of the act apart.
    fn aim_at_siblings(&mut self, target: Target, act: &Act) -> Result<bool, NoMemory> {
        let part = self.board.part;
        let mut is_apart = false;
        for sibling in act.sibling..act.siblings_end() {
            let other = part.act(sibling);
            if self.board.is_placed(sibling) || self.board.fits_all(&other, false) {
                continue;
            }
            if !is_apart {
                is_apart = true;
                self.targets.push(Target {
                    apart: true,
                    ..target
                })?;
            }
            self.aim_at_givers(&other)?;
        }
        Ok(is_apart)
    }

    /// Makes targets of those who put what the act finds and what isn't there.
    fn aim_at_givers(&mut self, act: &Act) -> Result<(), NoMemory> {
        for at in act.cell..act.cells_end() {
            let cell = self.board.part.cell(at);
            if self.board.fits(&cell, false) {
                continue;
            }
            let other = match cell.wants {
                Wants::Nothing => continue,
                Wants::Slot(slot) => {
                    self.blame(Field::Loser(slot))?;
                    self.blame_givers(slot)?;
                    self.aim_at_slot(slot)?;
                    continue;
                }
                Wants::AnyBytes => NONE,
                Wants::OtherThan(other) => other,
            };
            self.blame(Field::Setter(cell.block))?;
            self.aim_at_others(&cell, other)?;
        }
        Ok(())
    }

    /// Makes targets of those who put the slot: those that surely do come first.
    fn aim_at_slot(&mut self, slot: u32) -> Result<(), NoMemory> {
        let part = self.board.part;
        let block = part.slots.block(slot);
        for entry in self.board.acts_begun(Group::Anything(block))? {
            self.aim(entry.act, slot)?;
        }
        let givers = self.board.acts_begun(Group::Givers(slot))?;
        for sure in [false, true] {
            for entry in givers {
                if part.act(entry.act).sure == sure && !self.board.is_over(entry.act) {
                    self.aim(entry.act, slot)?;
                }
            }
        }
        Ok(())
    }

    /// Makes targets of those who put bytes in the cell's block other than a slot's.
    fn aim_at_others(&mut self, cell: &Cell, other: u32) -> Result<(), NoMemory> {
        let part = self.board.part;
        for entry in self.board.acts_begun(Group::Writers(cell.block))? {
            let writer = entry.act;
            let Some(given) = part.cell_of(&part.act(writer), cell.block) else {
                continue;
            };
            let slot = match given.gives {
                Gives::Nothing => NONE,
                Gives::Slot(slot) => slot,
                Gives::Anything => self.board.other_slot(cell.block, other)?,
                Gives::Deallocated => self.deallocated_slot(cell.block, other)?,
            };
            if slot != NONE && slot != other && !part.slots.is_mark(slot) {
                self.aim(writer, slot)?;
            }
        }
        Ok(())
    }

    /// Whether each other block of its point can still get what was found there, by one that doesn't put this block, too.
    fn can_be_apart(&mut self, number: u32, act: &Act) -> Result<bool, NoMemory> {
        let part = self.board.part;
        for sibling in act.sibling..act.siblings_end() {
            let other = part.act(sibling);
            if sibling == number
                || self.board.is_placed(sibling)
                || self.board.fits_all(&other, false)
            {
                continue;
            }
            if !self.can_get(&other, act)? {
                self.blame(Field::Setter(part.cell(act.cell).block))?;
                self.blame(Field::Setter(part.cell(other.cell).block))?;
                if let Wants::Slot(slot) = part.cell(other.cell).wants {
                    self.blame(Field::Loser(slot))?;
                }
                return Ok(false);
            }
        }
        Ok(true)
    }

    /// Whether a block of a point can still get what was found there, by one that doesn't put another block of it that is done then.
    fn can_get(&mut self, act: &Act, done: &Act) -> Result<bool, NoMemory> {
        let part = self.board.part;
        let cell = part.cell(act.cell);
        let block = part.cell(done.cell).block;
        let Wants::Slot(slot) = cell.wants else {
            return Ok(true);
        };
        if self.board.first_of(Group::Anything(cell.block))?.act != NONE {
            return Ok(true);
        }
        let time = act.until.saturating_add(1);
        for entry in self.board.acts_before(Group::Givers(slot), time)? {
            if self.board.is_over(entry.act) {
                continue;
            }
            let giver = part.act(entry.act);
            if part.cell_of(&giver, block).is_none() && self.begun_in(&giver, act) == 0 {
                return Ok(true);
            }
        }
        Ok(false)
    }

    /// What a Deallocate may leave in the block other than a slot: what somebody has to find there, if that is one.
    fn deallocated_slot(&mut self, block: u32, other: u32) -> Result<u32, NoMemory> {
        let part = self.board.part;
        let [zeroes, ones] = part.slots.deallocated(block);
        let mut chosen = if zeroes != other { zeroes } else { NONE };
        if ones != NONE && ones != other {
            let finder = self.board.first_of(Group::Finders(ones))?;
            if chosen == NONE || finder.act != NONE {
                chosen = ones;
            }
        }
        Ok(chosen)
    }
}
