//! What is in the blocks: which acts may find it, and what they put in its place.
use crate::order::acts::{Act, Cell, Gives, NONE, Wants};
use crate::order::board::{Board, Field, key};
use crate::order::lists::Group;
use nvm_record::NoMemory;

impl<'p> Board<'p> {
    /// The slot that is in the block.
    pub fn content(&self, block: u32) -> u32 {
        self.at(Field::Content(block))
    }

    /// Whether the cell may find what is in its block. `bound`: what nobody knows is no content.
    pub fn fits(&self, cell: &Cell, bound: bool) -> bool {
        let slot = self.content(cell.block);
        if self.part.slots.is_unknown(slot) {
            return !bound || cell.wants == Wants::Nothing;
        }
        self.part.slots.suits(cell.wants, slot)
    }

    /// Whether the act may find what is there.
    pub fn fits_all(&self, act: &Act, bound: bool) -> bool {
        for at in act.cell..act.cells_end() {
            let fits = self.fits(&self.part.cell(at), bound);
            if fits == act.any {
                return fits;
            }
        }
        !act.any
    }

    /// The slot that the cell gives. `slot`: where it has a choice, that.
    pub fn given(&self, cell: &Cell, slot: u32) -> u32 {
        match cell.gives {
            Gives::Nothing => NONE,
            Gives::Slot(given) => given,
            Gives::Deallocated | Gives::Anything => slot,
        }
    }

    /// Puts the slot in the block.
    fn put(&mut self, block: u32, slot: u32) -> Result<(), NoMemory> {
        let old = self.content(block);
        if old != slot {
            let step = self.next_step();
            self.hash ^= key(block, old) ^ key(block, slot);
            self.set(Field::Content(block), slot)?;
            self.set(Field::Setter(block), step)?;
            self.set(Field::Loser(old), step)?;
        }
        Ok(())
    }

    /// Says what was in a block at first, where nobody knew.
    pub(super) fn bind(&mut self, block: u32, slot: u32) -> Result<(), NoMemory> {
        self.set(Field::First(block), slot)?;
        self.put(block, slot)
    }

    /// A slot of the block with other bytes than one: what somebody has to find soonest, or what nobody finds or puts.
    pub fn other_slot(&mut self, block: u32, other: u32) -> Result<u32, NoMemory> {
        let part = self.part;
        let mut chosen = part.slots.of(block, part.fresh);
        let mut soonest = NONE;
        for slot in part.slots.all_of(block) {
            let finder = self.first_of(Group::Finders(slot))?.act;
            if slot != other && finder != NONE && part.act(finder).until < soonest {
                soonest = part.act(finder).until;
                chosen = slot;
            }
        }
        Ok(chosen)
    }

    /// Where nobody knew what is in the cell's block, what it finds was there.
    fn bind_cell(&mut self, cell: &Cell) -> Result<(), NoMemory> {
        if !self.part.slots.is_unknown(self.content(cell.block)) {
            return Ok(());
        }
        let slot = match cell.wants {
            Wants::Nothing => return Ok(()),
            Wants::Slot(slot) => slot,
            Wants::AnyBytes => self.other_slot(cell.block, NONE)?,
            Wants::OtherThan(other) => self.other_slot(cell.block, other)?,
        };
        self.bind(cell.block, slot)
    }

    /// Finds and puts what the act does. Of an act of which one block is done gives that.
    pub fn put_all(&mut self, act: &Act, slot: u32) -> Result<u32, NoMemory> {
        for at in act.cell..act.cells_end() {
            let cell = self.part.cell(at);
            if act.any {
                if self.fits(&cell, false) {
                    self.bind_cell(&cell)?;
                    return Ok(cell.block);
                }
                continue;
            }
            self.bind_cell(&cell)?;
            let given = self.given(&cell, slot);
            if given != NONE {
                self.put(cell.block, given)?;
                if act.sure {
                    let field = Field::Rewritten(cell.block);
                    let began = self.at(field).max(act.from.saturating_add(1));
                    self.set(field, began)?;
                }
            }
        }
        Ok(NONE)
    }
}
