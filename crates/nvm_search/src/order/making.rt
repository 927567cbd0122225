//! The acts of a part.
use crate::numbers::{MARK, ZERO, block_at, to_u32};
use crate::order::acts::{Act, Cell, Gives, NO_ACT, NO_CELL, NONE, Wants};
use crate::order::known::Known;
use crate::order::lists::Lists;
use crate::order::parts::Share;
use crate::order::slots::Slots;
use crate::order::together::is_left_out;
use nvm_record::NoMemory;
use nvm_standard::{Found, Point, Presence, Put};
use nvm_trace::Start;
use std::alloc::Global;

/// A part: its acts, and who finds and gives what.
#[derive(Drop)]
pub struct Part {
    /// The first block.
    pub first: u32,
    pub blocks: u32,
    pub acts: Vec<Act>,
    pub cells: Vec<Cell>,
    pub slots: Slots,
    /// The value of a block that nobody is expected to find or put.
    pub fresh: u32,
    pub starts_unknown: bool,
    /// Whether points that have blocks in other parts, too, were taken or left out by choice.
    pub is_chosen: bool,
    pub lists: Lists,
}

impl Part {
    pub fn act(&self, number: u32) -> Act {
        match self.acts.get(number as usize) {
            Some(act) => *act,
            None => NO_ACT,
        }
    }

    pub fn cell(&self, number: u32) -> Cell {
        match self.cells.get(number as usize) {
            Some(cell) => *cell,
            None => NO_CELL,
        }
    }

    /// How many acts there are.
    pub fn count(&self) -> u32 {
        to_u32(self.acts.len())
    }

    /// The act's cell of the block, where it has one.
    pub fn cell_of(&self, act: &Act, block: u32) -> Option<Cell> {
        let first = self.cell(act.cell).block;
        let place = block.checked_sub(first)?;
        if place < act.cells {
            Some(self.cell(act.cell.saturating_add(place)))
        } else {
            None
        }
    }

    /// Adds the cell of a point's block, with values in place of slots.
    fn add_cell<'t>(
        &mut self,
        known: &mut Known<'_, 't>,
        point: &Point<'t>,
        block: u32,
    ) -> Result<(), NoMemory> {
        let size = known.points.block_size;
        let place = block.saturating_sub(point.first) as usize;
        let block = block.saturating_sub(self.first);
        let wants = match point.found {
            Found::Nothing => Wants::Nothing,
            Found::AnyBytes => Wants::AnyBytes,
            Found::Bytes(payload) => {
                Wants::Slot(known.values.value_of(block_at(payload, size, place))?)
            }
            Found::OtherThan(payload) => {
                Wants::OtherThan(known.values.value_of(block_at(payload, size, place))?)
            }
        };
        if let Wants::Slot(value) | Wants::OtherThan(value) = wants {
            self.slots.add(block, value)?;
        }
        let gives = match point.put {
            Put::Nothing => Gives::Nothing,
            Put::Bytes(payload) => {
                Gives::Slot(known.values.value_of(block_at(payload, size, place))?)
            }
            Put::Zeroes => Gives::Slot(ZERO),
            Put::Mark => Gives::Slot(MARK),
            Put::Deallocated => Gives::Deallocated,
            Put::Anything => Gives::Anything,
        };
        if let Gives::Slot(value) = gives {
            self.slots.add(block, value)?;
        }
        let act = self.count();
        self.cells.push(Cell {
            act,
            block,
            wants,
            gives,
        })?;
        Ok(())
    }

    /// Adds the acts of a point in the part. `before`: the act, or the first of the acts, that has to be done before.
    fn add<'t>(
        &mut self,
        known: &mut Known<'_, 't>,
        point: &Point<'t>,
        share: &Share,
        before: u32,
    ) -> Result<(), NoMemory> {
        let any = point.presence == Presence::OneOf && point.blocks > 1;
        let in_each = point.each && !any && point.presence != Presence::Together;
        let mut act = Act {
            point: share.point,
            from: known.rank(Some(point.from)),
            until: known.rank(point.until),
            over: known.rank(point.over),
            sure: match point.presence {
                Presence::Sure => true,
                Presence::Together => known.together.at(share.point) == 1,
                Presence::Optional | Presence::Repeated => false,
                Presence::OneOf => known.holder.at(share.point) == share.part,
            },
            any,
            again: point.presence == Presence::Repeated,
            tied: point.tied,
            is_look: matches!(&point.put, Put::Nothing),
            before: if in_each { before } else { NONE },
            sibling: self.count(),
            siblings: if in_each { share.blocks } else { 1 },
            cell: to_u32(self.cells.len()),
            cells: if in_each { 1 } else { share.blocks },
        };
        let is_one = self.act(before).cells > 1;
        for place in 0..share.blocks {
            self.add_cell(known, point, share.first.saturating_add(place))?;
            if in_each {
                self.acts.push(act)?;
                act.cell = act.cell.saturating_add(1);
                if before != NONE && !is_one {
                    act.before = act.before.saturating_add(1);
                }
            }
        }
        if !in_each {
            self.acts.push(act)?;
        }
        Ok(())
    }

    /// Puts slots in the place of values.
    fn find_slots(&mut self) {
        let slots = &self.slots;
        for cell in self.cells.iter_mut() {
            cell.wants = match cell.wants {
                Wants::Slot(value) => Wants::Slot(slots.of(cell.block, value)),
                Wants::OtherThan(value) => Wants::OtherThan(slots.of(cell.block, value)),
                wants => wants,
            };
            cell.gives = match cell.gives {
                Gives::Slot(value) => Gives::Slot(slots.of(cell.block, value)),
                gives => gives,
            };
        }
    }

    /// Who finds and gives what.
    fn list_all(&self, alloc: Global) -> Result<Lists, NoMemory> {
        let mut lists = Lists::new(alloc, self.blocks, self.slots.count());
        for number in 0..self.count() {
            lists.add(&self.act(number), number)?;
        }
        for cell in &self.cells {
            let deallocated = self.slots.deallocated(cell.block);
            lists.add_cell(&self.act(cell.act), cell, deallocated)?;
        }
        lists.sort(alloc)?;
        Ok(lists)
    }
}

/// The part of these shares.
pub fn part_of(known: &mut Known<'_, '_>, shares: &[Share]) -> Result<Part, NoMemory> {
    let points = known.points;
    let mut first = NONE;
    let mut end = 0u32;
    for share in shares {
        first = first.min(share.first);
        end = end.max(share.first.saturating_add(share.blocks));
    }
    let blocks = end.saturating_sub(first);
    let mut part = Part {
        first,
        blocks,
        acts: Vec::new(known.alloc),
        cells: Vec::new(known.alloc),
        slots: Slots::new(known, blocks)?,
        fresh: known.fresh,
        starts_unknown: points.start == Start::Unknown,
        is_chosen: false,
        lists: Lists::new(known.alloc, 0, 0),
    };
    let mut last = NONE;
    let mut last_act = 0u32;
    for share in shares {
        let Some(point) = points.points.get(share.point as usize) else {
            break;
        };
        let is_choice = matches!(&point.presence, Presence::OneOf | Presence::Together);
        part.is_chosen = part.is_chosen || (is_choice && known.is_split(share.point));
        let is_elsewhere = known.met.at(share.point) == 1
            && known.holder.at(share.point) != share.part;
        if is_elsewhere || is_left_out(known, point, share.point) {
            continue;
        }
        let is_next = point.after && last.saturating_add(1) == share.point;
        let before = if is_next { last_act } else { NONE };
        last = share.point;
        last_act = part.count();
        part.add(known, point, share, before)?;
    }
    part.slots.sort()?;
    part.find_slots();
    part.lists = part.list_all(known.alloc)?;
    Ok(part)
}
