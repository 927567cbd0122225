//! Who put what an act finds, where that is sure.
use crate::numbers::{ZERO, to_u32};
use crate::order::acts::{NONE, Wants};
use crate::order::board::Board;
use crate::order::derivation::{Derivation, Open, START};
use crate::order::lists::{Entry, Group};
use nvm_record::NoMemory;

/// How many that may have put something are looked at for one that found it.
const MOST_GIVERS: u32 = 65;
/// How many words of nodes after those beside an act are looked at once it is done.
const MOST_AFTER: u32 = 2;

impl<'p> Derivation<'p> {
    /// Whether the act surely puts something else in the slot's block.
    fn puts_other(&self, number: u32, block: u32, slot: u32) -> bool {
        let put = self.put_by(self.cell_at(&self.part.act(number), block));
        put != NONE && put != slot
    }

    /// Who may put something in the block and begins before the node has to be done.
    fn writers_for(&self, node: u32, block: u32) -> &'p [Entry] {
        let part = self.part;
        part.lists
            .up_to(Group::Writers(block), self.order.end(node))
    }

    /// The latest beginning among acts that surely put something else than the slot before the node, counted from 1.
    fn newest_before(&self, node: u32, slot: u32) -> u32 {
        let block = self.part.slots.block(slot);
        let first = self.order.first_beside(node);
        for entry in self.writers_for(node, block).iter().rev() {
            let Some(writer) = self.node(entry.act) else {
                continue;
            };
            if writer == node || !self.puts_other(entry.act, block, slot) {
                continue;
            }
            if self.order.is_before(writer, node) {
                return entry.time.saturating_add(1);
            }
            if writer < first {
                break;
            }
        }
        0
    }

    /// The node that surely put what a node finds, counted from 1, or what was there at first, or 0. Where nobody can have put it,
    /// something is absurd.
    pub(super) fn source_of(&mut self, board: Option<&Board<'_>>, node: u32, slot: u32) -> u32 {
        let part = self.part;
        let until = self.order.end(node);
        let block = part.slots.block(slot);
        let newest = self.newest_before(node, slot);
        let mut source = 0;
        let mut count = 0u32;
        let is_there = match board {
            Some(board) => board.content(block) == slot,
            None => true,
        };
        if is_there && newest == 0 && (part.starts_unknown || part.slots.value(slot) == ZERO) {
            source = START;
            count = 1;
        }
        if !part.lists.up_to(Group::Anything(block), until).is_empty() {
            return 0;
        }
        let givers = Group::Givers(slot);
        let mut reach = part
            .lists
            .start(givers)
            .saturating_sub(part.lists.start(Group::Givers(0)));
        let givers = part.lists.up_to(givers, until);
        reach = reach.saturating_add(to_u32(givers.len()));
        let mut looked = 0u32;
        for entry in givers.iter().rev() {
            reach = reach.saturating_sub(1);
            looked = looked.saturating_add(1);
            if self.reach.at(reach).saturating_add(1) < newest {
                break;
            }
            if looked > MOST_GIVERS {
                return 0;
            }
            let giver = self.nodes.at(entry.act);
            if let Some(board) = board {
                if !is_there && board.is_over(entry.act) {
                    continue;
                }
            }
            if giver == node.saturating_add(1)
                || part.act(entry.act).until.saturating_add(1) < newest
                || self.is_behind(node, giver, block, slot)
            {
                continue;
            }
            count = count.saturating_add(1);
            if count > 1 || giver == 0 {
                return 0;
            }
            source = giver;
        }
        if count == 0 {
            self.order.is_absurd = true;
        }
        source
    }

    /// Whether the giver, a node counted from 1, comes after the node, or something else was surely put between them.
    fn is_behind(&self, node: u32, giver: u32, block: u32, slot: u32) -> bool {
        let Some(giver) = giver.checked_sub(1) else {
            return false;
        };
        if self.order.is_before(node, giver) {
            return true;
        }
        let first = self.order.first_beside(node);
        let first = first.min(self.order.first_beside(giver));
        for entry in self.writers_for(node, block).iter().rev() {
            let Some(writer) = self.node(entry.act) else {
                continue;
            };
            if writer < first {
                break;
            }
            if writer != node
                && writer != giver
                && self.puts_other(entry.act, block, slot)
                && self.order.is_before(giver, writer)
                && self.order.is_before(writer, node)
            {
                return true;
            }
        }
        false
    }

    /// Notes who put what the node's cell finds. Of each that puts something else in the block, where it is known to be on one side of
    /// the node or of the giver, notes on which side of both.
    pub(super) fn set_source(&mut self, node: u32, cell: u32, source: u32) -> Result<(), NoMemory> {
        let part = self.part;
        self.links.set(cell, source)?;
        let found = part.cell(cell);
        let Wants::Slot(slot) = found.wants else {
            return Ok(());
        };
        let giver = if source == START {
            None
        } else {
            source.checked_sub(1)
        };
        let mut first = self.order.first_beside(node);
        if let Some(giver) = giver {
            let at = self.cell_at(&part.act(self.acts.at(giver)), found.block);
            let place = self.finder_place(at);
            let other = self.links.at(place);
            self.links.set(place, cell.saturating_add(1))?;
            let place = self.other_place(cell);
            self.links.set(place, other)?;
            self.order.add(giver, node)?;
            first = first.min(self.order.first_beside(giver));
        }
        for entry in self.writers_for(node, found.block).iter().rev() {
            let Some(writer) = self.node(entry.act) else {
                continue;
            };
            if writer < first {
                break;
            }
            if writer == node
                || giver == Some(writer)
                || !self.puts_other(entry.act, found.block, slot)
            {
                continue;
            }
            let Some(giver) = giver else {
                self.order.add(node, writer)?;
                continue;
            };
            if self.order.is_before(giver, writer) {
                self.order.add(node, writer)?;
            }
            if self.order.is_before(writer, node) {
                self.order.add(writer, giver)?;
            }
        }
        Ok(())
    }

    /// Looks again for who put what is found in the block, by those beside the node or soon after it that aren't done.
    pub(super) fn close(
        &mut self,
        board: &Board<'_>,
        node: u32,
        block: u32,
    ) -> Result<(), NoMemory> {
        let part = self.part;
        let from = part.act(self.acts.at(self.order.first_beside(node))).from;
        let last = self
            .order
            .last_word(node)
            .saturating_add(MOST_AFTER)
            .saturating_mul(32);
        let last = self.acts.at(last.min(self.order.count().saturating_sub(1)));
        let until = part.act(last).from;
        let sought = Open {
            block,
            from,
            cell: 0,
        };
        for place in self.open.partition_point(|open| *open < sought)..self.open.len() {
            let Some(open) = self.open.get(place) else {
                break;
            };
            let open = *open;
            if self.order.is_absurd || open.block != block || open.from > until {
                break;
            }
            let cell = part.cell(open.cell);
            let (Some(finder), Wants::Slot(slot)) = (self.node(cell.act), cell.wants) else {
                continue;
            };
            if self.source(open.cell) != 0 || self.order.is_done(finder) {
                continue;
            }
            let source = self.source_of(Some(board), finder, slot);
            if source != 0 {
                self.set_source(finder, open.cell, source)?;
                self.follow()?;
            }
        }
        Ok(())
    }
}
