//! What follows from an act's being before another.
use crate::order::acts::{Act, NONE, Wants};
use crate::order::derivation::{Derivation, START};
use crate::order::lists::Group;
use nvm_record::NoMemory;

impl<'p> Derivation<'p> {
    /// Draws the consequences of all that was found.
    pub(super) fn follow(&mut self) -> Result<(), NoMemory> {
        for _ in 0..u64::MAX {
            if self.order.is_absurd {
                break;
            }
            let Some((one, other)) = self.order.found.pop() else {
                break;
            };
            self.follow_pair(one, other)?;
        }
        Ok(())
    }

    /// Draws the consequences of one node's being before another.
    fn follow_pair(&mut self, one: u32, other: u32) -> Result<(), NoMemory> {
        let early = self.part.act(self.acts.at(one));
        let late = self.part.act(self.acts.at(other));
        let early_first = self.part.cell(early.cell).block;
        let late_first = self.part.cell(late.cell).block;
        let first = early_first.max(late_first);
        let end = early_first
            .saturating_add(early.cells)
            .min(late_first.saturating_add(late.cells));
        for block in first..end {
            let early_cell = self.cell_at(&early, block);
            let late_cell = self.cell_at(&late, block);
            self.follow_block(one, other, early_cell, late_cell)?;
        }
        if first >= end {
            return Ok(());
        }
        if early.tied && late.cells > 1 && !late.is_look {
            self.follow_tied(&early, &late, other, true)?;
        }
        if late.tied && early.cells > 1 && !early.is_look {
            self.follow_tied(&late, &early, one, false)?;
        }
        Ok(())
    }

    /// What follows in a block: those who find what the one put are before the other, and what the other finds was put after the one.
    fn follow_block(
        &mut self,
        one: u32,
        other: u32,
        early: u32,
        late: u32,
    ) -> Result<(), NoMemory> {
        let put = self.put_by(early);
        if put == NONE {
            return Ok(());
        }
        let put_late = self.put_by(late);
        if put_late != NONE && put_late != put {
            let place = self.finder_place(early);
            let mut finder = self.links.at(place);
            for _ in 0..u64::MAX {
                let Some(cell) = finder.checked_sub(1) else {
                    break;
                };
                if let Some(node) = self.node(self.part.cell(cell).act) {
                    if node != other {
                        self.order.add(node, other)?;
                    }
                }
                let place = self.other_place(cell);
                finder = self.links.at(place);
            }
        }
        let source = self.source(late);
        if let Wants::Slot(slot) = self.part.cell(late).wants {
            if slot != put && source == START {
                self.order.is_absurd = true;
            } else if slot != put && source != 0 && source != one.saturating_add(1) {
                self.order.add(one, source.saturating_sub(1))?;
            }
        }
        Ok(())
    }

    /// All blocks of the act's point that the entry has are on the same side of it.
    fn follow_tied(
        &mut self,
        act: &Act,
        entry: &Act,
        node: u32,
        is_before: bool,
    ) -> Result<(), NoMemory> {
        for sibling in act.sibling..act.siblings_end() {
            let block = self.part.cell(self.part.act(sibling).cell).block;
            if self.part.cell_of(entry, block).is_none() {
                continue;
            }
            if let Some(other) = self.node(sibling) {
                let (one, other) = if is_before {
                    (other, node)
                } else {
                    (node, other)
                };
                self.order.add(one, other)?;
            }
        }
        Ok(())
    }

    /// Draws the consequences of a node's being before all that aren't done, for those that put something in its blocks.
    pub(super) fn follow_done(&mut self, node: u32, done: &Act) -> Result<(), NoMemory> {
        let part = self.part;
        let from = part.act(self.acts.at(self.order.first_beside(node))).from;
        for at in done.cell..done.cells_end() {
            let block = part.cell(at).block;
            let finder = self.finder_place(at);
            let is_found = self.put_by(at) != NONE && self.links.at(finder) != 0;
            if !is_found && !done.tied {
                continue;
            }
            let writers = part.lists.up_to(Group::Writers(block), done.until);
            for entry in &writers[writers.partition_point(|entry| entry.time < from)..] {
                let late = part.act(entry.act);
                let Some(other) = self.node(entry.act) else {
                    continue;
                };
                if other == node || self.order.is_done(other) {
                    continue;
                }
                let late_cell = self.cell_at(&late, block);
                self.follow_block(node, other, at, late_cell)?;
                if done.tied && late.cells > 1 {
                    self.follow_tied(done, &late, other, true)?;
                }
            }
        }
        Ok(())
    }
}
