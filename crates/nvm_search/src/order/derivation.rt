//! What comes before what in each order of a part's acts.
mod beginning;
mod consequences;
mod sources;

use crate::numbers::{Numbers, to_u32};
use crate::order::acts::{Act, Gives, NONE, Wants};
use crate::order::board::{Board, Field};
use crate::order::making::Part;
use crate::order::precedence::{Precedence, take_node};
use crate::order::search::Target;
use crate::order::state::State;
use nvm_record::NoMemory;

/// The source of what was there at first.
const START: u32 = u32::MAX;

/// A cell that finds something of which it isn't known who put it.
#[derive(Clone, Copy, PartialEq, Eq, PartialOrd, Ord)]
struct Open {
    block: u32,
    from: u32,
    cell: u32,
}

/// What comes before what. Nodes are acts that are surely done, by beginning.
#[derive(Drop)]
pub struct Derivation<'p> {
    part: &'p Part,
    /// The node of each act, counted from 1, and the act of each node.
    nodes: Numbers,
    acts: Numbers,
    pub order: Precedence,
    /// For each cell that finds something the node that surely put it, counted from 1. Then for each cell that puts something the first
    /// cell that surely finds it, counted from 1, and for each such the next.
    links: State,
    /// For each giver of a slot the latest end among those that began before it or are it.
    reach: Numbers,
    open: Vec<Open>,
}

impl<'p> Derivation<'p> {
    /// The node that surely put what the cell finds, counted from 1.
    fn source(&self, cell: u32) -> u32 {
        self.links.at(cell)
    }

    /// Where the first cell that surely finds what the cell puts stands.
    fn finder_place(&self, cell: u32) -> u32 {
        to_u32(self.part.cells.len()).saturating_add(cell)
    }

    /// Where the next cell that finds the same stands.
    fn other_place(&self, cell: u32) -> u32 {
        self.finder_place(self.finder_place(cell))
    }

    /// A mark to go back to.
    pub fn mark(&self) -> (u32, u32) {
        (self.order.bits.mark(), self.links.mark())
    }

    /// Goes back to the mark.
    pub fn back(&mut self, mark: (u32, u32)) {
        self.order.back(mark.0);
        self.links.back(mark.1);
    }

    /// The act's node, where it has one.
    fn node(&self, act: u32) -> Option<u32> {
        self.nodes.at(act).checked_sub(1)
    }

    /// What the cell surely puts, or none.
    fn put_by(&self, cell: u32) -> u32 {
        match self.part.cell(cell).gives {
            Gives::Slot(slot) => return slot,
            Gives::Nothing => return NONE,
            Gives::Deallocated | Gives::Anything => {}
        }
        let finder = self.links.at(self.finder_place(cell));
        match self.part.cell(finder.checked_sub(1).unwrap_or(NONE)).wants {
            Wants::Slot(slot) => slot,
            _ => NONE,
        }
    }

    /// The number of the act's cell of the block.
    fn cell_at(&self, act: &Act, block: u32) -> u32 {
        let first = self.part.cell(act.cell).block;
        act.cell.saturating_add(block.saturating_sub(first))
    }

    /// When the act has to be done at the latest.
    pub fn end(&self, act: u32) -> u32 {
        match self.node(act) {
            Some(node) => self.order.end(node),
            None => self.part.act(act).until,
        }
    }

    /// Whether the one comes before the other.
    pub fn is_before(&self, one: u32, other: u32) -> bool {
        match (self.node(one), self.node(other)) {
            (Some(one), Some(other)) => self.order.is_before(one, other),
            _ => false,
        }
    }

    /// Notes that an act is done now.
    pub fn set_done(&mut self, board: &Board<'_>, act: u32) -> Result<(), NoMemory> {
        let Some(node) = self.node(act) else {
            return Ok(());
        };
        let done = self.part.act(act);
        self.order.set_done(node, board.at(Field::Step(act)))?;
        self.follow_done(node, &done)?;
        self.follow()?;
        if !done.is_look {
            for at in done.cell..done.cells_end() {
                self.close(board, node, self.part.cell(at).block)?;
            }
        }
        Ok(())
    }

    /// Makes targets of what has to be done before the act and isn't.
    pub fn aim_at_missing(&self, act: u32, targets: &mut Vec<Target>) -> Result<(), NoMemory> {
        let Some(node) = self.node(act) else {
            return Ok(());
        };
        for word in self.order.open_words(node) {
            let mut left = self.order.missing(node, word);
            for _ in 0..32 {
                let Some(other) = take_node(word, &mut left) else {
                    break;
                };
                let act = self.acts.at(other);
                let cell = self.part.act(act).cell;
                let slot = match self.part.cell(cell).gives {
                    Gives::Deallocated | Gives::Anything => self.put_by(cell),
                    Gives::Nothing | Gives::Slot(_) => NONE,
                };
                targets.push(Target {
                    act,
                    slot,
                    apart: false,
                })?;
            }
        }
        Ok(())
    }

    /// Whether something that isn't done has to be before the act.
    pub fn is_held_up(&self, act: u32) -> bool {
        match self.node(act) {
            Some(node) => self.order.is_held_up(node),
            None => false,
        }
    }
}
