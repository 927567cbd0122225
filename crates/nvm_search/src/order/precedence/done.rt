//! Which nodes are done, and what has to be done before the others.
use crate::order::precedence::{Precedence, bit};
use nvm_record::NoMemory;
use std::ops::Range;

impl Precedence {
    /// When the node was done, counted from 1, or 0.
    pub(super) fn turn(&self, node: u32) -> u32 {
        self.bits.at(self.turn_place(node))
    }

    /// The words of the node's rows that may have nodes which aren't done.
    pub fn open_words(&self, node: u32) -> Range<u32> {
        let row = self.row(node);
        row.first.max(self.bits.at(self.open_place()))..row.last.saturating_add(1)
    }

    /// Which nodes of a word have to be done before the node and aren't.
    pub fn missing(&self, node: u32, word: u32) -> u32 {
        self.before(node, word) & !self.bits.at(self.done_place(word))
    }

    /// Whether something that isn't done has to be before the node.
    pub fn is_held_up(&self, node: u32) -> bool {
        for word in self.open_words(node) {
            if self.missing(node, word) != 0 {
                return true;
            }
        }
        false
    }

    /// Whether the node is done.
    pub fn is_done(&self, node: u32) -> bool {
        self.turn(node) != 0
    }

    /// Notes that the node is done now, in such a turn, counted from 1: after all that are done, and before all that aren't.
    pub fn set_done(&mut self, node: u32, turn: u32) -> Result<(), NoMemory> {
        self.is_absurd = self.is_absurd || self.is_held_up(node);
        let place = self.done_place(node / 32);
        let done = self.bits.at(place) | bit(node);
        self.bits.set(place, done)?;
        let place = self.turn_place(node);
        self.bits.set(place, turn)?;
        let place = self.open_place();
        let mut open = self.bits.at(place);
        for word in open..self.count() / 32 {
            if self.bits.at(self.done_place(word)) != u32::MAX {
                break;
            }
            open = word.saturating_add(1);
        }
        self.bits.set(place, open)
    }
}
