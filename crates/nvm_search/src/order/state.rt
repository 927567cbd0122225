//! A state of a search, with the way back to earlier ones.
use crate::numbers::{Numbers, to_u32};
use nvm_record::NoMemory;
use std::alloc::Global;

/// What a number was before.
#[derive(Clone, Copy)]
struct Change {
    place: u32,
    old: u32,
}

/// Numbers that can be set back to what they were.
#[derive(Drop)]
pub struct State {
    numbers: Numbers,
    changes: Vec<Change>,
    /// Whether changes are kept by now, so that they can be taken back.
    keeps: bool,
}

impl State {
    /// `count` numbers, each 0.
    pub fn new(alloc: Global, count: usize) -> Result<State, NoMemory> {
        Ok(State {
            numbers: Numbers::new(alloc, count, 0)?,
            changes: Vec::new(alloc),
            keeps: false,
        })
    }

    /// From now on changes can be taken back.
    pub fn keep(&mut self) {
        self.keeps = true;
    }

    pub fn at(&self, place: u32) -> u32 {
        self.numbers.at(place)
    }

    pub fn set(&mut self, place: u32, number: u32) -> Result<(), NoMemory> {
        let old = self.numbers.at(place);
        if old != number {
            if self.keeps {
                self.changes.push(Change { place, old })?;
            }
            self.numbers.put(place, number);
        }
        Ok(())
    }

    /// A mark to go back to.
    pub fn mark(&self) -> u32 {
        to_u32(self.changes.len())
    }

    /// Goes back to the mark.
    pub fn back(&mut self, mark: u32) {
        for _ in (mark as usize)..self.changes.len() {
            if let Some(change) = self.changes.pop() {
                self.numbers.put(change.place, change.old);
            }
        }
    }
}
