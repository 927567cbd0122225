//! States that lead to no order.
use nvm_record::NoMemory;
use std::alloc::Global;

/// How many states are kept at most, and at first: powers of two.
const MOST: usize = 1 << 20;

const FEW: usize = 1 << 8;

/// Numbers of states. A later one may take the place of an earlier one. Two states of one number would be taken for one: an order may
/// be missed so, and none is made up.
#[derive(Drop)]
pub struct Memory {
    alloc: Global,
    states: Vec<u64>,
    kept: usize,
}

impl Memory {
    pub fn new(alloc: Global) -> Memory {
        Memory {
            alloc,
            states: Vec::new(alloc),
            kept: 0,
        }
    }

    /// Where a state's number stands.
    fn place_of(&self, state: u64) -> usize {
        (state & (self.states.len() as u64).saturating_sub(1)) as usize
    }

    pub fn has(&self, state: u64) -> bool {
        match self.states.get(self.place_of(state)) {
            Some(kept) => *kept == state && state != 0,
            None => false,
        }
    }

    /// Keeps the state.
    pub fn note(&mut self, state: u64) -> Result<(), NoMemory> {
        if self.kept.saturating_mul(2) >= self.states.len() && self.states.len() < MOST {
            let count = self.states.len().saturating_mul(4).max(FEW);
            let mut states = vec![in self.alloc; 0u64; count]?;
            std::mem::swap(&mut states, &mut self.states);
            self.kept = 0;
            for old in &states {
                self.enter(*old);
            }
        }
        self.enter(state);
        Ok(())
    }

    fn enter(&mut self, state: u64) {
        let place = self.place_of(state);
        if let Some(kept) = self.states.get_mut(place) {
            if *kept == 0 && state != 0 {
                self.kept = self.kept.saturating_add(1);
            }
            *kept = state;
        }
    }
}
