//! What points found and put, as numbers in place of bytes.
use crate::numbers::{MARK, ONES, Values, ZERO, block_at};
use nvm_record::NoMemory;
use nvm_standard::{Found, Points, Put};
use std::alloc::Global;

/// The number of what isn't known: anything.
pub const ANYTHING: u32 = u32::MAX;

/// What a point found in a block.
#[derive(Clone, Copy, PartialEq, Eq)]
pub enum Sought {
    /// What has this number.
    Value(u32),
    /// Bytes.
    Bytes,
    /// Bytes of another number.
    OtherThan(u32),
}

impl Sought {
    /// Whether what has this number may be it.
    pub fn may_be(self, value: u32) -> bool {
        if value == ANYTHING {
            return true;
        }
        match self {
            Sought::Value(sought) => value == sought,
            Sought::Bytes => value != MARK,
            Sought::OtherThan(other) => value != MARK && value != other,
        }
    }
}

/// The data that points found and put, block by block, as numbers that equal bytes share.
#[derive(Drop)]
pub struct Contents {
    values: Vec<u32>,
    /// For each point where in `values` what it found begins, and then where what it put does.
    begins: Vec<usize>,
    /// The number of a block of FFh.
    pub ones: u32,
}

impl Contents {
    pub fn new(alloc: Global, points: &Points<'_>) -> Result<Contents, NoMemory> {
        let size = points.block_size;
        let mut values = Values::new(alloc)?;
        let ones = values.value_of(block_at(ONES, size, 0))?;
        let mut numbers = Vec::new(alloc);
        let mut begins = Vec::new(alloc);
        for point in &points.points {
            let found = match point.found {
                Found::Bytes(payload) | Found::OtherThan(payload) => Some(payload),
                Found::Nothing | Found::AnyBytes => None,
            };
            let put = match point.put {
                Put::Bytes(payload) => Some(payload),
                _ => None,
            };
            for payload in [found, put] {
                begins.push(numbers.len())?;
                if let Some(payload) = payload {
                    for place in 0..point.blocks as usize {
                        numbers.push(values.value_of(block_at(payload, size, place))?)?;
                    }
                }
            }
        }
        Ok(Contents {
            values: numbers,
            begins,
            ones,
        })
    }

    /// The number at a place of those that begin there.
    fn at(&self, side: usize, place: u32) -> u32 {
        let begins = match self.begins.get(side) {
            Some(begins) => *begins,
            None => usize::MAX,
        };
        match self.values.get(begins.saturating_add(place as usize)) {
            Some(value) => *value,
            None => ZERO,
        }
    }

    /// What the point found at this place of its blocks.
    pub fn found(&self, point: u32, place: u32) -> u32 {
        self.at((point as usize).saturating_mul(2), place)
    }

    /// What it put there.
    pub fn put(&self, point: u32, place: u32) -> u32 {
        let found = (point as usize).saturating_mul(2);
        self.at(found.saturating_add(1), place)
    }
}
