//! What blocks hold, as numbers.
use crate::numbers::by_place::{Numbers, to_u32};
use crate::numbers::hash::hash_of;
use nvm_record::{BlockSize, NoMemory};
use std::alloc::Global;

/// The value of a block of zero bytes.
pub const ZERO: u32 = 0;
/// The value of a block that is marked.
pub const MARK: u32 = 1;
/// The first value of other bytes.
const FIRST: usize = 2;

/// An empty place of a table. No value of other bytes is 0.
const EMPTY: u32 = 0;
/// How many places a table has at first.
const FEW: usize = 16;

/// The bytes of a block that no command is expected to put.
const FRESH: &[u8] = &[0xa5; 4096];
/// The bytes of a block of FFh.
pub const ONES: &[u8] = &[0xff; 4096];

/// The block at this place of the data, as far as there is any.
pub fn block_at(bytes: &[u8], size: BlockSize, place: usize) -> &[u8] {
    let size = size.bytes() as usize;
    let from = place.saturating_mul(size).min(bytes.len());
    let to = from.saturating_add(size).min(bytes.len());
    &bytes[from..to]
}

/// Numbers for what blocks hold: two blocks have the same value exactly if they hold the same.
#[derive(Drop)]
pub struct Values<'t> {
    alloc: Global,
    /// The bytes of each value, from the first one of other bytes on, and their hashes.
    contents: Vec<(&'t [u8], u64)>,
    /// Each value is at the place that its hash leads to, or at the next one that was free. A power of 2 of places, or none.
    table: Numbers,
}

impl<'t> Values<'t> {
    /// No values but those of zero bytes and marks.
    pub fn new(alloc: Global) -> Result<Values<'t>, NoMemory> {
        Ok(Values {
            alloc,
            contents: Vec::new(alloc),
            table: Numbers::new(alloc, 0, EMPTY)?,
        })
    }

    /// The value of the bytes.
    pub fn value_of(&mut self, bytes: &'t [u8]) -> Result<u32, NoMemory> {
        let Some(hash) = hash_of(bytes) else {
            return Ok(ZERO);
        };
        if let Some(value) = self.known(hash, bytes) {
            return Ok(value);
        }
        let value = to_u32(self.contents.len().saturating_add(FIRST));
        self.contents.push((bytes, hash))?;
        if self.contents.len() > self.table.len() / 2 {
            self.lay_out()?;
        } else {
            self.enter(value, hash);
        }
        Ok(value)
    }

    /// The value of a block that no command is expected to have found or put.
    pub fn fresh(&mut self, size: BlockSize) -> Result<u32, NoMemory> {
        self.value_of(block_at(FRESH, size, 0))
    }

    /// The bytes of a value that isn't of zero bytes or a mark.
    pub fn bytes_of(&self, value: u32) -> Option<&'t [u8]> {
        let place = (value as usize).checked_sub(FIRST)?;
        let (bytes, _) = self.contents.get(place)?;
        Some(*bytes)
    }

    /// The place of the table to which a hash leads, `turn` places on.
    fn place_of(&self, hash: u64, turn: u32) -> u32 {
        let last = to_u32(self.table.len()).saturating_sub(1);
        ((hash >> 32) as u32).wrapping_add(turn) & last
    }

    /// The value of bytes of this hash, if they have one.
    fn known(&self, hash: u64, bytes: &[u8]) -> Option<u32> {
        for turn in 0..to_u32(self.table.len()) {
            let value = self.table.at(self.place_of(hash, turn));
            if value == EMPTY {
                return None;
            }
            if self.has(value, hash, bytes) {
                return Some(value);
            }
        }
        None
    }

    /// Whether the value is that of the bytes of this hash.
    fn has(&self, value: u32, hash: u64, bytes: &[u8]) -> bool {
        match self.contents.get((value as usize).saturating_sub(FIRST)) {
            Some((content, known)) => *known == hash && *content == bytes,
            None => false,
        }
    }

    /// Puts a value into the table, at the first free place for its hash.
    fn enter(&mut self, value: u32, hash: u64) {
        for turn in 0..to_u32(self.table.len()) {
            let place = self.place_of(hash, turn);
            if self.table.at(place) == EMPTY {
                self.table.put(place, value);
                return;
            }
        }
    }

    /// Makes a table of twice as many places.
    fn lay_out(&mut self) -> Result<(), NoMemory> {
        let places = self.table.len().saturating_mul(2).max(FEW);
        self.table = Numbers::new(self.alloc, places, EMPTY)?;
        for place in 0..self.contents.len() {
            if let Some((_, hash)) = self.contents.get(place) {
                let hash = *hash;
                self.enter(to_u32(place.saturating_add(FIRST)), hash);
            }
        }
        Ok(())
    }
}
