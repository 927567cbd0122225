//! Lists of numbers that have one for every place.
ghost use Rattle.std.specs.Prelude.{◌≡◌, min};

use nvm_record::NoMemory;
use std::alloc::Global;

/// A number as one of 32 bits. What is counted here are steps and blocks of a trace, of which there are fewer.
pub fn to_u32(number: usize) -> u32
    ensures { result ≡ min number u32.MAX }
{
    number.min(u32::MAX as usize) as u32
}

/// Numbers by place. Where there is no such place a number is 0, and none is put.
#[derive(Drop)]
pub struct Numbers {
    items: Vec<u32>,
}

impl Numbers {
    /// Those numbers.
    pub fn of(items: Vec<u32>) -> Numbers {
        Numbers { items }
    }

    /// `count` numbers, each this one.
    pub fn new(alloc: Global, count: usize, number: u32) -> Result<Numbers, NoMemory> {
        let items = vec![in alloc; number; count]?;
        Ok(Numbers { items })
    }

    /// How many numbers there are.
    pub fn len(&self) -> usize {
        self.items.len()
    }

    /// The number at the place.
    pub fn at(&self, place: u32) -> u32 {
        match self.items.get(place as usize) {
            Some(number) => *number,
            None => 0,
        }
    }

    /// Puts a number at the place.
    pub fn put(&mut self, place: u32, number: u32) {
        if let Some(item) = self.items.get_mut(place as usize) {
            *item = number;
        }
    }

    /// Adds 1 to the number at the place.
    pub fn increment(&mut self, place: u32) {
        let number = self.at(place);
        self.put(place, number.saturating_add(1));
    }
}
