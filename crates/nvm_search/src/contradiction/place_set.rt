//! Sets of places, kept as bits.
use nvm_record::NoMemory;
use std::alloc::Global;

/// Some of the places below a number.
#[derive(Drop)]
pub struct PlaceSet {
    words: Vec<u64>,
}

/// The place's bit in its word.
fn bit_of(place: usize) -> u64 {
    1 << (place % 64)
}

/// The places of a word's bits, of which the first has this place, at the end.
fn put_places(places: &mut Vec<usize>, first: usize, word: u64) -> Result<(), NoMemory> {
    if word != 0 {
        for bit in 0..64 {
            if (word >> bit) & 1 == 1 {
                places.push(first.saturating_add(bit))?;
            }
        }
    }
    Ok(())
}

impl PlaceSet {
    /// None of `places` places.
    pub fn new(alloc: Global, places: usize) -> Result<PlaceSet, NoMemory> {
        let words = vec![in alloc; 0; places / 64 + 1]?;
        Ok(PlaceSet { words })
    }

    /// The same places.
    pub fn copy(&self, alloc: Global) -> Result<PlaceSet, NoMemory> {
        let words = Vec::from_slice(alloc, &self.words)?;
        Ok(PlaceSet { words })
    }

    /// Whether the place is one of them.
    pub fn has(&self, place: usize) -> bool {
        match self.words.get(place / 64) {
            Some(word) => *word & bit_of(place) != 0,
            None => false,
        }
    }

    /// Adds the place.
    pub fn put(&mut self, place: usize) {
        if let Some(word) = self.words.get_mut(place / 64) {
            *word |= bit_of(place);
        }
    }

    /// Adds the other's places.
    pub fn add(&mut self, other: &PlaceSet) {
        for (word, more) in self.words.iter_mut().zip(&other.words) {
            *word |= *more;
        }
    }

    /// Takes all places out.
    pub fn clear(&mut self) {
        for word in self.words.iter_mut() {
            *word = 0;
        }
    }

    /// The first place that the two others have, too.
    pub fn first_with(&self, other: &PlaceSet, third: &PlaceSet) -> Option<usize> {
        for (index, word) in self.words.iter().enumerate() {
            let (Some(others), Some(thirds)) = (other.words.get(index), third.words.get(index))
            else {
                return None;
            };
            let common = *word & *others & *thirds;
            if common != 0 {
                let bit = common.trailing_zeros() as usize;
                return Some(index.saturating_mul(64).saturating_add(bit));
            }
        }
        None
    }

    /// The places, rising.
    pub fn places(&self, alloc: Global) -> Result<Vec<usize>, NoMemory> {
        let mut places = Vec::new(alloc);
        for (index, word) in self.words.iter().enumerate() {
            put_places(&mut places, index.saturating_mul(64), *word)?;
        }
        Ok(places)
    }

    /// Those that another has, too, and a third doesn't, rising.
    pub fn places_but(
        &self,
        alloc: Global,
        other: &PlaceSet,
        third: &PlaceSet,
    ) -> Result<Vec<usize>, NoMemory> {
        let mut places = Vec::new(alloc);
        for (index, word) in self.words.iter().enumerate() {
            if let (Some(others), Some(thirds)) = (other.words.get(index), third.words.get(index)) {
                let common = *word & *others & !*thirds;
                put_places(&mut places, index.saturating_mul(64), common)?;
            }
        }
        Ok(places)
    }
}

/// Sets of places, by number. Where there is no such set it has none, and none are put.
#[derive(Drop)]
pub struct PlaceSets {
    sets: Vec<PlaceSet>,
    none: PlaceSet,
}

impl PlaceSets {
    /// `count` sets, each with none of `places` places.
    pub fn new(alloc: Global, count: usize, places: usize) -> Result<PlaceSets, NoMemory> {
        let mut sets = Vec::with_capacity(alloc, count)?;
        for _set in 0..count {
            sets.push(PlaceSet::new(alloc, places)?)?;
        }
        let none = PlaceSet::new(alloc, places)?;
        Ok(PlaceSets { sets, none })
    }

    pub fn at(&self, number: usize) -> &PlaceSet {
        self.sets.get(number).unwrap_or(&self.none)
    }

    /// Adds the place to the set.
    pub fn put(&mut self, number: usize, place: usize) {
        if let Some(set) = self.sets.get_mut(number) {
            set.put(place);
        }
    }

    /// Adds the places to the set.
    pub fn add(&mut self, number: usize, places: &PlaceSet) {
        if let Some(set) = self.sets.get_mut(number) {
            set.add(places);
        }
    }
}
