use crate::contradiction::place_set::{PlaceSet, PlaceSets};
use nvm_record::NoMemory;
use std::alloc::Global;

/// What comes before what among some places, with all that follows.
#[derive(Drop)]
pub struct Orders {
    /// For each place those that come after it.
    pub after: PlaceSets,
    /// For each those that come before it.
    pub before: PlaceSets,
    /// The places of which what comes after them changed since this was cleared: at first all.
    pub changed_after: PlaceSet,
    /// Those of which what comes before them did.
    pub changed_before: PlaceSet,
}

impl Orders {
    /// Each place comes before those from its `next` on, of as many places as there are in `next`.
    pub fn new(alloc: Global, next: &Vec<usize>) -> Result<Orders, NoMemory> {
        let places = next.len();
        let mut after = PlaceSets::new(alloc, places, places)?;
        let mut before = PlaceSets::new(alloc, places, places)?;
        for (place, first) in next.iter().enumerate() {
            before.put(*first, place);
        }
        let mut laters = PlaceSet::new(alloc, places)?;
        for first in (0..places).rev() {
            laters.put(first);
            for place in &before.at(first).places(alloc)? {
                after.add(*place, &laters);
            }
        }
        let mut earliers = PlaceSet::new(alloc, places)?;
        for first in 0..places {
            earliers.add(before.at(first));
            before.add(first, &earliers);
        }
        let changed_before = laters.copy(alloc)?;
        Ok(Orders {
            after,
            before,
            changed_after: laters,
            changed_before,
        })
    }

    /// Whether the one comes before the other.
    pub fn has(&self, earlier: usize, later: usize) -> bool {
        self.after.at(earlier).has(later)
    }

    /// Notes that the one comes before the other, and what follows.
    pub fn note(&mut self, alloc: Global, earlier: usize, later: usize) -> Result<(), NoMemory> {
        if self.has(earlier, later) {
            return Ok(());
        }
        let mut laters = self.after.at(later).copy(alloc)?;
        laters.put(later);
        let mut earliers = self.before.at(earlier).copy(alloc)?;
        earliers.put(earlier);
        let new_earliers = earliers.places_but(alloc, &earliers, self.before.at(later))?;
        let new_laters = laters.places_but(alloc, &laters, self.after.at(earlier))?;
        for place in &new_earliers {
            self.after.add(*place, &laters);
            self.changed_after.put(*place);
        }
        for place in &new_laters {
            self.before.add(*place, &earliers);
            self.changed_before.put(*place);
        }
        Ok(())
    }
}
