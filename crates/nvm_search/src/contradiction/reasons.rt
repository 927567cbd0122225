use crate::contradiction::absurd::Absurd;
use crate::contradiction::derivation::{Derivation, Derived, Rule};
use crate::contradiction::paths::path;
use crate::contradiction::place_set::PlaceSet;
use crate::contradiction::settling::{Settled, Whose, who_put};
use crate::contradiction::telling::{given_fact, put_once};
use nvm_record::NoMemory;
use nvm_standard::Fact;

/// Why something of a window can't be.
#[derive(Drop)]
pub struct Reasons<'a> {
    pub derivation: &'a Derivation<'a>,
    /// What comes before what by the times.
    pub times: Vec<Fact>,
    /// What comes before what where that goes without saying.
    pub spare: Vec<Fact>,
    /// What was derived, by its places there.
    pub derived: PlaceSet,
    /// The finds that are looked at.
    pub finds: PlaceSet,
    /// Of what was derived only the first are reasons for what is looked at.
    first: usize,
    /// Whether each order that it rests on was found.
    is_whole: bool,
}

impl<'a> Reasons<'a> {
    fn put_derived(&mut self, index: usize) {
        if index < self.first {
            self.derived.put(index);
        }
    }

    /// That the node is there, if that isn't sure by itself.
    fn put_there(&mut self, place: usize) {
        if let Some(index) = self.derivation.there(place).checked_sub(1) {
            self.put_derived(index);
        }
    }

    /// That the one comes before the other, by a path whose inner nodes have to be there. One link alone goes without saying if the table
    /// says it.
    fn put_order(&mut self, earlier: usize, later: usize) -> Result<(), NoMemory> {
        let derivation = self.derivation;
        let Some(links) = path(derivation, self.first, earlier, later)? else {
            self.is_whole = false;
            return Ok(());
        };
        if let (1, Some(link)) = (links.len(), links.first()) {
            if let Some(fact) = given_fact(derivation, *link) {
                return put_once(&mut self.spare, fact);
            }
        }
        for (place, link) in links.iter().enumerate() {
            match (link.derived, given_fact(derivation, *link)) {
                (Some(index), _) => self.put_derived(index),
                (None, Some(fact)) => put_once(&mut self.times, fact)?,
                (None, None) => {}
            }
            if place > 0 {
                self.put_there(link.earlier);
            }
        }
        Ok(())
    }

    /// Why no other can have put what the reader found, and why it wasn't there at first.
    fn put_settled(&mut self, reader: usize, settled: &Settled) -> Result<(), NoMemory> {
        if let Some(index) = settled.other {
            self.put_derived(index);
        }
        self.put_there(reader);
        for place in &settled.between {
            self.put_there(*place);
        }
        for (earlier, later) in &settled.orders {
            self.put_order(*earlier, *later)?;
        }
        Ok(())
    }

    /// Why the find is settled so.
    fn put_find(&mut self, number: usize) -> Result<(), NoMemory> {
        let derivation = self.derivation;
        self.finds.put(number);
        match (
            derivation.window.finds.get(number),
            derivation.settled.get(number),
        ) {
            (Some(find), Some(Some(settled))) => self.put_settled(find.reader, settled),
            _ => Ok(()),
        }
    }

    /// Why nobody can have put what was found.
    fn put_nobody(&mut self, number: usize) -> Result<(), NoMemory> {
        let derivation = self.derivation;
        self.finds.put(number);
        let Some(find) = derivation.window.finds.get(number) else {
            return Ok(());
        };
        match who_put(derivation, find, true)? {
            Some(settled) => self.put_settled(find.reader, &settled),
            None => Ok(()),
        }
    }

    /// What it rests on that this was derived.
    fn put_rule(&mut self, derived: Derived) -> Result<(), NoMemory> {
        let Derived { earlier, later, by } = derived;
        match by {
            Rule::Deallocate => {}
            Rule::Own { by } => self.put_there(by),
            Rule::Source { find } | Rule::AtFirst { find } => self.put_find(find)?,
            Rule::First { find } => {
                self.put_find(find)?;
                self.put_there(later);
            }
            Rule::Over { find } => {
                self.put_find(find)?;
                self.put_there(later);
                if let Some(Whose::Writer(source)) = self.derivation.whose(find) {
                    self.put_order(source, later)?;
                }
            }
            Rule::Under { find } => {
                self.put_find(find)?;
                self.put_there(earlier);
                if let Some(find) = self.derivation.window.finds.get(find) {
                    self.put_order(earlier, find.reader)?;
                }
            }
            Rule::TiedBefore { by } => self.put_order(by, later)?,
            Rule::TiedAfter { by } => self.put_order(earlier, by)?,
        }
        Ok(())
    }
}

/// Why it can't be: all that it rests on.
pub fn reasons_of<'a>(
    derivation: &'a Derivation<'a>,
    absurd: &Absurd,
) -> Result<Option<Reasons<'a>>, NoMemory> {
    let window = derivation.window;
    let alloc = window.history.alloc;
    let count = derivation.derived.len();
    let mut reasons = Reasons {
        derivation,
        times: Vec::new(alloc),
        spare: Vec::new(alloc),
        derived: PlaceSet::new(alloc, count)?,
        finds: PlaceSet::new(alloc, window.finds.len())?,
        first: count,
        is_whole: true,
    };
    if let Some(place) = absurd.circle {
        reasons.put_there(place);
        reasons.put_order(place, place)?;
    }
    for find in &absurd.finds {
        reasons.put_nobody(*find)?;
    }
    for index in (0..count).rev() {
        if reasons.is_whole && reasons.derived.has(index) {
            reasons.first = index;
            reasons.put_rule(derivation.derived[index])?;
        }
    }
    Ok(if reasons.is_whole {
        Some(reasons)
    } else {
        None
    })
}
