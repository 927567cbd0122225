//! What was derived of a window's nodes, round after round.
mod rules;

use crate::contradiction::absurd::{Absurd, absurd_of};
use crate::contradiction::history::is_sure;
use crate::contradiction::orders::Orders;
use crate::contradiction::place_set::PlaceSets;
use crate::contradiction::settling::{Settled, Whose};
use crate::contradiction::window::{Window, WindowFind};
use nvm_record::NoMemory;
use std::mem;

/// By which rule something is derived. Finds are named by their places in the window's.
#[derive(Clone, Copy)]
pub enum Rule {
    Deallocate,
    /// The later one is there, or it is at the place `by`.
    Own { by: usize },
    Source { find: usize },
    Over { find: usize },
    Under { find: usize },
    First { find: usize },
    /// That the find is what was in its block at first, which is no order.
    AtFirst { find: usize },
    TiedBefore { by: usize },
    TiedAfter { by: usize },
}

/// That one node of a window comes before another, by a rule other than that of time.
#[derive(Clone, Copy)]
pub struct Derived {
    pub earlier: usize,
    pub later: usize,
    pub by: Rule,
}

/// What was derived of a window's nodes.
#[derive(Drop)]
pub struct Derivation<'a> {
    pub window: &'a Window<'a>,
    /// Each after what it follows from.
    pub derived: Vec<Derived>,
    /// For each node where in `derived` it is the earlier one.
    pub leaving: Vec<Vec<usize>>,
    /// For each node those that are derived to come after it.
    laters: PlaceSets,
    pub orders: Orders,
    /// For each node how much was derived until it was known to be there: 0 where it surely is, and `usize::MAX` where it isn't known.
    there: Vec<usize>,
    /// For each find who put it, once that is known.
    pub settled: Vec<Option<Settled>>,
    /// For each block the nodes that surely put something there, as far as it is known.
    pub sure: PlaceSets,
    /// Whether something was found to be there since all finds were gone through.
    is_more_there: bool,
    /// For each block what was there at first, and where in `derived` that is said.
    firsts: Vec<Option<(u32, usize)>>,
    /// The nodes that come only after others, each after its own.
    owns: Vec<(usize, usize)>,
}

impl<'a> Derivation<'a> {
    /// What follows from the times alone.
    fn new(window: &'a Window<'a>) -> Result<Derivation<'a>, NoMemory> {
        let alloc = window.history.alloc;
        let places = window.members.len();
        let blocks = window.blocks.len();
        let mut leaving = Vec::with_capacity(alloc, places)?;
        let mut there = Vec::with_capacity(alloc, places)?;
        let mut sure = PlaceSets::new(alloc, blocks, places)?;
        for place in 0..places {
            leaving.push(Vec::new(alloc))?;
            let is_there = window.history.is_there(window.node(place).point);
            there.push(if is_there { 0 } else { usize::MAX })?;
            let (from, to) = window.blocks_at(place);
            for at in from..to {
                match window.blocks.get(at) {
                    Some(block) if is_sure(window.point(place), *block) => sure.put(at, place),
                    _ => {}
                }
            }
        }
        let mut settled = Vec::with_capacity(alloc, window.finds.len())?;
        for _find in &window.finds {
            settled.push(None)?;
        }
        Ok(Derivation {
            window,
            derived: Vec::new(alloc),
            leaving,
            laters: PlaceSets::new(alloc, places, places)?,
            orders: Orders::new(alloc, &window.next)?,
            there,
            settled,
            sure,
            is_more_there: false,
            firsts: vec![in alloc; None; blocks]?,
            owns: Vec::new(alloc),
        })
    }

    /// Puts it with the others, if nothing is known of the two. What follows from it isn't noted yet.
    fn put(&mut self, earlier: usize, later: usize, by: Rule) -> Result<(), NoMemory> {
        if self.laters.at(earlier).has(later) || self.orders.has(earlier, later) {
            return Ok(());
        }
        self.put_anyway(earlier, later, by)
    }

    fn put_anyway(&mut self, earlier: usize, later: usize, by: Rule) -> Result<(), NoMemory> {
        self.laters.put(earlier, later);
        if let Some(leaving) = self.leaving.get_mut(earlier) {
            leaving.push(self.derived.len())?;
        }
        self.derived.push(Derived { earlier, later, by })?;
        Ok(())
    }

    /// Puts it with the others, by which the earlier one is there.
    fn put_there(&mut self, earlier: usize, later: usize, by: Rule) -> Result<(), NoMemory> {
        self.put_anyway(earlier, later, by)?;
        let known = self.derived.len();
        if let Some(there) = self.there.get_mut(earlier) {
            *there = known;
        }
        self.is_more_there = true;
        Ok(())
    }

    /// How much was derived until the node was known to be there: 0 if it surely is, and `usize::MAX` if it isn't known.
    pub fn there(&self, place: usize) -> usize {
        match self.there.get(place) {
            Some(there) => *there,
            None => usize::MAX,
        }
    }

    /// Whether it is known that the node is there.
    pub fn is_there(&self, place: usize) -> bool {
        self.there(place) < usize::MAX
    }

    /// Who put what was found, if it is settled.
    pub fn whose(&self, find: usize) -> Option<Whose> {
        match self.settled.get(find) {
            Some(Some(settled)) => Some(settled.whose),
            _ => None,
        }
    }

    /// Where it is said what was in the find's block at first, if it isn't what was found.
    pub fn other_first(&self, find: &WindowFind) -> Option<usize> {
        match self.firsts.get(find.at) {
            Some(Some((value, index))) if !find.sought.may_be(*value) => Some(*index),
            _ => None,
        }
    }

    /// Notes what follows from what was derived from this place on.
    fn note_from(&mut self, from: usize) -> Result<(), NoMemory> {
        let alloc = self.window.history.alloc;
        for index in from..self.derived.len() {
            let derived = self.derived[index];
            match derived.by {
                Rule::AtFirst { .. } => {}
                _ => self.orders.note(alloc, derived.earlier, derived.later)?,
            }
        }
        Ok(())
    }

    /// Applies all rules once, by what changed since the last time, and says whether anything was new.
    fn put_round(&mut self) -> Result<bool, NoMemory> {
        let window = self.window;
        let all = mem::replace(&mut self.is_more_there, false);
        let known = self.derived.len();
        let mut is_new = all;
        self.put_owns()?;
        for (number, find) in window.finds.iter().enumerate() {
            let is_settled = self.settle(number, find)?;
            is_new = is_new || is_settled;
            if !self.is_there(find.reader) {
                continue;
            }
            match self.whose(number) {
                Some(Whose::Writer(source)) => {
                    self.put_sourced(number, find, source, is_settled, all)?;
                }
                Some(Whose::First) if is_settled || all => {
                    self.put_first(number, find, is_settled)?;
                }
                _ => {}
            }
        }
        self.put_ties()?;
        self.orders.changed_after.clear();
        self.orders.changed_before.clear();
        self.note_from(known)?;
        Ok(is_new || self.is_more_there || self.derived.len() > known)
    }
}

/// Derives what comes before what in the window, until something can't be or nothing more follows, and gives what can't be.
pub fn derive<'a>(window: &'a Window<'a>) -> Result<(Derivation<'a>, Vec<Absurd>), NoMemory> {
    let mut derivation = Derivation::new(window)?;
    derivation.put_given()?;
    derivation.note_from(0)?;
    for _round in 0..u32::MAX {
        let is_new = derivation.put_round()?;
        let absurd = absurd_of(&derivation)?;
        if !is_new || !absurd.is_empty() {
            return Ok((derivation, absurd));
        }
    }
    Ok((derivation, Vec::new(window.history.alloc)))
}
