ghost use Rattle.std.specs.Prelude.{◌≡◌, ℕ, suc, ◌+◌, ◌^◌, ◌<◌, ◌≤◌, IfOk, OnErr, OnOk, length, replicate, slice_set};
ghost use Rattle.nvm_record.specs.Lists.{IsAt};
ghost use Rattle.nvm_store.specs.Inside.Gathered.{named};
ghost use Rattle.nvm_store.specs.Inside.Pages.{IsRemoved};

use crate::blocks::numbers::Numbers;
use nvm_record::NoMemory;
use std::alloc::Global;
use std::marker::Model;

/// Which page each of many places has, which contracts see as the list of their numbers: 0 is none, and each number from 1 up to the highest is one place's.
#[derive(Drop)]
pub struct PageNumbers {
    numbers: Numbers,
    /// The place of each number. What stands at 0 says nothing.
    owners: Vec<u32>,
}

impl Model for PageNumbers {
    ghost use Rattle.std.specs.Prelude.{List, ℕ};
    ghost use Rattle.nvm_store.specs.Inside.Pages.{AreOwners};

    ghost Value = { List ℕ };

    ghost view = { λ p. p.numbers };

    ghost invariant = { λ p. AreOwners p.owners.items p.numbers };
}

impl PageNumbers {
    /// At least so many places without a number.
    pub fn zeroed(alloc: Global, places: usize) -> Result<PageNumbers, NoMemory>
        requires { places < 2 ^ 31 }
        ensures enough { IfOk result (λ numbers. places ≤ length numbers) }
        ensures few { IfOk result (λ numbers. length numbers < 2 ^ 32) }
        ensures zeroes { IfOk result (λ numbers. numbers ≡ replicate (length numbers) 0) }
    {
        Ok(PageNumbers {
            numbers: Numbers::zeroed(alloc, places)?,
            owners: Vec::from_elem(alloc, 0, 1)?,
        })
    }

    /// The number of a place.
    #[inline(always)]
    pub fn at(&self, place: usize) -> usize
        requires { place < length self.now }
        ensures is { IsAt self.now place result }
        ensures fits { result < 2 ^ 32 }
    {
        self.numbers.at(place)
    }

    /// Makes room for the numbers of the places from `from` up to `to`, of which so many have none yet.
    pub fn reserve(&mut self, from: usize, to: usize, more: usize) -> Result<(), NoMemory>
        requires { to ≤ length self.old }
        ensures { self.new ≡ self.old }
    {
        self.owners.reserve(more)?;
        self.numbers.make_rows(from, to)
    }

    /// Gives a place that has none the next number. With room for it that takes no memory.
    pub fn add(&mut self, place: usize) -> Result<(), NoMemory>
        requires { IsAt self.old place 0 }
        ensures ok { OnOk result (self.new ≡ slice_set self.old place (suc (named self.old))) }
        ensures err { OnErr result (self.new ≡ self.old) }
    {
        self.owners.reserve(1)?;
        let number = self.owners.len();
        self.numbers.put(place, number as u32)?;
        self.owners.push_reserved(place as u32);
        Ok(())
    }

    /// Takes a place's number away. The place that has the last number gets it.
    pub fn remove(&mut self, place: usize)
        requires place { place < length self.old }
        requires some { (n : ℕ) → IsAt self.old place n → 0 < n }
        ensures { (n : ℕ) → IsAt self.old place n → IsRemoved place n self.old self.new }
    {
        let number = self.numbers.at(place);
        let last = self.owners.len() - 1;
        let owner = self.owners[last];
        self.numbers.set(owner as usize, number as u32);
        self.numbers.set(place, 0);
        self.owners[number] = owner;
        self.owners.truncate(last);
    }

    /// The same numbers in memory of their own.
    pub fn copy(&self) -> Result<PageNumbers, NoMemory>
        ensures { IfOk result (λ numbers. numbers ≡ self.now) }
    {
        Ok(PageNumbers {
            numbers: self.numbers.copy()?,
            owners: self.owners.clone()?,
        })
    }
}
