ghost use Rattle.std.specs.Prelude.{◌≡◌, ◌⊎◌, ℕ, ◌+◌, ◌^◌, ◌<◌, ◌≤◌, IfOk, OnErr, OnOk, length, replicate, slice_set};
ghost use Rattle.nvm_record.specs.Lists.{IsAt};
ghost use Rattle.nvm_store.specs.Inside.Gathered.{numbers_in, AreNumbers};

use nvm_record::NoMemory;
use std::alloc::Global;
use std::marker::Model;

/// How many places a row has.
const ROW: usize = 64;

/// A number for each of many places, which contracts see as their list. They are 0 at first. A row of 64 places takes memory once one of these is given
/// another number.
#[derive(Drop)]
pub struct Numbers {
    /// First, for each 64 places, where in the table their row starts; then the rows, one after the other. The first row has zeroes alone, and many 64s of
    /// places may have it; each other row belongs to 64 places.
    table: Vec<u32>,
    /// How many stand before the rows.
    top: usize,
}

impl Model for Numbers {
    ghost use Rattle.std.specs.Prelude.{List, ℕ};
    ghost use Rattle.nvm_store.specs.Inside.Gathered.{numbers_in, AreNumbers};

    ghost Value = { List ℕ };

    ghost view = { λ n. numbers_in n.top n.table.items };

    ghost invariant = { λ n. AreNumbers n.top n.table.items };
}

impl Numbers {
    /// Zeroes for at least so many places.
    pub fn zeroed(alloc: Global, places: usize) -> Result<Numbers, NoMemory>
        requires { places < 2 ^ 31 }
        ensures enough { IfOk result (λ numbers. places ≤ length numbers) }
        ensures few { IfOk result (λ numbers. length numbers ≤ places + 64) }
        ensures zeroes { IfOk result (λ numbers. numbers ≡ replicate (length numbers) 0) }
    {
        let top = places / ROW + 1;
        let mut table = Vec::from_elem(alloc, top as u32, top)?;
        table.resize(top + ROW, 0)?;
        Ok(Numbers { table, top })
    }

    /// The number of a place.
    #[inline(always)]
    pub fn at(&self, place: usize) -> usize
        requires { place < length self.now }
        ensures is { IsAt self.now place result }
        ensures fits { result < 2 ^ 32 }
    {
        let row = self.table[place / ROW] as usize;
        self.table[row + place % ROW] as usize
    }

    /// Gives a place this number. Where its row had zeroes alone, that takes the memory of a row.
    pub fn put(&mut self, place: usize, number: u32) -> Result<(), NoMemory>
        requires { place < length self.old }
        ensures ok { OnOk result (self.new ≡ slice_set self.old place number) }
        ensures err { OnErr result (self.new ≡ self.old) }
    {
        let row = own_row(&mut self.table, self.top, place / ROW)?;
        self.table[row + place % ROW] = number;
        Ok(())
    }

    /// Gives a place that has a number another one, or any place the number 0.
    pub fn set(&mut self, place: usize, number: u32)
        requires place { place < length self.old }
        requires own { (number ≡ 0) ⊎ ((n : ℕ) → IsAt self.old place n → 0 < n) }
        ensures { self.new ≡ slice_set self.old place number }
    {
        let row = self.table[place / ROW] as usize;
        self.table[row + place % ROW] = number;
    }

    /// Makes the rows of the places from `from` up to `to`, so that giving them numbers takes no memory.
    pub fn make_rows(&mut self, from: usize, to: usize) -> Result<(), NoMemory>
        requires { to ≤ length self.old }
        ensures { self.new ≡ self.old }
    {
        make_rows(&mut self.table, self.top, from / ROW, (to + ROW - 1) / ROW)
    }

    /// The same numbers in memory of their own.
    pub fn copy(&self) -> Result<Numbers, NoMemory>
        ensures { IfOk result (λ numbers. numbers ≡ self.now) }
    {
        Ok(Numbers {
            table: self.table.clone()?,
            top: self.top,
        })
    }
}

/// Where the row of 64 places starts that is theirs alone. It is made where they had zeroes alone.
fn own_row(table: &mut Vec<u32>, top: usize, at: usize) -> Result<usize, NoMemory>
    requires sound { AreNumbers top table.old.items }
    requires at { at < top }
    ensures row { IfOk result (λ row. (top < row) × IsAt table.new.items at row) }
    ensures sound { AreNumbers top table.new.items }
    ensures same { numbers_in top table.new.items ≡ numbers_in top table.old.items }
{
    let found = table[at] as usize;
    if found > top {
        return Ok(found);
    }
    let row = table.len();
    table.resize(row + ROW, 0)?;
    table[at] = row as u32;
    Ok(row)
}

/// Makes the rows of 64 places from `from` up to `to`, each theirs alone.
fn make_rows(table: &mut Vec<u32>, top: usize, from: usize, to: usize) -> Result<(), NoMemory>
    requires sound { AreNumbers top table.old.items }
    requires to { to ≤ top }
    ensures sound { AreNumbers top table.new.items }
    ensures same { numbers_in top table.new.items ≡ numbers_in top table.old.items }
{
    for at in from..to {
        own_row(table, top, at)?;
    }
    Ok(())
}
