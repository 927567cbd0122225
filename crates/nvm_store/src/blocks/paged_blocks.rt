ghost use Rattle.std.specs.Prelude.{◌≡◌, ◌⊎◌, ℕ, ◌+◌, ◌-◌, ◌*◌, ◌/◌, ◌^◌, ◌<◌, ◌≤◌, IfOk, OnErr, OnOk, length, replicate, true};
ghost use Rattle.nvm_record.specs.Lists.{IsAt};
ghost use Rattle.nvm_record.specs.Step.{block_at};
ghost use Rattle.nvm_store.specs.Inside.Gathered.{gathered};
ghost use Rattle.nvm_store.specs.Inside.Pages.{ArePages};
ghost use Rattle.nvm_store.specs.Inside.Rewrite.{IsRewritten, zero_block};
ghost use Rattle.nvm_store.specs.Inside.Source.{AreZeroes, HasBlocks, HasSize, source_block};

mod reading;

use crate::blocks::flat_blocks::FlatBlocks;
use crate::blocks::page_numbers::PageNumbers;
use crate::blocks::source::Source;
use nvm_record::{NoMemory, PayloadRef};
use std::alloc::Global;
use std::marker::Model;

/// How many blocks a page has.
const PAGE: usize = 8;

/// The blocks of one large unit that nobody shares, of which contracts see their size and their list. They are in pages of 8 blocks, which take memory
/// once one of theirs is written or marked, and give it back once all are zeroed at once. After an `Err` all blocks are as they were.
#[derive(Drop)]
pub struct PagedBlocks {
    count: usize,
    /// Which page each 8 blocks have.
    numbers: PageNumbers,
    /// Page 0 is zeroes, which those read that have none of their own.
    pages: FlatBlocks,
}

impl Model for PagedBlocks {
    ghost use Rattle.std.specs.Prelude.{take};
    ghost use Rattle.nvm_store.specs.Inside.Gathered.{gathered};
    ghost use Rattle.nvm_store.specs.Inside.Flat.{SizedBlocks};
    ghost use Rattle.nvm_store.specs.Inside.Pages.{ArePagedBlocks};

    ghost Value = { SizedBlocks };

    ghost view = { λ b. record {
      size = b.pages.size;
      list = take b.count (gathered 8 b.pages.list b.numbers);
    } };

    ghost invariant = { λ b. ArePagedBlocks b.count b.pages b.numbers };
}

impl PagedBlocks {
    /// `count` blocks of `size` zero bytes.
    pub fn zeroed(alloc: Global, count: usize, size: usize) -> Result<PagedBlocks, NoMemory>
        requires few { count < 2 ^ 32 }
        requires small { size ≤ 65536 }
        ensures size { IfOk result (λ blocks. blocks.size ≡ size) }
        ensures list { IfOk result (λ blocks. blocks.list ≡ replicate count (zero_block size)) }
    {
        Ok(PagedBlocks {
            count,
            numbers: PageNumbers::zeroed(alloc, count / PAGE + 1)?,
            pages: FlatBlocks::zeroed(alloc, PAGE, size)?,
        })
    }

    /// How many blocks there are.
    pub fn len(&self) -> usize
        ensures { result ≡ length self.now.list }
    {
        self.count
    }

    /// The same blocks in memory of their own.
    pub fn copy(&self) -> Result<PagedBlocks, NoMemory>
        ensures { IfOk result (λ blocks. blocks ≡ self.now) }
    {
        Ok(PagedBlocks {
            count: self.count,
            numbers: self.numbers.copy()?,
            pages: self.pages.copy()?,
        })
    }

    /// The `count` blocks from place `at` take the data. Where all of them are in one page that is there, that takes no memory.
    #[inline(always)]
    pub fn write(&mut self, at: usize, count: usize, payload: &[u8]) -> Result<(), NoMemory>
        requires some { 0 < count }
        requires range { at + count ≤ length self.old.list }
        requires payload { length payload.now ≡ count * self.old.size }
        ensures size { self.new.size ≡ self.old.size }
        ensures ok { OnOk result (IsRewritten at count (block_at self.old.size payload.now) self.old.list self.new.list) }
        ensures err { OnErr result (self.new.list ≡ self.old.list) }
    {
        let page = self.numbers.at(at / PAGE);
        if page > 0 && at % PAGE + count <= PAGE {
            self.pages.put(page * PAGE + at % PAGE, count, payload);
            return Ok(());
        }
        let size = self.pages.size();
        let payload = PayloadRef::of(payload);
        self.put(at, count, &Source::Data { size, payload })
    }

    /// The `count` blocks from place `at` become zero bytes. Pages of which all blocks are among them are given back.
    pub fn zero(&mut self, at: usize, count: usize)
        requires { at + count ≤ length self.old.list }
        ensures size { self.new.size ≡ self.old.size }
        ensures list { IsRewritten at count (λ _. zero_block self.old.size) self.old.list self.new.list }
    {
        clear(&mut self.numbers, &mut self.pages, at, count);
    }

    /// Whether none of them has a page. Then all are zero bytes.
    pub fn has_no_page(&self) -> bool
        ensures { result ≡ true → self.now.list ≡ replicate (length self.now.list) (zero_block self.now.size) }
    {
        self.pages.len() == PAGE
    }

    /// The `count` blocks from place `at` become the source's, in pages of their own. These are made first, and the rest isn't refused.
    #[inline(never)]
    pub fn put(&mut self, at: usize, count: usize, source: &Source<'_>) -> Result<(), NoMemory>
        requires range { at + count ≤ length self.old.list }
        requires source { HasBlocks source.now count }
        requires size { HasSize source.now self.old.size }
        ensures size { self.new.size ≡ self.old.size }
        ensures ok { OnOk result (IsRewritten at count (source_block source.now) self.old.list self.new.list) }
        ensures err { OnErr result (self.new.list ≡ self.old.list) }
    {
        // The number of blocks is small, so each place up to it fits.
        let _count = self.count;
        let end = (at + count + PAGE - 1) / PAGE;
        make_pages(&mut self.numbers, &mut self.pages, at / PAGE, end)?;
        fill(&self.numbers, &mut self.pages, at, count, source);
        Ok(())
    }
}

/// Gives the 8 blocks at a place a page of their own, if they have none.
fn make_page(
    numbers: &mut PageNumbers,
    pages: &mut FlatBlocks,
    place: usize,
) -> Result<(), NoMemory>
    requires sound { ArePages pages.old numbers.old }
    requires place { place < length numbers.old }
    ensures sound { ArePages pages.new numbers.new }
    ensures size { pages.new.size ≡ pages.old.size }
    ensures len { length numbers.new ≡ length numbers.old }
    ensures same { gathered 8 pages.new.list numbers.new ≡ gathered 8 pages.old.list numbers.old }
    ensures own { OnOk result ((n : ℕ) → IsAt numbers.new place n → 0 < n) }
    ensures others { (i n : ℕ) → IsAt numbers.new i n → n ≡ 0 → IsAt numbers.old i n }
    ensures elsewhere { (i n : ℕ) → IsAt numbers.new i n → (i ≡ place) ⊎ IsAt numbers.old i n }
{
    if numbers.at(place) > 0 {
        return Ok(());
    }
    let count = pages.len();
    pages.extend(PAGE)?;
    if let Err(fault) = numbers.add(place) {
        pages.truncate(count);
        return Err(fault);
    }
    Ok(())
}

/// Gives the blocks at the places from `from` up to `to` pages of their own. Room for all of them is made first.
fn make_pages(
    numbers: &mut PageNumbers,
    pages: &mut FlatBlocks,
    from: usize,
    to: usize,
) -> Result<(), NoMemory>
    requires sound { ArePages pages.old numbers.old }
    requires range { to ≤ length numbers.old }
    ensures sound { ArePages pages.new numbers.new }
    ensures size { pages.new.size ≡ pages.old.size }
    ensures len { length numbers.new ≡ length numbers.old }
    ensures same { gathered 8 pages.new.list numbers.new ≡ gathered 8 pages.old.list numbers.old }
    ensures own { OnOk result ((i n : ℕ) → from ≤ i → i < to → IsAt numbers.new i n → 0 < n) }
    ensures others { (i n : ℕ) → IsAt numbers.new i n → 0 < n → ((from ≤ i) × (i < to)) ⊎ IsAt numbers.old i n }
{
    let mut missing = 0;
    for place in from..to {
        if numbers.at(place) == 0 {
            missing += 1;
        }
    }
    if missing == 0 {
        return Ok(());
    }
    pages.reserve(missing * PAGE)?;
    numbers.reserve(from, to, missing)?;
    for place in from..to {
        make_page(numbers, pages, place)?;
    }
    Ok(())
}

/// The 8 blocks at a place become zero bytes, and their page, if they have one, is given back: the last page takes its slot.
fn clear_page(numbers: &mut PageNumbers, pages: &mut FlatBlocks, place: usize)
    requires sound { ArePages pages.old numbers.old }
    requires place { place < length numbers.old }
    ensures sound { ArePages pages.new numbers.new }
    ensures size { pages.new.size ≡ pages.old.size }
    ensures len { length numbers.new ≡ length numbers.old }
    ensures list { IsRewritten (place * 8) 8 (λ _. zero_block pages.old.size) (gathered 8 pages.old.list numbers.old)
        (gathered 8 pages.new.list numbers.new) }
{
    let page = numbers.at(place);
    if page == 0 {
        return;
    }
    let last = pages.len() / PAGE - 1;
    if page < last {
        pages.copy_within(last * PAGE, page * PAGE, PAGE);
    }
    pages.truncate(last * PAGE);
    numbers.remove(place);
}

/// The `count` blocks from place `at` become zero bytes. Pages of which all blocks are among them are given back.
fn clear(numbers: &mut PageNumbers, pages: &mut FlatBlocks, at: usize, count: usize)
    requires sound { ArePages pages.old numbers.old }
    requires range { at + count ≤ length numbers.old * 8 }
    ensures sound { ArePages pages.new numbers.new }
    ensures size { pages.new.size ≡ pages.old.size }
    ensures len { length numbers.new ≡ length numbers.old }
    ensures list { IsRewritten at count (λ _. zero_block pages.old.size) (gathered 8 pages.old.list numbers.old)
        (gathered 8 pages.new.list numbers.new) }
{
    let size = pages.size();
    let mut done = 0;
    while done < count {
        let here = at + done;
        let most = (PAGE - here % PAGE).min(count - done);
        if most == PAGE {
            clear_page(numbers, pages, here / PAGE);
        } else {
            fill(numbers, pages, here, most, &Source::Zeroes { size });
        }
        done += most;
    }
}

/// The `count` blocks from place `at` become the source's. They have pages of their own, or are to be zeroes, as those without one are already.
fn fill(numbers: &PageNumbers, pages: &mut FlatBlocks, at: usize, count: usize, source: &Source<'_>)
    requires sound { ArePages pages.old numbers.now }
    requires range { at + count ≤ length numbers.now * 8 }
    requires source { HasBlocks source.now count }
    requires size { HasSize source.now pages.old.size }
    requires own { AreZeroes source.now ⊎ ((i n : ℕ) → at / 8 ≤ i → i * 8 < at + count → IsAt numbers.now i n → 0 < n) }
    ensures sound { ArePages pages.new numbers.now }
    ensures size { pages.new.size ≡ pages.old.size }
    ensures list { IsRewritten at count (source_block source.now) (gathered 8 pages.old.list numbers.now) (gathered 8 pages.new.list numbers.now) }
{
    let mut done = 0;
    while done < count {
        let here = at + done;
        let most = (PAGE - here % PAGE).min(count - done);
        let page = numbers.at(here / PAGE);
        if page > 0 {
            pages.fill(page * PAGE + here % PAGE, most, done, source);
        }
        done += most;
    }
}
