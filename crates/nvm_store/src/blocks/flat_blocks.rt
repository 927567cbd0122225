ghost use Rattle.std.specs.Prelude.{◌≡◌, ◌+◌, ◌++◌, ◌*◌, ◌^◌, ◌<◌, ◌≤◌, IfOk, OnErr, OnOk, drop, false, length, replicate, take, true};
ghost use Rattle.nvm_record.specs.declared.block.Block.TheVariants.{Uncorrectable};
ghost use Rattle.nvm_record.specs.Medium as medium;
ghost use Rattle.nvm_record.specs.Step.{block_at};
ghost use Rattle.nvm_store.specs.Inside.Flat.{with_bytes};
ghost use Rattle.nvm_store.specs.Inside.Rewrite.{IsRewritten, stretch_of, zero_block};
ghost use Rattle.nvm_store.specs.Inside.Source.{HasBlocks, HasSize, source_block};

use crate::blocks::source::Source;
use nvm_record::NoMemory;
use std::alloc::Global;
use std::marker::Model;

/// Blocks of one size in one piece of memory, of which contracts see the size and the list.
#[derive(Drop)]
pub struct FlatBlocks {
    size: usize,
    /// All their bytes, one block after the other.
    bytes: Vec<u8>,
    /// For each block whether it is marked.
    marks: Vec<bool>,
    /// Whether a block may be marked, as one was once.
    marked: bool,
}

impl Model for FlatBlocks {
    ghost use Rattle.std.specs.Prelude.{length};
    ghost use Rattle.nvm_store.specs.Inside.Flat.{AreFlat, SizedBlocks, cut, marked_as};

    ghost Value = { SizedBlocks };

    ghost view = { λ b. record {
      size = b.size;
      list = marked_as b.marks.items (cut (length b.marks.items) b.size b.bytes.items);
    } };

    ghost invariant = { λ b. AreFlat b.size b.bytes.items b.marks.items b.marked };
}

impl FlatBlocks {
    /// `count` blocks of `size` zero bytes.
    pub fn zeroed(alloc: Global, count: usize, size: usize) -> Result<FlatBlocks, NoMemory>
        requires { count * size < 2 ^ 63 }
        ensures size { IfOk result (λ blocks. blocks.size ≡ size) }
        ensures list { IfOk result (λ blocks. blocks.list ≡ replicate count (zero_block size)) }
    {
        Ok(FlatBlocks {
            size,
            bytes: Vec::from_elem(alloc, 0, count * size)?,
            marks: Vec::from_elem(alloc, false, count)?,
            marked: false,
        })
    }

    /// The bytes of each block.
    #[inline(always)]
    pub fn size(&self) -> usize
        ensures { result ≡ self.now.size }
    {
        self.size
    }

    /// How many blocks there are.
    pub fn len(&self) -> usize
        ensures { result ≡ length self.now.list }
    {
        self.marks.len()
    }

    /// The same blocks in memory of their own.
    pub fn copy(&self) -> Result<FlatBlocks, NoMemory>
        ensures { IfOk result (λ blocks. blocks ≡ self.now) }
    {
        Ok(FlatBlocks {
            size: self.size,
            bytes: self.bytes.clone()?,
            marks: self.marks.clone()?,
            marked: self.marked,
        })
    }

    /// Makes room for `more` blocks at the end.
    pub fn reserve(&mut self, more: usize) -> Result<(), NoMemory>
        requires { (length self.old.list + more) * self.old.size < 2 ^ 63 }
        ensures { self.new ≡ self.old }
    {
        self.marks.reserve(more)?;
        make_room(&mut self.bytes, more * self.size)
    }

    /// Adds `more` blocks of zero bytes at the end. With room for them that takes no memory.
    pub fn extend(&mut self, more: usize) -> Result<(), NoMemory>
        requires { (length self.old.list + more) * self.old.size < 2 ^ 63 }
        ensures size { self.new.size ≡ self.old.size }
        ensures ok { OnOk result (self.new.list ≡ self.old.list ++ replicate more (zero_block self.old.size)) }
        ensures err { OnErr result (self.new.list ≡ self.old.list) }
    {
        // With room for the marks first, all stays as it was where there is no memory.
        self.marks.reserve(more)?;
        make_room(&mut self.bytes, more * self.size)?;
        let count = self.marks.len() + more;
        self.bytes.resize(count * self.size, 0)?;
        self.marks.resize(count, false)
    }

    /// Puts the `count` blocks from place `from` over those from place `to`, which is before them.
    pub fn copy_within(&mut self, from: usize, to: usize, count: usize)
        requires range { from + count ≤ length self.old.list }
        requires before { to + count ≤ from }
        ensures size { self.new.size ≡ self.old.size }
        ensures list { self.new.list ≡ take to self.old.list ++ (stretch_of from count self.old.list ++ drop (to + count) self.old.list) }
    {
        copy_down(
            &mut self.bytes,
            from * self.size,
            to * self.size,
            count * self.size,
        );
        copy_down(&mut self.marks, from, to, count);
    }

    /// Keeps the first `count` blocks alone. Where that leaves a quarter of the memory or less in use, the rest is given back.
    pub fn truncate(&mut self, count: usize)
        requires { count ≤ length self.old.list }
        ensures size { self.new.size ≡ self.old.size }
        ensures list { self.new.list ≡ take count self.old.list }
    {
        self.bytes.truncate(count * self.size);
        self.marks.truncate(count);
        if self.bytes.len() <= self.bytes.capacity() / 4 {
            self.bytes.shrink_to_fit();
            self.marks.shrink_to_fit();
        }
    }

    /// The `count` blocks from place `at` take the data.
    #[inline(always)]
    pub fn put(&mut self, at: usize, count: usize, payload: &[u8])
        requires range { at + count ≤ length self.old.list }
        requires payload { length payload.now ≡ count * self.old.size }
        ensures size { self.new.size ≡ self.old.size }
        ensures list { IsRewritten at count (block_at self.old.size payload.now) self.old.list self.new.list }
    {
        put(&mut self.bytes, at * self.size, payload);
        if self.marked {
            set_marks(&mut self.marks, at, count, false);
        }
    }

    /// The `count` blocks from place `at` become zero bytes.
    pub fn clear(&mut self, at: usize, count: usize)
        requires { at + count ≤ length self.old.list }
        ensures size { self.new.size ≡ self.old.size }
        ensures list { IsRewritten at count (λ _. zero_block self.old.size) self.old.list self.new.list }
    {
        clear(&mut self.bytes, at * self.size, count * self.size);
        if self.marked {
            set_marks(&mut self.marks, at, count, false);
        }
    }

    /// The `count` blocks from place `at` are marked.
    pub fn mark(&mut self, at: usize, count: usize)
        requires { at + count ≤ length self.old.list }
        ensures size { self.new.size ≡ self.old.size }
        ensures list { IsRewritten at count (λ _. Uncorrectable) self.old.list self.new.list }
    {
        self.marked = true;
        set_marks(&mut self.marks, at, count, true);
    }

    /// The `count` blocks from place `at` become the source's from place `from` on.
    pub fn fill(&mut self, at: usize, count: usize, from: usize, source: &Source<'_>)
        requires range { at + count ≤ length self.old.list }
        requires source { HasBlocks source.now (from + count) }
        requires size { HasSize source.now self.old.size }
        ensures size { self.new.size ≡ self.old.size }
        ensures list { IsRewritten at count (λ i. source_block source.now (from + i)) self.old.list self.new.list }
    {
        match *source {
            Source::Data { size, payload } => {
                // A length fits, so each place up to it does.
                let _len = payload.len();
                let first = from * size;
                let part = payload.part(first, first + count * size);
                self.put(at, count, part.as_slice());
            }
            Source::Zeroes { .. } => self.clear(at, count),
            Source::Marks => self.mark(at, count),
        }
    }

    /// Whether a block may be marked. It takes a constant number of steps.
    pub fn may_have_mark(&self) -> bool
        ensures { result ≡ false → medium.has_mark self.now.list ≡ false }
    {
        self.marked
    }

    /// Whether one of the `count` blocks from place `at` is marked.
    #[inline(always)]
    pub fn has_mark(&self, at: usize, count: usize) -> bool
        requires { at + count ≤ length self.now.list }
        ensures { result ≡ medium.has_mark (stretch_of at count self.now.list) }
    {
        self.marked && self.marks[at..at + count].contains(&true)
    }

    /// Whether one of the `count` blocks from place `at` is marked. Else their bytes are in the buffer, which has room for exactly these.
    #[inline(always)]
    pub fn read_into(&self, at: usize, count: usize, buffer: &mut [u8]) -> bool
        requires range { at + count ≤ length self.now.list }
        requires room { medium.has_mark (stretch_of at count self.now.list) ≡ false
            → length buffer.old ≡ length (medium.joined (stretch_of at count self.now.list)) }
        ensures marked { result ≡ medium.has_mark (stretch_of at count self.now.list) }
        ensures read { result ≡ false → buffer.new ≡ medium.joined (stretch_of at count self.now.list) }
        ensures left { result ≡ true → buffer.new ≡ buffer.old }
    {
        let marked = self.has_mark(at, count);
        if !marked {
            buffer.copy_from_slice(self.bytes(at, count));
        }
        marked
    }

    /// The bytes of the `count` blocks from place `at`, one block after the other, of which none is marked.
    #[inline(always)]
    pub fn bytes(&self, at: usize, count: usize) -> &[u8]
        requires range { at + count ≤ length self.now.list }
        requires unmarked { medium.has_mark (stretch_of at count self.now.list) ≡ false }
        ensures bytes { result.now ≡ medium.joined (stretch_of at count self.now.list) }
        ensures len { length result.now ≡ count * self.now.size }
    {
        &self.bytes[at * self.size..(at + count) * self.size]
    }
}

/// Makes room for so many more bytes: for a quarter of those that there are, if they are more, or for these alone where that is refused.
fn make_room(bytes: &mut Vec<u8>, more: usize) -> Result<(), NoMemory>
    ensures { bytes.new.items ≡ bytes.old.items }
{
    if more <= bytes.capacity() - bytes.len() {
        return Ok(());
    }
    let much = more.max(bytes.len() / 4);
    if bytes.reserve_exact(much).is_ok() {
        return Ok(());
    }
    bytes.reserve_exact(more)
}

/// Puts new bytes from place `from` on.
#[inline(always)]
fn put(bytes: &mut Vec<u8>, from: usize, new: &[u8])
    requires { from + length new.now ≤ length bytes.old.items }
    ensures { bytes.new.items ≡ with_bytes from new.now bytes.old.items }
{
    bytes[from..from + new.len()].copy_from_slice(new);
}

/// Puts `len` zero bytes from place `from` on.
fn clear(bytes: &mut Vec<u8>, from: usize, len: usize)
    requires { from + len ≤ length bytes.old.items }
    ensures { bytes.new.items ≡ with_bytes from (replicate len 0) bytes.old.items }
{
    bytes[from..from + len].fill(0);
}

/// Sets the marks of `count` blocks from place `at`, or takes them away.
fn set_marks(marks: &mut Vec<bool>, at: usize, count: usize, mark: bool)
    requires { at + count ≤ length marks.old.items }
    ensures { marks.new.items ≡ take at marks.old.items ++ (replicate count mark ++ drop (at + count) marks.old.items) }
{
    marks[at..at + count].fill(mark);
}

/// Puts the `count` items from place `from` over those from place `to`, which is before them.
fn copy_down<T: Copy>(items: &mut Vec<T>, from: usize, to: usize, count: usize)
    requires range { from + count ≤ length items.old.items }
    requires before { to + count ≤ from }
    ensures { items.new.items ≡ take to items.old.items ++ (take count (drop from items.old.items) ++ drop (to + count) items.old.items) }
{
    let (front, back) = items.split_at_mut(from);
    front[to..to + count].copy_from_slice(&back[..count]);
}
