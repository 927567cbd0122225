ghost use Rattle.std.specs.Prelude.{◌≡◌, ◌+◌, ◌-◌, ◌%◌, ◌^◌, ◌++◌, ◌<◌, ◌≤◌, IfNone, IfSome, OnOk, false, length, true};
ghost use Rattle.std.specs.Str.{bytes_eq};
ghost use Rattle.nvm_record.specs.Medium as medium;
ghost use Rattle.nvm_store.specs.Inside.Rewrite.{stretch_of};
ghost use Rattle.nvm_store.specs.Inside.Stretch.{AreParts};

use crate::blocks::flat_blocks::FlatBlocks;
use crate::blocks::paged_blocks::{PAGE, PagedBlocks};
use crate::blocks::stored_block::{behind_bytes, put_bytes};
use nvm_record::{NoMemory, are_equal};

/// What the blocks in pages hold. None of these calls changes them.
impl PagedBlocks {
    /// Whether one of the `count` blocks from place `at` is marked.
    pub fn has_mark(&self, at: usize, count: usize) -> bool
        requires { at + count ≤ length self.now.list }
        ensures { result ≡ medium.has_mark (stretch_of at count self.now.list) }
    {
        if !self.pages.may_have_mark() {
            return false;
        }
        let mut from = at;
        let mut left = count;
        while left > 0 {
            let stretch = self.stretch(from, left);
            if stretch.pages.has_mark(stretch.at, stretch.len) {
                return true;
            }
            from += stretch.len;
            left -= stretch.len;
        }
        false
    }

    /// Whether the bytes of the `count` blocks from place `at`, one block after the other, are exactly the data. `None` if one of them is marked.
    #[inline(always)]
    pub fn compare(&self, at: usize, count: usize, payload: &[u8]) -> Option<bool>
        requires some { 0 < count }
        requires range { at + count ≤ length self.now.list }
        ensures marked { IfNone result (medium.has_mark (stretch_of at count self.now.list) ≡ true) }
        ensures same { IfSome result (λ same. (medium.has_mark (stretch_of at count self.now.list) ≡ false)
            × (same ≡ bytes_eq (medium.joined (stretch_of at count self.now.list)) payload.now)) }
    {
        let stretch = self.stretch(at, count);
        if at % PAGE + count <= PAGE {
            if stretch.pages.has_mark(stretch.at, count) {
                return None;
            }
            return Some(are_equal(stretch.pages.bytes(stretch.at, count), payload));
        }
        if self.has_mark(at, count) {
            return None;
        }
        Some(self.is_equal(at, count, payload))
    }

    /// Whether the bytes of the `count` blocks from place `at`, of which none is marked, are exactly the data.
    fn is_equal(&self, at: usize, count: usize, payload: &[u8]) -> bool
        requires range { at + count ≤ length self.now.list }
        requires unmarked { medium.has_mark (stretch_of at count self.now.list) ≡ false }
        ensures { result ≡ bytes_eq (medium.joined (stretch_of at count self.now.list)) payload.now }
    {
        let mut from = at;
        let mut left = count;
        let mut rest = payload;
        while left > 0 {
            let stretch = self.stretch(from, left);
            let bytes = stretch.pages.bytes(stretch.at, stretch.len);
            let Some(behind) = behind_bytes(bytes, rest) else {
                return false;
            };
            rest = behind;
            from += stretch.len;
            left -= stretch.len;
        }
        rest.is_empty()
    }

    /// Appends the bytes of the `count` blocks from place `at`, of which none is marked.
    pub fn push_bytes(&self, at: usize, count: usize, bytes: &mut Vec<u8>) -> Result<(), NoMemory>
        requires range { at + count ≤ length self.now.list }
        requires unmarked { medium.has_mark (stretch_of at count self.now.list) ≡ false }
        ensures { OnOk result
            (bytes.new.items ≡ bytes.old.items ++ medium.joined (stretch_of at count self.now.list)) }
    {
        let mut from = at;
        let mut left = count;
        while left > 0 {
            let stretch = self.stretch(from, left);
            bytes.extend_from_slice(stretch.pages.bytes(stretch.at, stretch.len))?;
            from += stretch.len;
            left -= stretch.len;
        }
        Ok(())
    }

    /// Whether one of the `count` blocks from place `at` is marked. Else their bytes are in the buffer, which has room for exactly these.
    #[inline(always)]
    pub fn read_into(&self, at: usize, count: usize, buffer: &mut [u8]) -> bool
        requires some { 0 < count }
        requires range { at + count ≤ length self.now.list }
        requires room { medium.has_mark (stretch_of at count self.now.list) ≡ false
            → length buffer.old ≡ length (medium.joined (stretch_of at count self.now.list)) }
        ensures marked { result ≡ medium.has_mark (stretch_of at count self.now.list) }
        ensures read { result ≡ false → buffer.new ≡ medium.joined (stretch_of at count self.now.list) }
        ensures left { result ≡ true → buffer.new ≡ buffer.old }
    {
        let stretch = self.stretch(at, count);
        if at % PAGE + count <= PAGE {
            return stretch.pages.read_into(stretch.at, count, buffer);
        }
        if self.has_mark(at, count) {
            return true;
        }
        self.copy_to(at, count, buffer);
        false
    }

    /// Puts the bytes of the `count` blocks from place `at`, of which none is marked, into the buffer, which has room for exactly these.
    fn copy_to(&self, at: usize, count: usize, buffer: &mut [u8])
        requires range { at + count ≤ length self.now.list }
        requires unmarked { medium.has_mark (stretch_of at count self.now.list) ≡ false }
        requires room { length buffer.old ≡ length (medium.joined (stretch_of at count self.now.list)) }
        ensures { buffer.new ≡ medium.joined (stretch_of at count self.now.list) }
    {
        let mut from = at;
        let mut left = count;
        let mut to = 0;
        while left > 0 {
            let stretch = self.stretch(from, left);
            to = put_bytes(buffer, to, stretch.pages.bytes(stretch.at, stretch.len));
            from += stretch.len;
            left -= stretch.len;
        }
    }

    /// The blocks from place `from`, as far as they are in one page, and at most `most`.
    #[inline(always)]
    fn stretch(&self, from: usize, most: usize) -> Stretch<'_>
        requires some { 0 < most }
        requires range { from + most ≤ length self.now.list }
        ensures some { 0 < result.len }
        ensures few { result.len ≤ most }
        ensures whole { from % 8 + most ≤ 8 → result.len ≡ most }
        ensures fits { from + most < 2 ^ 32 }
        ensures within { result.at + result.len ≤ length result.pages.now.list }
        ensures is { stretch_of from result.len self.now.list ≡ stretch_of result.at result.len result.pages.now.list }
        ensures parts { AreParts (stretch_of result.at result.len result.pages.now.list) (stretch_of (from + result.len) (most - result.len) self.now.list)
            (stretch_of from most self.now.list) }
    {
        let page = self.numbers.at(from / PAGE);
        Stretch {
            pages: &self.pages,
            at: page * PAGE + from % PAGE,
            len: (PAGE - from % PAGE).min(most),
        }
    }
}

/// Some blocks of a page.
#[derive(Clone, Copy)]
struct Stretch<'a> {
    pages: &'a FlatBlocks,
    /// The first one's place among all pages' blocks.
    at: usize,
    len: usize,
}
