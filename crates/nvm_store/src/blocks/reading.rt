ghost use Rattle.std.specs.Prelude.{◌≡◌, ◌+◌, ◌++◌, ◌<◌, ◌≤◌, IfNone, IfSome, OnOk, false, length, true};
ghost use Rattle.std.specs.Str.{bytes_eq};
ghost use Rattle.nvm_record.specs.Medium as medium;
ghost use Rattle.nvm_store.specs.Inside.Rewrite.{stretch_of};

use crate::blocks::stored_block::{is_zeroes, push_zeroes};
use crate::blocks::{Blocks, Memory};
use nvm_record::{NoMemory, are_equal};

/// What the blocks of a unit hold. None of these calls changes them.
impl Blocks {
    /// Whether one of the `count` blocks from place `at` is marked.
    pub fn has_mark(&self, at: usize, count: usize) -> bool
        requires { at + count ≤ length self.now.list }
        ensures { result ≡ medium.has_mark (stretch_of at count self.now.list) }
    {
        match &self.memory {
            Memory::Shared(blocks) => blocks.has_mark(at, count),
            Memory::Zeroes(_) => false,
            Memory::Flat(blocks) => blocks.has_mark(at, count),
            Memory::Paged(blocks) => blocks.has_mark(at, count),
        }
    }

    /// Whether the bytes of the `count` blocks from place `at`, one block after the other, are exactly the
    /// data. `None` if one of them is marked. It takes no memory.
    #[inline(always)]
    pub fn compare(&self, at: usize, count: usize, payload: &[u8]) -> Option<bool>
        requires some { 0 < count }
        requires range { at + count ≤ length self.now.list }
        ensures marked { IfNone result (medium.has_mark (stretch_of at count self.now.list) ≡ true) }
        ensures same { IfSome result (λ same. (medium.has_mark (stretch_of at count self.now.list) ≡ false)
            × (same ≡ bytes_eq (medium.joined (stretch_of at count self.now.list)) payload.now)) }
    {
        match &self.memory {
            Memory::Shared(blocks) => blocks.compare(at, count, payload),
            Memory::Zeroes(_) => Some(is_zeroes(count * self.size, payload)),
            Memory::Flat(blocks) => {
                if blocks.has_mark(at, count) {
                    return None;
                }
                Some(are_equal(blocks.bytes(at, count), payload))
            }
            Memory::Paged(blocks) => blocks.compare(at, count, payload),
        }
    }

    /// Appends the bytes of the `count` blocks from place `at`, of which none is marked, one block after the other. It takes no
    /// memory where `bytes` has room for them.
    pub fn push_bytes(&self, at: usize, count: usize, bytes: &mut Vec<u8>) -> Result<(), NoMemory>
        requires range { at + count ≤ length self.now.list }
        requires unmarked { medium.has_mark (stretch_of at count self.now.list) ≡ false }
        ensures { OnOk result
            (bytes.new.items ≡ bytes.old.items ++ medium.joined (stretch_of at count self.now.list)) }
    {
        match &self.memory {
            Memory::Shared(blocks) => blocks.push_bytes(at, count, bytes),
            Memory::Zeroes(_) => push_zeroes(count * self.size, bytes),
            Memory::Flat(blocks) => bytes.extend_from_slice(blocks.bytes(at, count)),
            Memory::Paged(blocks) => blocks.push_bytes(at, count, bytes),
        }
    }

    /// Whether one of the `count` blocks from place `at` is marked. Else their bytes, one block after the other, are in the buffer, which has room
    /// for exactly these.
    #[inline(always)]
    pub fn read_into(&self, at: usize, count: usize, buffer: &mut [u8]) -> bool
        requires some { 0 < count }
        requires range { at + count ≤ length self.now.list }
        requires room { medium.has_mark (stretch_of at count self.now.list) ≡ false
            → length buffer.old ≡ length (medium.joined (stretch_of at count self.now.list)) }
        ensures marked { result ≡ medium.has_mark (stretch_of at count self.now.list) }
        ensures read { result ≡ false → buffer.new ≡ medium.joined (stretch_of at count self.now.list) }
        ensures left { result ≡ true → buffer.new ≡ buffer.old }
    {
        match &self.memory {
            Memory::Shared(blocks) => blocks.read_into(at, count, buffer),
            Memory::Zeroes(_) => {
                buffer.fill(0);
                false
            }
            Memory::Flat(blocks) => blocks.read_into(at, count, buffer),
            Memory::Paged(blocks) => blocks.read_into(at, count, buffer),
        }
    }
}
