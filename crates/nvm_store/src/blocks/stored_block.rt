ghost use Rattle.std.specs.Prelude.{◌≡◌, ◌++◌, ℕ, List, IfNone, IfOk, IfSome, IsTrue, OnOk, MatchOption, false, true, ◌↔◌, ◌+◌, ◌≤◌, length, replicate, take};
ghost use Rattle.std.specs.Bool.{OnTrue};
ghost use Rattle.std.specs.Str.{bytes_eq};
ghost use Rattle.nvm_record.specs.declared.block.Block.TheVariants.{Bytes, Uncorrectable};
ghost use Rattle.nvm_record.specs.Medium as medium;
ghost use Rattle.nvm_record.specs.Medium.{bytes_of};
ghost use Rattle.nvm_store.specs.Inside.Rewrite.{zero_block};

use crate::blocks::content::Content;
use nvm_record::{NoMemory, Payload, are_equal};
use std::alloc::AllocError;
use std::marker::Model;

/// A block as a leaf keeps it. Its data is a payload, which may be shared.
#[derive(Drop)]
pub struct StoredBlock {
    content: Content,
}

impl Model for StoredBlock {
    ghost use Rattle.nvm_record.specs.declared.block.Block.{Block};
    ghost use Rattle.nvm_store.specs.Inside.Stored.{block_of};

    ghost Value = { Block };

    ghost view = { λ b. block_of b.content };
}

impl StoredBlock {
    /// A block of `size` zero bytes. It takes no memory.
    pub fn zero(size: usize) -> StoredBlock
        ensures { result ≡ zero_block size }
    {
        StoredBlock {
            content: Content::Zero { size },
        }
    }

    /// A block of this data.
    pub fn of_data(payload: Payload) -> StoredBlock
        ensures { result ≡ Bytes payload }
    {
        StoredBlock {
            content: Content::Data(payload),
        }
    }

    /// A marked block.
    pub fn marked() -> StoredBlock
        ensures { result ≡ Uncorrectable }
    {
        StoredBlock {
            content: Content::Marked,
        }
    }

    /// The same block, which shares its data. It takes no memory.
    pub fn share(&self) -> Result<StoredBlock, NoMemory>
        ensures { IfOk result (λ b. b ≡ self.now) }
    {
        match &self.content {
            Content::Zero { size } => Ok(StoredBlock::zero(*size)),
            Content::Data(own) => Ok(StoredBlock::of_data(own.share()?)),
            Content::Marked => Ok(StoredBlock::marked()),
        }
    }

    /// Puts these bytes in the place of its own, and says whether it did. It does where it has as many, in memory that nobody shares.
    #[inline(always)]
    pub fn overwrite(&mut self, bytes: &[u8]) -> bool
        ensures taken { result ≡ true → self.new ≡ Bytes bytes.now }
        ensures left { result ≡ false → self.new ≡ self.old }
    {
        match &mut self.content {
            Content::Data(own) => own.overwrite(bytes),
            Content::Zero { .. } | Content::Marked => false,
        }
    }

    /// Whether the block is marked, and can't be read.
    pub fn is_marked(&self) -> bool
        ensures { result ≡ medium.is_marked self.now }
    {
        match &self.content {
            Content::Zero { .. } | Content::Data(_) => false,
            Content::Marked => true,
        }
    }

    /// Whether it is kept as `size` zero bytes, which takes no memory. A block of data isn't, whatever its bytes are.
    pub fn is_kept_as_zero(&self, size: usize) -> bool
        ensures { OnTrue result (self.now ≡ zero_block size) }
    {
        match &self.content {
            Content::Zero { size: own } => *own == size,
            Content::Data(_) | Content::Marked => false,
        }
    }

    /// The data after the block's bytes, or `None` where it doesn't begin with them. A marked block has
    /// no bytes.
    pub fn behind<'a>(&self, payload: &'a [u8]) -> Option<&'a [u8]>
        ensures { MatchOption result
            ((rest : List ℕ) → bytes_of self.now ++ rest ≡ payload.now → ⊥)
            (λ rest. bytes_of self.now ++ rest.now ≡ payload.now) }
    {
        match &self.content {
            Content::Zero { size } => behind_zeroes(*size, payload),
            Content::Data(own) => behind_bytes(own.as_slice(), payload),
            Content::Marked => Some(payload),
        }
    }

    /// Appends the block's bytes, none of a marked one.
    pub fn push_bytes(&self, bytes: &mut Vec<u8>) -> Result<(), NoMemory>
        ensures { OnOk result (bytes.new.items ≡ bytes.old.items ++ bytes_of self.now) }
    {
        match &self.content {
            Content::Zero { size } => push_zeroes(*size, bytes),
            Content::Data(own) => bytes.extend_from_slice(own.as_slice()),
            Content::Marked => Ok(()),
        }
    }

    /// Whether it is marked. Else its bytes are in the buffer, which has room for exactly these.
    #[inline(always)]
    pub fn read_into(&self, buffer: &mut [u8]) -> bool
        requires room { medium.is_marked self.now ≡ false → length buffer.old ≡ length (bytes_of self.now) }
        ensures marked { result ≡ medium.is_marked self.now }
        ensures read { result ≡ false → buffer.new ≡ bytes_of self.now }
        ensures left { result ≡ true → buffer.new ≡ buffer.old }
    {
        match &self.content {
            Content::Zero { .. } => {
                buffer.fill(0);
                false
            }
            Content::Data(own) => {
                buffer.copy_from_slice(own.as_slice());
                false
            }
            Content::Marked => true,
        }
    }

    /// Whether its bytes are exactly the data. `None` if it is marked.
    #[inline(always)]
    pub fn compare(&self, payload: &[u8]) -> Option<bool>
        ensures marked { IfNone result (medium.is_marked self.now ≡ true) }
        ensures same { IfSome result (λ same. (medium.is_marked self.now ≡ false) × (same ≡ bytes_eq (bytes_of self.now) payload.now)) }
    {
        match &self.content {
            Content::Zero { size } => Some(payload.len() == *size && are_zero(payload)),
            Content::Data(own) => Some(are_equal(own.as_slice(), payload)),
            Content::Marked => None,
        }
    }

    /// Puts the block's bytes, none of a marked one, into the buffer from place `from` on, and answers where they end.
    pub fn copy_to(&self, buffer: &mut [u8], from: usize) -> usize
        requires { from + length (bytes_of self.now) ≤ length buffer.old }
        ensures to { result ≡ from + length (bytes_of self.now) }
        ensures put { take result buffer.new ≡ take from buffer.old ++ bytes_of self.now }
    {
        match &self.content {
            Content::Zero { size } => put_zeroes(buffer, from, *size),
            Content::Data(own) => put_bytes(buffer, from, own.as_slice()),
            Content::Marked => from,
        }
    }
}

/// Puts new bytes into the buffer from place `from` on, and answers where they end.
#[inline(always)]
pub fn put_bytes(buffer: &mut [u8], from: usize, new: &[u8]) -> usize
    requires { from + length new.now ≤ length buffer.old }
    ensures to { result ≡ from + length new.now }
    ensures put { take result buffer.new ≡ take from buffer.old ++ new.now }
{
    let to = from + new.len();
    buffer[from..to].copy_from_slice(new);
    to
}

/// Puts `count` zero bytes into the buffer from place `from` on, and answers where they end.
pub fn put_zeroes(buffer: &mut [u8], from: usize, count: usize) -> usize
    requires { from + count ≤ length buffer.old }
    ensures to { result ≡ from + count }
    ensures put { take result buffer.new ≡ take from buffer.old ++ replicate count 0 }
{
    let to = from + count;
    buffer[from..to].fill(0);
    to
}

/// Appends `count` zero bytes.
pub fn push_zeroes(count: usize, bytes: &mut Vec<u8>) -> Result<(), NoMemory>
    ensures { OnOk result (bytes.new.items ≡ bytes.old.items ++ replicate count 0) }
{
    let Some(len) = bytes.len().checked_add(count) else {
        return Err(AllocError);
    };
    bytes.resize(len, 0)
}

/// The data after these bytes, or `None` where it doesn't begin with them.
pub fn behind_bytes<'a>(bytes: &[u8], payload: &'a [u8]) -> Option<&'a [u8]>
    ensures { MatchOption result
        ((rest : List ℕ) → bytes.now ++ rest ≡ payload.now → ⊥)
        (λ rest. bytes.now ++ rest.now ≡ payload.now) }
{
    if payload.len() < bytes.len() {
        return None;
    }
    let (front, rest) = payload.split_at(bytes.len());
    if are_equal(front, bytes) {
        Some(rest)
    } else {
        None
    }
}

/// The data after `size` zero bytes, or `None` where it doesn't begin with them.
fn behind_zeroes(size: usize, payload: &[u8]) -> Option<&[u8]>
    ensures { MatchOption result
        ((rest : List ℕ) → replicate size 0 ++ rest ≡ payload.now → ⊥)
        (λ rest. replicate size 0 ++ rest.now ≡ payload.now) }
{
    if payload.len() < size {
        return None;
    }
    let (front, rest) = payload.split_at(size);
    if are_zero(front) { Some(rest) } else { None }
}

/// Whether the data is exactly `len` zero bytes.
pub fn is_zeroes(len: usize, payload: &[u8]) -> bool
    ensures { result ≡ bytes_eq (replicate len 0) payload.now }
{
    if payload.len() != len {
        return false;
    }
    are_zero(payload)
}

/// Whether all bytes are zero: the first is, and each is as the one before it.
pub fn are_zero(bytes: &[u8]) -> bool
    ensures { IsTrue result ↔ (bytes.now ≡ replicate (length bytes.now) 0) }
{
    let len = bytes.len();
    if len == 0 {
        return true;
    }
    bytes[0] == 0 && bytes[1..] == bytes[..len - 1]
}
