ghost use Rattle.std.specs.Prelude.{◌≡◌, ◌+◌, ◌++◌, ◌<◌, ◌≤◌, IfNone, IfSome, OnOk, false, length, true};
ghost use Rattle.std.specs.Str.{bytes_eq};
ghost use Rattle.nvm_record.specs.Medium as medium;
ghost use Rattle.nvm_store.specs.Inside.Rewrite.{stretch_of};

use crate::blocks::shared_blocks::SharedBlocks;
use crate::blocks::stored_block::StoredBlock;
use crate::blocks::stretches;
use nvm_record::NoMemory;

/// What the blocks of a tree hold. None of these calls changes them.
impl SharedBlocks {
    /// Whether one of the `count` blocks from place `at` is marked.
    pub fn has_mark(&self, at: usize, count: usize) -> bool
        requires { at + count ≤ length self.now }
        ensures { result ≡ medium.has_mark (stretch_of at count self.now) }
    {
        // The number of blocks fits, so each place up to it does.
        let _len = self.len();
        let mut from = at;
        let mut left = count;
        while left > 0 {
            let stretch = self.stretch(from, left);
            if stretches::has_mark(stretch) {
                return true;
            }
            from += stretch.len();
            left -= stretch.len();
        }
        false
    }

    /// Whether the bytes of the `count` blocks from place `at`, one block after the other, are exactly the data. `None` if one of them is marked.
    /// It takes no memory. The way to one block is gone once.
    #[inline(never)]
    pub fn compare(&self, at: usize, count: usize, payload: &[u8]) -> Option<bool>
        requires { at + count ≤ length self.now }
        ensures marked { IfNone result (medium.has_mark (stretch_of at count self.now) ≡ true) }
        ensures same { IfSome result (λ same. (medium.has_mark (stretch_of at count self.now) ≡ false)
            × (same ≡ bytes_eq (medium.joined (stretch_of at count self.now)) payload.now)) }
    {
        if count == 1 {
            return self.compare_one(at, payload);
        }
        if self.has_mark(at, count) {
            return None;
        }
        Some(self.is_equal(at, count, payload))
    }

    /// Whether the bytes of the block at place `at` are exactly the data. `None` if it is marked.
    #[inline(always)]
    fn compare_one(&self, at: usize, payload: &[u8]) -> Option<bool>
        requires { at + 1 ≤ length self.now }
        ensures marked { IfNone result (medium.has_mark (stretch_of at 1 self.now) ≡ true) }
        ensures same { IfSome result (λ same. (medium.has_mark (stretch_of at 1 self.now) ≡ false)
            × (same ≡ bytes_eq (medium.joined (stretch_of at 1 self.now)) payload.now)) }
    {
        self.stretch(at, 1)[0].compare(payload)
    }

    /// Whether the bytes of the `count` blocks from place `at`, one block after the other, are exactly the
    /// data. It takes no memory, and looks at nothing past the first block that differs. A marked block
    /// has no bytes.
    fn is_equal(&self, at: usize, count: usize, payload: &[u8]) -> bool
        requires { at + count ≤ length self.now }
        ensures { result ≡ bytes_eq (medium.joined (stretch_of at count self.now)) payload.now }
    {
        // The number of blocks fits, so each place up to it does.
        let _len = self.len();
        let mut from = at;
        let mut left = count;
        let mut rest = payload;
        while left > 0 {
            let stretch = self.stretch(from, left);
            let Some(behind) = stretches::behind(stretch, rest) else {
                return false;
            };
            rest = behind;
            from += stretch.len();
            left -= stretch.len();
        }
        rest.is_empty()
    }

    /// Appends the bytes of the `count` blocks from place `at`, one block after the other. It takes no
    /// memory where `bytes` has room for them. A marked block has no bytes.
    pub fn push_bytes(&self, at: usize, count: usize, bytes: &mut Vec<u8>) -> Result<(), NoMemory>
        requires { at + count ≤ length self.now }
        ensures { OnOk result
            (bytes.new.items ≡ bytes.old.items ++ medium.joined (stretch_of at count self.now)) }
    {
        // The number of blocks fits, so each place up to it does.
        let _len = self.len();
        let mut from = at;
        let mut left = count;
        while left > 0 {
            let stretch = self.stretch(from, left);
            stretches::push_bytes(stretch, bytes)?;
            from += stretch.len();
            left -= stretch.len();
        }
        Ok(())
    }

    /// Whether one of the `count` blocks from place `at` is marked. Else their bytes, one block after the other, are in the buffer, which has room
    /// for exactly these. The way to one block is gone once.
    #[inline(never)]
    pub fn read_into(&self, at: usize, count: usize, buffer: &mut [u8]) -> bool
        requires range { at + count ≤ length self.now }
        requires room { medium.has_mark (stretch_of at count self.now) ≡ false
            → length buffer.old ≡ length (medium.joined (stretch_of at count self.now)) }
        ensures marked { result ≡ medium.has_mark (stretch_of at count self.now) }
        ensures read { result ≡ false → buffer.new ≡ medium.joined (stretch_of at count self.now) }
        ensures left { result ≡ true → buffer.new ≡ buffer.old }
    {
        if count == 1 {
            return self.read_one(at, buffer);
        }
        if self.has_mark(at, count) {
            return true;
        }
        self.copy_to(at, count, buffer);
        false
    }

    /// Whether the block at place `at` is marked. Else its bytes are in the buffer, which has room for exactly these.
    #[inline(always)]
    fn read_one(&self, at: usize, buffer: &mut [u8]) -> bool
        requires range { at + 1 ≤ length self.now }
        requires room { medium.has_mark (stretch_of at 1 self.now) ≡ false
            → length buffer.old ≡ length (medium.joined (stretch_of at 1 self.now)) }
        ensures marked { result ≡ medium.has_mark (stretch_of at 1 self.now) }
        ensures read { result ≡ false → buffer.new ≡ medium.joined (stretch_of at 1 self.now) }
        ensures left { result ≡ true → buffer.new ≡ buffer.old }
    {
        self.stretch(at, 1)[0].read_into(buffer)
    }

    /// Puts the bytes of the `count` blocks from place `at` into the buffer, which has room for exactly these. A marked block has no bytes.
    fn copy_to(&self, at: usize, count: usize, buffer: &mut [u8])
        requires range { at + count ≤ length self.now }
        requires room { length buffer.old ≡ length (medium.joined (stretch_of at count self.now)) }
        ensures { buffer.new ≡ medium.joined (stretch_of at count self.now) }
    {
        // The number of blocks fits, so each place up to it does.
        let _len = self.len();
        let mut from = at;
        let mut left = count;
        let mut to = 0;
        while left > 0 {
            let stretch = self.stretch(from, left);
            to = stretches::copy_to(stretch, buffer, to);
            from += stretch.len();
            left -= stretch.len();
        }
    }

    /// The stored blocks from place `from`, as far as they are in one leaf, and at most `most`.
    #[inline(always)]
    pub(super) fn stretch(&self, from: usize, most: usize) -> &[StoredBlock]
        requires some { 0 < most }
        requires range { from + most ≤ length self.now }
        ensures some { 0 < length result.now }
        ensures few { length result.now ≤ most }
        ensures is { stretch_of from (length result.now) self.now ≡ result.now }
    {
        let stretch = self.levels.stretch(from);
        let len = stretch.len().min(most);
        &stretch[..len]
    }
}
