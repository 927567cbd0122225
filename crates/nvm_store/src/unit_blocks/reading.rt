ghost use Rattle.std.specs.Prelude.{◌≡◌, ◌*◌, IfNone, IfOk, IfSome, false, length, true};
ghost use Rattle.std.specs.Str.{bytes_eq};
ghost use Rattle.nvm_record.specs.Medium as medium;
ghost use Rattle.nvm_record.specs.Medium.{Medium, range};
ghost use Rattle.nvm_store.specs.Contents.{Holds, place_of};
ghost use Rattle.nvm_store.specs.Inside.Sound.{blocks_at};
ghost use Rattle.nvm_store.specs.Place.{IsWithin};

use crate::unit_blocks::UnitBlocks;
use nvm_record::NoMemory;
use std::alloc::Global;

/// What the unit's blocks hold. None of these calls changes them.
impl UnitBlocks {
    /// Whether one of the `blocks` LBAs from `first` is marked. It takes no memory.
    pub(crate) fn has_mark(&self, first: u64, blocks: u32) -> bool
        requires { IsWithin (place_of self.now) first blocks }
        ensures here { result ≡ medium.has_mark (blocks_at self.now first blocks) }
        ensures held { (m : Medium) → Holds self.now m → result ≡ medium.has_mark (range m first blocks) }
    {
        let at = (first - self.first) as usize;
        self.blocks.has_mark(at, blocks as usize)
    }

    /// Whether the bytes of the `blocks` LBAs from `first` are exactly the data. `None` if one of them is marked. It takes no memory.
    #[inline(always)]
    pub(crate) fn compare(&self, first: u64, blocks: u32, payload: &[u8]) -> Option<bool>
        requires { IsWithin (place_of self.now) first blocks }
        ensures marked { (m : Medium) → Holds self.now m → IfNone result (medium.has_mark (range m first blocks) ≡ true) }
        ensures same { (m : Medium) → Holds self.now m → IfSome result (λ same. (medium.has_mark (range m first blocks) ≡ false)
            × (same ≡ bytes_eq (medium.joined (range m first blocks)) payload.now)) }
    {
        let at = (first - self.first) as usize;
        self.blocks.compare(at, blocks as usize, payload)
    }

    /// The bytes of the `blocks` LBAs from `first`. Their room is reserved once.
    pub(crate) fn bytes(&self, alloc: Global, first: u64, blocks: u32) -> Result<Vec<u8>, NoMemory>
        requires range { IsWithin (place_of self.now) first blocks }
        requires unmarked { medium.has_mark (blocks_at self.now first blocks) ≡ false }
        ensures held { IfOk result (λ bytes. (m : Medium) → Holds self.now m
            → bytes.items ≡ medium.joined (range m first blocks)) }
        ensures len { IfOk result (λ bytes. length bytes.items ≡ blocks * self.now.size) }
    {
        let at = (first - self.first) as usize;
        let blocks = blocks as usize;
        let mut bytes = Vec::with_capacity(alloc, blocks * self.size.bytes() as usize)?;
        self.blocks.push_bytes(at, blocks, &mut bytes)?;
        Ok(bytes)
    }

    /// Whether one of the `blocks` LBAs from `first` is marked. Else their bytes are in the buffer, which has room for exactly these. It takes no memory.
    #[inline(always)]
    pub(crate) fn read_into(&self, first: u64, blocks: u32, buffer: &mut [u8]) -> bool
        requires range { IsWithin (place_of self.now) first blocks }
        requires room { length buffer.old ≡ blocks * self.now.size }
        ensures marked { (m : Medium) → Holds self.now m → result ≡ medium.has_mark (range m first blocks) }
        ensures read { result ≡ false → (m : Medium) → Holds self.now m → buffer.new ≡ medium.joined (range m first blocks) }
        ensures left { result ≡ true → buffer.new ≡ buffer.old }
    {
        let at = (first - self.first) as usize;
        self.blocks.read_into(at, blocks as usize, buffer)
    }
}
