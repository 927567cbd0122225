ghost use Rattle.std.specs.Prelude.{◌≡◌, ◌↔◌, ◌*◌, IsTrue, length};
ghost use Rattle.nvm_store.specs.ActRef.{lent_operation_of};
ghost use Rattle.nvm_store.specs.Look.{look_operation_of};
ghost use Rattle.nvm_store.specs.Place.{IsWithin, IsCovered};

use crate::act_ref::ActRef;
use crate::cut_ranges;
use crate::look::Look;
use nvm_record::BlockSize;

/// Where a unit lies in the namespace, and what it therefore covers.
#[derive(Clone, Copy, Debug, PartialEq, Eq)]
pub struct Place {
    /// The unit's first LBA.
    pub first: u64,
    /// The number of its logical blocks, not zeroes-based.
    pub blocks: u32,
    /// The size of each of them.
    pub size: BlockSize,
}

impl Place {
    /// Whether the act's range has a block and lies here, its data, if it has any, has exactly the blocks of
    /// the range, and of a Deallocate's ranges a block is left there. No LBA makes it wrap.
    pub fn covers(&self, act: ActRef<'_>) -> bool
        ensures { IsTrue result ↔ IsCovered self.now (lent_operation_of act.entry) }
    {
        match act {
            ActRef::Write {
                first,
                blocks,
                payload,
            } => self.has_range(first, blocks) && self.is_data_of(blocks, payload.as_slice()),
            ActRef::Zeroes { first, blocks } | ActRef::Uncorrectable { first, blocks } => {
                self.has_range(first, blocks)
            }
            ActRef::Pair {
                first,
                blocks,
                compare,
                write,
            } => {
                self.has_range(first, blocks)
                    && self.is_data_of(blocks, compare.as_slice())
                    && self.is_data_of(blocks, write.as_slice())
            }
            ActRef::Deallocate {
                first,
                blocks,
                ranges,
            } => {
                self.has_range(first, blocks)
                    && cut_ranges::is_left(first, blocks, ranges.as_slice())
            }
        }
    }

    /// Whether the look's range has a block and lies here, and its data, if it has any, has exactly the
    /// blocks of the range. No LBA makes it wrap.
    pub fn covers_look(&self, look: Look<'_>) -> bool
        ensures { IsTrue result ↔ IsCovered self.now (look_operation_of look.entry) }
    {
        match look {
            Look::Read { first, blocks } => self.has_range(first, blocks),
            Look::Compare {
                first,
                blocks,
                payload,
            } => self.has_range(first, blocks) && self.is_data_of(blocks, payload),
        }
    }

    /// Whether there is a block among the `blocks` LBAs from `first`, and all of them lie here.
    fn has_range(&self, first: u64, blocks: u32) -> bool
        ensures { IsTrue result ↔ IsWithin self.now first blocks }
    {
        blocks > 0
            && first >= self.first
            && first - self.first < u64::from(self.blocks)
            && u64::from(blocks) <= u64::from(self.blocks) - (first - self.first)
    }

    /// Whether the data has exactly `blocks` blocks.
    fn is_data_of(&self, blocks: u32, payload: &[u8]) -> bool
        ensures { IsTrue result ↔ (length payload.now ≡ blocks * self.now.size) }
    {
        payload.len() as u64 == u64::from(blocks) * u64::from(self.size.bytes())
    }
}
