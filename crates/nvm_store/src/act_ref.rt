ghost use Rattle.std.specs.Prelude.{◌≡◌, ◌↔◌, IfOk, IsTrue};
ghost use Rattle.nvm_store.specs.Act.{operation_of};
ghost use Rattle.nvm_store.specs.ActRef.{lent_operation_of};

use crate::act::Act;
use crate::cut_ranges;
use nvm_record::{NoMemory, PayloadRef};
use std::alloc::Global;

/// An [`Act`] whose data is lent: bytes that nothing shares yet.
#[derive(Clone, Copy, Debug, PartialEq, Eq)]
pub enum ActRef<'a> {
    /// See [`Act::Write`].
    Write {
        blocks: u32,
        first: u64,
        payload: PayloadRef<'a>,
    },
    /// See [`Act::Zeroes`].
    Zeroes {
        blocks: u32,
        first: u64,
    },
    /// See [`Act::Uncorrectable`].
    Uncorrectable {
        blocks: u32,
        first: u64,
    },
    /// See [`Act::Pair`].
    Pair {
        blocks: u32,
        first: u64,
        compare: PayloadRef<'a>,
        write: PayloadRef<'a>,
    },
    /// See [`Act::Deallocate`]. The ranges may be those of a whole command: what isn't among the LBAs falls
    /// out. A range's end, and that of the LBAs, may lie past 2^64.
    Deallocate {
        blocks: u32,
        first: u64,
        ranges: PayloadRef<'a>,
    },
}

impl<'a> ActRef<'a> {
    /// Whether it is the same act, with the same data: of a Deallocate what lies of its ranges among its
    /// LBAs. It takes no memory.
    pub fn is(self, act: &Act) -> bool
        ensures { IsTrue result ↔ (lent_operation_of self.entry ≡ operation_of act.now) }
    {
        match self {
            ActRef::Write {
                first,
                blocks,
                payload,
            } => act.is_this_write(first, blocks, payload.as_slice()),
            ActRef::Zeroes { first, blocks } => act.are_these_zeroes(first, blocks),
            ActRef::Uncorrectable { first, blocks } => act.is_this_mark(first, blocks),
            ActRef::Pair {
                first,
                blocks,
                compare,
                write,
            } => act.is_this_pair(first, blocks, compare.as_slice(), write.as_slice()),
            ActRef::Deallocate {
                first,
                blocks,
                ranges,
            } => act.is_this_deallocate(first, blocks, ranges.as_slice()),
        }
    }

    /// The same act, which shares the data. Data that a payload shares takes no memory, and is refused only where 2^63 - 1 payloads
    /// share it already. Other data is copied.
    ///
    /// A Deallocate has exactly what lies of its ranges among its LBAs. Where these are some ranges in a row, and none
    /// is cut, they are shared as other data is. Else they are copied, and their room is reserved once, at its
    /// exact length.
    pub fn to_act(self, alloc: Global) -> Result<Act, NoMemory>
        ensures { IfOk result (λ act. operation_of act ≡ lent_operation_of self.entry) }
    {
        match self {
            ActRef::Write {
                first,
                blocks,
                payload,
            } => {
                let payload = payload.share(alloc)?;
                Ok(Act::Write {
                    first,
                    blocks,
                    payload,
                })
            }
            ActRef::Zeroes { first, blocks } => Ok(Act::Zeroes { first, blocks }),
            ActRef::Uncorrectable { first, blocks } => Ok(Act::Uncorrectable { first, blocks }),
            ActRef::Pair {
                first,
                blocks,
                compare,
                write,
            } => {
                let compare = compare.share(alloc)?;
                let write = write.share(alloc)?;
                Ok(Act::Pair {
                    first,
                    blocks,
                    compare,
                    write,
                })
            }
            ActRef::Deallocate {
                first,
                blocks,
                ranges,
            } => {
                let ranges = cut_ranges::left_data(alloc, first, blocks, ranges)?;
                Ok(Act::Deallocate {
                    first,
                    blocks,
                    ranges,
                })
            }
        }
    }
}
