ghost use Rattle.std.specs.Prelude.{◌≡◌, ◌↔◌, IsTrue};
ghost use Rattle.nvm_store.specs.Act.{operation_of};
ghost use Rattle.nvm_store.specs.ActRef.{lent_operation_of};
ghost use Rattle.nvm_record.specs.Ranges.{ranges_of};
ghost use Rattle.nvm_record.specs.Step.{HasRangesWithin};
ghost use Rattle.nvm_store.specs.Operation.{write_operation, zeroes_operation, uncorrectable_operation, pair_operation, deallocate_operation, ranges_operation};

use crate::act_ref::ActRef;
use crate::cut_ranges;
use nvm_record::laws::cut_ranges_lie_within;
use nvm_record::{Payload, are_equal};
use std::alloc::AllocError;

/// What may change the blocks of a unit.
///
/// `first` is an LBA of the namespace, and `blocks` a number of logical blocks, not zeroes-based.
#[derive(Debug, PartialEq, Eq, Drop)]
pub enum Act {
    /// The blocks take the data, one block after the other, and lose their marks (NVM Command Set
    /// Specification, "Write command").
    Write {
        blocks: u32,
        first: u64,
        payload: Payload,
    },
    /// The blocks become zero bytes, and lose their marks (NVM Command Set Specification, "Write Zeroes
    /// command").
    Zeroes {
        blocks: u32,
        first: u64,
    },
    /// The blocks are marked: until they are written or zeroed, no Read or comparison of them succeeds
    /// (NVM Command Set Specification, "Write Uncorrectable command").
    Uncorrectable {
        blocks: u32,
        first: u64,
    },
    /// A fused Compare and Write: the blocks are compared with `compare`, and take the data of `write` and
    /// lose their marks where the comparison holds (Base Specification, "Fused Operation").
    Pair {
        blocks: u32,
        first: u64,
        compare: Payload,
        write: Payload,
    },
    /// Those LBAs that are among the `blocks` from `first`, which are the unit's, and in one of the ranges
    /// become zero bytes, and lose their marks (NVM Command Set Specification, "Dataset Management
    /// command"). The ranges have 16 bytes each, as they follow a Dataset Management's entry; bytes past
    /// the last whole range aren't read.
    Deallocate {
        blocks: u32,
        first: u64,
        ranges: Payload,
    },
}

/// A copy of the act, which shares its data.
impl Clone for Act {
    ghost is_clone = { λ act copy. copy ≡ act };

    fn clone(&self) -> Result<Act, AllocError> {
        match self {
            Act::Write {
                first,
                blocks,
                payload,
            } => {
                let payload = payload.clone()?;
                Ok(Act::Write {
                    first: *first,
                    blocks: *blocks,
                    payload,
                })
            }
            Act::Zeroes { first, blocks } => Ok(Act::Zeroes {
                first: *first,
                blocks: *blocks,
            }),
            Act::Uncorrectable { first, blocks } => Ok(Act::Uncorrectable {
                first: *first,
                blocks: *blocks,
            }),
            Act::Pair {
                first,
                blocks,
                compare,
                write,
            } => {
                let compare = compare.clone()?;
                let write = write.clone()?;
                Ok(Act::Pair {
                    first: *first,
                    blocks: *blocks,
                    compare,
                    write,
                })
            }
            Act::Deallocate {
                first,
                blocks,
                ranges,
            } => {
                let ranges = ranges.clone()?;
                Ok(Act::Deallocate {
                    first: *first,
                    blocks: *blocks,
                    ranges,
                })
            }
        }
    }
}

impl Act {
    /// The same act with its data lent; a Deallocate where its ranges lie among its LBAs, as those of each
    /// act of a unit's history do. It takes no memory.
    pub fn as_ref(&self) -> ActRef<'_>
        ensures { HasRangesWithin (operation_of self.now).first (operation_of self.now).blocks (operation_of self.now).deed
            → lent_operation_of result ≡ operation_of self.now }
    {
        cut_ranges_lie_within();
        match self {
            Act::Write {
                first,
                blocks,
                payload,
            } => ActRef::Write {
                first: *first,
                blocks: *blocks,
                payload: payload.lend(),
            },
            Act::Zeroes { first, blocks } => ActRef::Zeroes {
                first: *first,
                blocks: *blocks,
            },
            Act::Uncorrectable { first, blocks } => ActRef::Uncorrectable {
                first: *first,
                blocks: *blocks,
            },
            Act::Pair {
                first,
                blocks,
                compare,
                write,
            } => ActRef::Pair {
                first: *first,
                blocks: *blocks,
                compare: compare.lend(),
                write: write.lend(),
            },
            Act::Deallocate {
                first,
                blocks,
                ranges,
            } => ActRef::Deallocate {
                first: *first,
                blocks: *blocks,
                ranges: ranges.lend(),
            },
        }
    }

    /// Whether it is this Write.
    pub(crate) fn is_this_write(&self, from: u64, count: u32, bytes: &[u8]) -> bool
        ensures { IsTrue result ↔ (write_operation from count bytes.now ≡ operation_of self.now) }
    {
        match self {
            Act::Write {
                first,
                blocks,
                payload,
            } => *first == from && *blocks == count && are_equal(payload.as_slice(), bytes),
            _ => false,
        }
    }

    /// Whether it is this Write Zeroes.
    pub(crate) fn are_these_zeroes(&self, from: u64, count: u32) -> bool
        ensures { IsTrue result ↔ (zeroes_operation from count ≡ operation_of self.now) }
    {
        match self {
            Act::Zeroes { first, blocks } => *first == from && *blocks == count,
            _ => false,
        }
    }

    /// Whether it is this Write Uncorrectable.
    pub(crate) fn is_this_mark(&self, from: u64, count: u32) -> bool
        ensures { IsTrue result ↔ (uncorrectable_operation from count ≡ operation_of self.now) }
    {
        match self {
            Act::Uncorrectable { first, blocks } => *first == from && *blocks == count,
            _ => false,
        }
    }

    /// Whether it is this pair.
    pub(crate) fn is_this_pair(&self, from: u64, count: u32, old: &[u8], new: &[u8]) -> bool
        ensures { IsTrue result ↔ (pair_operation from count old.now new.now ≡ operation_of self.now) }
    {
        match self {
            Act::Pair {
                first,
                blocks,
                compare,
                write,
            } => {
                *first == from
                    && *blocks == count
                    && are_equal(compare.as_slice(), old)
                    && are_equal(write.as_slice(), new)
            }
            _ => false,
        }
    }

    /// Whether it is the Deallocate of what lies of these ranges among the LBAs.
    pub(crate) fn is_this_deallocate(&self, from: u64, count: u32, bytes: &[u8]) -> bool
        ensures { IsTrue result
            ↔ (deallocate_operation from count (ranges_of bytes.now) ≡ operation_of self.now) }
    {
        match self {
            Act::Deallocate {
                first,
                blocks,
                ranges,
            } => {
                *first == from
                    && *blocks == count
                    && cut_ranges::are_left(from, count, bytes, ranges.as_slice())
            }
            _ => false,
        }
    }

    /// Whether it is the Deallocate of exactly these ranges.
    fn has_these_ranges(&self, from: u64, count: u32, bytes: &[u8]) -> bool
        ensures { IsTrue result
            ↔ (ranges_operation from count (ranges_of bytes.now) ≡ operation_of self.now) }
    {
        match self {
            Act::Deallocate {
                first,
                blocks,
                ranges,
            } => {
                *first == from && *blocks == count && cut_ranges::are_same(bytes, ranges.as_slice())
            }
            _ => false,
        }
    }

    /// Whether both are the same, with the same data. It takes no memory.
    pub(crate) fn is_same(&self, other: &Act) -> bool
        ensures { IsTrue result ↔ (operation_of self.now ≡ operation_of other.now) }
    {
        match self {
            Act::Write {
                first,
                blocks,
                payload,
            } => other.is_this_write(*first, *blocks, payload.as_slice()),
            Act::Zeroes { first, blocks } => other.are_these_zeroes(*first, *blocks),
            Act::Uncorrectable { first, blocks } => other.is_this_mark(*first, *blocks),
            Act::Pair {
                first,
                blocks,
                compare,
                write,
            } => other.is_this_pair(*first, *blocks, compare.as_slice(), write.as_slice()),
            Act::Deallocate {
                first,
                blocks,
                ranges,
            } => other.has_these_ranges(*first, *blocks, ranges.as_slice()),
        }
    }
}
