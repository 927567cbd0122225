//! The context attributes of ranges, which aren't read, and are 0 in what is kept.
ghost use Rattle.std.specs.Prelude.{◌≡◌, ◌↔◌, ◌≤◌, IsTrue, IfOk};
ghost use Rattle.nvm_record.specs.Ranges.{data_of_ranges, range_count as count_of, ranges_of};

use crate::NoMemory;
use crate::lba_range::{LbaRange, RANGE_BYTES, range_count};
use crate::payload::Payload;
use std::alloc::Global;

/// A copy of the ranges in which each context attribute is 0. Bytes past the last whole range aren't
/// copied.
pub fn without_attributes(alloc: Global, payload: &[u8]) -> Result<Payload, NoMemory>
    ensures bytes { IfOk result (λ p. p ≡ data_of_ranges (ranges_of payload.now)) }
    ensures again { IfOk result (λ p. ranges_of p ≡ ranges_of payload.now) }
{
    let count = range_count(payload);
    let mut kept = Vec::with_capacity(alloc, count * RANGE_BYTES)?;
    for place in 0..count {
        let range = LbaRange::at(payload, place);
        kept.extend_from_slice(&range.bytes())?;
    }
    Payload::new(alloc, kept)
}

/// Whether the data is whole ranges alone, and each of their context attributes is 0.
pub fn has_no_attributes(payload: &[u8]) -> bool
    ensures { IsTrue result ↔ (payload.now ≡ data_of_ranges (ranges_of payload.now)) }
{
    let count = range_count(payload);
    let mut rest = payload;
    for place in 0..count {
        let (definition, after) = rest.split_at(RANGE_BYTES);
        if definition != LbaRange::at(payload, place).bytes().as_slice() {
            return false;
        }
        rest = after;
    }
    rest.is_empty()
}
