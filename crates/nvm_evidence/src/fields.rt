//! Fields, read from the front of what is left of a file of `total` bytes.
ghost use Rattle.std.specs.Prelude.{◌≡◌, length};
ghost use Rattle.nvm_file.specs.Fields.{offset};
ghost use Rattle.nvm_evidence.specs.Fields.{Gives, bytes_at, kind_at, number_at};

use crate::evidence_fault::EvidenceFault;
use byteorder::{ByteOrder, LittleEndian};

/// The offset in the file at which what is left begins.
pub(crate) fn offset_of(total: usize, rest: &[u8]) -> u64
    ensures { result ≡ offset total rest.now }
{
    total.saturating_sub(rest.len()) as u64
}

/// The next bytes, `count` of them, and what comes after them.
#[tactic(auto, unfolding(crate::specs::Fields::bytes_at))]
pub(crate) fn bytes_of<'f>(
    total: usize,
    count: u64,
    rest: &'f [u8],
) -> Result<(&'f [u8], &'f [u8]), EvidenceFault>
    ensures { Gives (λ x. (x.0.now, x.1.now)) result (bytes_at total count rest.now) }
{
    if (rest.len() as u64) < count {
        return Err(EvidenceFault::Truncated {
            at: offset_of(total, rest),
        });
    }
    Ok(rest.split_at(count as usize))
}

/// The next byte.
#[tactic(auto, unfolding(crate::specs::Fields::number_at))]
pub(crate) fn u8_of<'f>(total: usize, rest: &'f [u8]) -> Result<(u8, &'f [u8]), EvidenceFault>
    ensures { Gives (λ x. (x.0, x.1.now)) result (number_at total 1 rest.now) }
{
    if rest.len() < 1 {
        return Err(EvidenceFault::Truncated {
            at: offset_of(total, rest),
        });
    }
    Ok((rest[0], &rest[1..]))
}

/// A number of four bytes.
#[tactic(auto, unfolding(crate::specs::Fields::number_at))]
pub(crate) fn u32_of<'f>(total: usize, rest: &'f [u8]) -> Result<(u32, &'f [u8]), EvidenceFault>
    ensures { Gives (λ x. (x.0, x.1.now)) result (number_at total 4 rest.now) }
{
    if rest.len() < 4 {
        return Err(EvidenceFault::Truncated {
            at: offset_of(total, rest),
        });
    }
    Ok((LittleEndian::read_u32(rest), &rest[4..]))
}

/// A number of eight bytes.
#[tactic(auto, unfolding(crate::specs::Fields::number_at))]
pub(crate) fn u64_of<'f>(total: usize, rest: &'f [u8]) -> Result<(u64, &'f [u8]), EvidenceFault>
    ensures { Gives (λ x. (x.0, x.1.now)) result (number_at total 8 rest.now) }
{
    if rest.len() < 8 {
        return Err(EvidenceFault::Truncated {
            at: offset_of(total, rest),
        });
    }
    Ok((LittleEndian::read_u64(rest), &rest[8..]))
}

/// A kind: a byte from `low` to `high`.
#[tactic(auto, unfolding(crate::specs::Fields::kind_at))]
pub(crate) fn kind_of<'f>(
    total: usize,
    low: u8,
    high: u8,
    rest: &'f [u8],
) -> Result<(u8, &'f [u8]), EvidenceFault>
    ensures { Gives (λ x. (x.0, x.1.now)) result (kind_at total low high rest.now) }
{
    let (kind, after) = u8_of(total, rest)?;
    if kind < low || kind > high {
        return Err(EvidenceFault::BadValue {
            at: offset_of(total, rest),
        });
    }
    Ok((kind, after))
}
