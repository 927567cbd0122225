//! Numbers and bytes, read from the front of what is left of a file of `total` bytes.
ghost use Rattle.std.specs.Prelude.{◌≡◌, ◌<◌, ◌≤◌, ◌*◌, length};
ghost use Rattle.nvm_file.specs.Fields.{Gives, bytes_at, number_at, number_in, number_below, offset};
ghost use Rattle.nvm_file.specs.Inside.Rest.{left_of};
ghost use Rattle.nvm_file.specs.declared.record_fault.RecordFault.TheVariants.{Truncated as CutShort, BadValue as Refused};

use crate::record_fault::RecordFault;
use crate::rest::Rest;
use byteorder::{ByteOrder, LittleEndian};
use nvm_record::Payload;

/// The offset in the file at which what is left begins.
pub fn offset_of(total: usize, rest: Rest<'_>) -> u64
    ensures { result ≡ offset total (left_of rest.entry) }
{
    total.saturating_sub(rest.len()) as u64
}

/// The field that begins here isn't whole.
pub fn cut_short(total: usize, rest: Rest<'_>) -> RecordFault
    ensures { result ≡ CutShort (offset total (left_of rest.entry)) }
{
    RecordFault::Truncated {
        at: offset_of(total, rest),
    }
}

/// The value of the field that begins here isn't allowed.
pub fn refused(total: usize, rest: Rest<'_>) -> RecordFault
    ensures { result ≡ Refused (offset total (left_of rest.entry)) }
{
    RecordFault::BadValue {
        at: offset_of(total, rest),
    }
}

#[tactic(auto, unfolding(crate::specs::Fields::number_at))]
pub fn u8_of(total: usize, rest: Rest<'_>) -> Result<(u8, Rest<'_>), RecordFault>
    ensures { Gives (λ x. (x.0, left_of x.1)) result (number_at total 1 (left_of rest.entry)) }
{
    if rest.len() < 1 {
        return Err(cut_short(total, rest));
    }
    Ok((rest.as_slice()[0], rest.after(1)))
}

#[tactic(auto, unfolding(crate::specs::Fields::number_at))]
pub fn u16_of(total: usize, rest: Rest<'_>) -> Result<(u16, Rest<'_>), RecordFault>
    ensures { Gives (λ x. (x.0, left_of x.1)) result (number_at total 2 (left_of rest.entry)) }
{
    if rest.len() < 2 {
        return Err(cut_short(total, rest));
    }
    Ok((LittleEndian::read_u16(rest.as_slice()), rest.after(2)))
}

#[tactic(auto, unfolding(crate::specs::Fields::number_at))]
pub fn u32_of(total: usize, rest: Rest<'_>) -> Result<(u32, Rest<'_>), RecordFault>
    ensures { Gives (λ x. (x.0, left_of x.1)) result (number_at total 4 (left_of rest.entry)) }
{
    if rest.len() < 4 {
        return Err(cut_short(total, rest));
    }
    Ok((LittleEndian::read_u32(rest.as_slice()), rest.after(4)))
}

#[tactic(auto, unfolding(crate::specs::Fields::number_at))]
pub fn u64_of(total: usize, rest: Rest<'_>) -> Result<(u64, Rest<'_>), RecordFault>
    ensures { Gives (λ x. (x.0, left_of x.1)) result (number_at total 8 (left_of rest.entry)) }
{
    if rest.len() < 8 {
        return Err(cut_short(total, rest));
    }
    Ok((LittleEndian::read_u64(rest.as_slice()), rest.after(8)))
}

/// A number from `low` to `high`.
#[tactic(auto, unfolding(crate::specs::Fields::number_in))]
pub fn u8_in(total: usize, low: u8, high: u8, rest: Rest<'_>) -> Result<(u8, Rest<'_>), RecordFault>
    ensures { Gives (λ x. (x.0, left_of x.1)) result (number_in total 1 low high (left_of rest.entry)) }
{
    let (number, after) = u8_of(total, rest)?;
    if number < low || number > high {
        return Err(refused(total, rest));
    }
    Ok((number, after))
}

/// A number from `low` to `high`.
#[tactic(auto, unfolding(crate::specs::Fields::number_in))]
pub fn u16_in(
    total: usize,
    low: u16,
    high: u16,
    rest: Rest<'_>,
) -> Result<(u16, Rest<'_>), RecordFault>
    ensures { Gives (λ x. (x.0, left_of x.1)) result (number_in total 2 low high (left_of rest.entry)) }
{
    let (number, after) = u16_of(total, rest)?;
    if number < low || number > high {
        return Err(refused(total, rest));
    }
    Ok((number, after))
}

/// A number from `low` to `high`.
#[tactic(auto, unfolding(crate::specs::Fields::number_in))]
pub fn u32_in(
    total: usize,
    low: u32,
    high: u32,
    rest: Rest<'_>,
) -> Result<(u32, Rest<'_>), RecordFault>
    ensures { Gives (λ x. (x.0, left_of x.1)) result (number_in total 4 low high (left_of rest.entry)) }
{
    let (number, after) = u32_of(total, rest)?;
    if number < low || number > high {
        return Err(refused(total, rest));
    }
    Ok((number, after))
}

/// A number below `end`.
#[tactic(auto, unfolding(crate::specs::Fields::number_below))]
pub fn u16_below(total: usize, end: u16, rest: Rest<'_>) -> Result<(u16, Rest<'_>), RecordFault>
    ensures { Gives (λ x. (x.0, left_of x.1)) result (number_below total 2 end (left_of rest.entry)) }
{
    let (number, after) = u16_of(total, rest)?;
    if number >= end {
        return Err(refused(total, rest));
    }
    Ok((number, after))
}

/// A number below `end`.
#[tactic(auto, unfolding(crate::specs::Fields::number_below))]
pub fn u32_below(total: usize, end: u32, rest: Rest<'_>) -> Result<(u32, Rest<'_>), RecordFault>
    ensures { Gives (λ x. (x.0, left_of x.1)) result (number_below total 4 end (left_of rest.entry)) }
{
    let (number, after) = u32_of(total, rest)?;
    if number >= end {
        return Err(refused(total, rest));
    }
    Ok((number, after))
}

/// A run of so many bytes, shared with the file.
#[tactic(auto, unfolding(crate::specs::Fields::bytes_at))]
pub fn data_of(
    total: usize,
    count: usize,
    rest: Rest<'_>,
) -> Result<(Payload, Rest<'_>), RecordFault>
    ensures { Gives (λ x. (x.0, left_of x.1)) result (bytes_at total count (left_of rest.entry)) }
{
    if rest.len() < count {
        return Err(cut_short(total, rest));
    }
    let payload = rest.part(count)?;
    Ok((payload, rest.after(count)))
}

/// For how many of `count` items of at least so many bytes there is room in what is left: memory is taken for these
/// alone, whatever the count says.
pub fn room_for(count: usize, least_bytes: usize, rest: Rest<'_>) -> usize
    requires { 0 < least_bytes }
    ensures wanted { result ≤ count }
    ensures held { result * least_bytes ≤ length (left_of rest.entry) }
{
    count.min(rest.len() / least_bytes)
}
