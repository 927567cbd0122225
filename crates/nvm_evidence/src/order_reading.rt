ghost use Rattle.std.specs.Prelude.{◌≡◌, map};
ghost use Rattle.nvm_standard.specs.OrderView.{seen_content, seen_first, seen_placed, seen_value};
ghost use Rattle.nvm_file.specs.Fields.{items_at};
ghost use Rattle.nvm_evidence.specs.Fields.{Gives, counted_at};
ghost use Rattle.nvm_evidence.specs.OrderReading.{content_at, first_at, order_at, placed_at, seen_held_order, these_at, value_at};

use crate::evidence::HeldOrder;
use crate::evidence_fault::EvidenceFault;
use crate::fields::{bytes_of, kind_of, offset_of, u32_of, u64_of};
use crate::front::{ORDER, front_of};
use nvm_standard::{Content, FirstContent, Order, Placed, Value};
use std::alloc::Global;

/// The fewest bytes of a first content: its block, and what kind of content it is.
const LEAST_FIRST: usize = 5;

/// The fewest bytes of what is placed: its point, its blocks, and the kind of its value.
const LEAST_PLACED: usize = 13;

/// Reads an order's file from its front. Contents are lent from the bytes.
///
/// Memory is taken for what is read, never for more than the bytes that follow could hold, whatever their numbers say. The first fault from
/// the front is answered, or `NoMemory` where a growth was refused before it. Whether the order explains anything it doesn't say.
#[tactic(auto, unfolding(crate::specs::OrderReading::order_at))]
pub fn read_order<'f>(alloc: Global, bytes: &'f [u8]) -> Result<HeldOrder<'f>, EvidenceFault>
    ensures { Gives seen_held_order result (order_at bytes.now) }
{
    let total = bytes.len();
    let (profile, rest) = front_of(ORDER, bytes)?;
    let (first, rest) = firsts_of(alloc, total, rest)?;
    let (placed, rest) = all_placed_of(alloc, total, rest)?;
    if rest.len() > 0 {
        return Err(EvidenceFault::Trailing {
            at: offset_of(total, rest),
        });
    }
    let order = Order { first, placed };
    Ok(HeldOrder { profile, order })
}

/// What blocks held at first.
#[tactic(auto, unfolding(crate::specs::Fields::counted_at))]
fn firsts_of<'f>(
    alloc: Global,
    total: usize,
    from: &'f [u8],
) -> Result<(Vec<FirstContent<'f>>, &'f [u8]), EvidenceFault>
    ensures { Gives (λ x. (map seen_first x.0.items, x.1.now)) result (counted_at total (first_at total) from.now) }
{
    let (count, rest) = u64_of(total, from)?;
    some_firsts_of(alloc, total, count, rest)
}

/// So many of them.
fn some_firsts_of<'f>(
    alloc: Global,
    total: usize,
    count: u64,
    from: &'f [u8],
) -> Result<(Vec<FirstContent<'f>>, &'f [u8]), EvidenceFault>
    ensures { Gives (λ x. (map seen_first x.0.items, x.1.now)) result (items_at (λ _. first_at total) 0 count from.now) }
{
    let room = count.min((from.len() / LEAST_FIRST) as u64);
    let mut firsts = Vec::with_capacity(alloc, room as usize)?;
    let mut rest = from;
    for _ in 0..count {
        let (first, after) = first_of(total, rest)?;
        firsts.push(first)?;
        rest = after;
    }
    Ok((firsts, rest))
}

/// What a block held at first.
#[tactic(auto, unfolding(crate::specs::OrderReading::first_at))]
fn first_of<'f>(total: usize, from: &'f [u8]) -> Result<(FirstContent<'f>, &'f [u8]), EvidenceFault>
    ensures { Gives (λ x. (seen_first x.0, x.1.now)) result (first_at total from.now) }
{
    let (block, rest) = u32_of(total, from)?;
    let (kind, rest) = kind_of(total, 1, 4, rest)?;
    let (content, rest) = content_of(total, kind, rest)?;
    Ok((FirstContent { block, content }, rest))
}

/// The points, in their order.
#[tactic(auto, unfolding(crate::specs::Fields::counted_at))]
fn all_placed_of<'f>(
    alloc: Global,
    total: usize,
    from: &'f [u8],
) -> Result<(Vec<Placed<'f>>, &'f [u8]), EvidenceFault>
    ensures { Gives (λ x. (map seen_placed x.0.items, x.1.now)) result (counted_at total (placed_at total) from.now) }
{
    let (count, rest) = u64_of(total, from)?;
    some_placed_of(alloc, total, count, rest)
}

/// So many of them.
fn some_placed_of<'f>(
    alloc: Global,
    total: usize,
    count: u64,
    from: &'f [u8],
) -> Result<(Vec<Placed<'f>>, &'f [u8]), EvidenceFault>
    ensures { Gives (λ x. (map seen_placed x.0.items, x.1.now)) result (items_at (λ _. placed_at total) 0 count from.now) }
{
    let room = count.min((from.len() / LEAST_PLACED) as u64);
    let mut all = Vec::with_capacity(alloc, room as usize)?;
    let mut rest = from;
    for _ in 0..count {
        let (placed, after) = placed_of(total, rest)?;
        all.push(placed)?;
        rest = after;
    }
    Ok((all, rest))
}

/// A point, where it is done there, and what is put.
#[tactic(auto, unfolding(crate::specs::OrderReading::placed_at))]
fn placed_of<'f>(total: usize, from: &'f [u8]) -> Result<(Placed<'f>, &'f [u8]), EvidenceFault>
    ensures { Gives (λ x. (seen_placed x.0, x.1.now)) result (placed_at total from.now) }
{
    let (point, rest) = u32_of(total, from)?;
    let (first, rest) = u32_of(total, rest)?;
    let (blocks, rest) = u32_of(total, rest)?;
    let (kind, rest) = kind_of(total, 0, 4, rest)?;
    let (value, rest) = value_of(total, kind, rest)?;
    let placed = Placed {
        point,
        first,
        blocks,
        value,
    };
    Ok((placed, rest))
}

/// What is put, of this kind, 0 to 4.
fn value_of<'f>(
    total: usize,
    kind: u8,
    rest: &'f [u8],
) -> Result<(Value<'f>, &'f [u8]), EvidenceFault>
    ensures { Gives (λ x. (seen_value x.0, x.1.now)) result (value_at total kind rest.now) }
{
    if kind == 0 {
        return Ok((Value::AsIs, rest));
    }
    let (content, rest) = content_of(total, kind, rest)?;
    Ok((Value::Put(content), rest))
}

/// Content of this kind, 1 to 4.
fn content_of<'f>(
    total: usize,
    kind: u8,
    rest: &'f [u8],
) -> Result<(Content<'f>, &'f [u8]), EvidenceFault>
    ensures { Gives (λ x. (seen_content x.0, x.1.now)) result (content_at total kind rest.now) }
{
    match kind {
        1 => Ok((Content::Zeroes, rest)),
        2 => Ok((Content::Ones, rest)),
        3 => these_of(total, rest),
        _ => Ok((Content::Mark, rest)),
    }
}

/// Bytes: how many they are, and they.
#[tactic(auto, unfolding(crate::specs::OrderReading::these_at))]
fn these_of<'f>(total: usize, rest: &'f [u8]) -> Result<(Content<'f>, &'f [u8]), EvidenceFault>
    ensures { Gives (λ x. (seen_content x.0, x.1.now)) result (these_at total rest.now) }
{
    let (count, rest) = u64_of(total, rest)?;
    let (bytes, rest) = bytes_of(total, count, rest)?;
    Ok((Content::Bytes(bytes), rest))
}
