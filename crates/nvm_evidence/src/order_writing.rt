use crate::field_writing::{push_u32, push_u64};
use crate::front::{ORDER, front_bytes};
use nvm_standard::{Content, FirstContent, Order, Placed, Profile, Value};
use std::alloc::{AllocError, Global};

/// The bytes of the order's file, with what the device was held to. [`read_order`](crate::read_order) reads them as this order.
///
/// `AllocError` is answered where memory was refused.
pub fn write_order(
    alloc: Global,
    profile: Profile,
    order: &Order<'_>,
) -> Result<Vec<u8>, AllocError> {
    let mut bytes = front_bytes(alloc, ORDER, profile)?;
    push_firsts(&mut bytes, &order.first)?;
    push_all_placed(&mut bytes, &order.placed)?;
    Ok(bytes)
}

/// Appends what blocks held at first.
fn push_firsts(bytes: &mut Vec<u8>, firsts: &[FirstContent<'_>]) -> Result<(), AllocError> {
    push_u64(bytes, firsts.len() as u64)?;
    for first in firsts {
        push_u32(bytes, first.block)?;
        push_content(bytes, first.content)?;
    }
    Ok(())
}

/// Appends the points, in their order.
fn push_all_placed(bytes: &mut Vec<u8>, order: &[Placed<'_>]) -> Result<(), AllocError> {
    push_u64(bytes, order.len() as u64)?;
    for placed in order {
        push_u32(bytes, placed.point)?;
        push_u32(bytes, placed.first)?;
        push_u32(bytes, placed.blocks)?;
        push_value(bytes, placed.value)?;
    }
    Ok(())
}

fn push_value(bytes: &mut Vec<u8>, value: Value<'_>) -> Result<(), AllocError> {
    match value {
        Value::AsIs => Ok(bytes.push(0)?),
        Value::Put(content) => push_content(bytes, content),
    }
}

fn push_content(bytes: &mut Vec<u8>, content: Content<'_>) -> Result<(), AllocError> {
    match content {
        Content::Zeroes => Ok(bytes.push(1)?),
        Content::Ones => Ok(bytes.push(2)?),
        Content::Bytes(held) => {
            bytes.push(3)?;
            push_u64(bytes, held.len() as u64)?;
            bytes.extend_from_slice(held)
        }
        Content::Mark => Ok(bytes.push(4)?),
    }
}
