use crate::field_writing::{push_u32, push_u64};
use crate::front::{CONTRADICTION, front_bytes};
use nvm_standard::{Conclusion, Contradiction, Fact, Profile};
use std::alloc::{AllocError, Global};

/// The bytes of the contradiction's file, with what the device was held to. [`read_contradiction`](crate::read_contradiction) reads them as
/// this contradiction.
///
/// `AllocError` is answered where memory was refused.
pub fn write_contradiction(
    alloc: Global,
    profile: Profile,
    contradiction: &Contradiction,
) -> Result<Vec<u8>, AllocError> {
    let mut bytes = front_bytes(alloc, CONTRADICTION, profile)?;
    push_conclusion(&mut bytes, contradiction.conclusion)?;
    push_u64(&mut bytes, contradiction.facts.len() as u64)?;
    for fact in &contradiction.facts {
        push_fact(&mut bytes, *fact)?;
    }
    Ok(bytes)
}

/// Appends what is absurd by the facts.
fn push_conclusion(bytes: &mut Vec<u8>, conclusion: Conclusion) -> Result<(), AllocError> {
    match conclusion {
        Conclusion::Loop => push_numbers(bytes, 0, &[]),
        Conclusion::Nobody { reader, block } => push_numbers(bytes, 1, &[reader, block]),
        Conclusion::Nowhere { reader } => push_numbers(bytes, 2, &[reader]),
    }
}

/// Appends a fact.
fn push_fact(bytes: &mut Vec<u8>, fact: Fact) -> Result<(), AllocError> {
    match fact {
        Fact::Time { earlier, later } => push_numbers(
            bytes,
            0,
            &[earlier.point, earlier.block, later.point, later.block],
        ),
        Fact::Deallocate {
            deallocate,
            writer,
            block,
        } => push_numbers(bytes, 1, &[deallocate, writer, block]),
        Fact::Own { later, block } => push_numbers(bytes, 2, &[later, block]),
        Fact::Source {
            writer,
            reader,
            block,
        } => push_numbers(bytes, 3, &[writer, reader, block]),
        Fact::Over {
            reader,
            writer,
            block,
            source,
        } => push_numbers(bytes, 4, &[reader, writer, block, source]),
        Fact::Under {
            writer,
            source,
            block,
            reader,
        } => push_numbers(bytes, 5, &[writer, source, block, reader]),
        Fact::First {
            reader,
            writer,
            block,
        } => push_numbers(bytes, 6, &[reader, writer, block]),
        Fact::AtFirst { reader, block } => push_numbers(bytes, 7, &[reader, block]),
        Fact::TiedBefore {
            reader,
            block,
            entry,
            by,
        } => push_numbers(bytes, 8, &[reader, block, entry, by]),
        Fact::TiedAfter {
            entry,
            reader,
            block,
            by,
        } => push_numbers(bytes, 9, &[entry, reader, block, by]),
    }
}

/// Appends what kind it is, and its numbers.
fn push_numbers(bytes: &mut Vec<u8>, kind: u8, numbers: &[u32]) -> Result<(), AllocError> {
    bytes.push(kind)?;
    for number in numbers {
        push_u32(bytes, *number)?;
    }
    Ok(())
}
