//! A fact: a byte for its kind, and its numbers.
ghost use Rattle.std.specs.Prelude.{◌≡◌};
ghost use Rattle.nvm_evidence.specs.ContradictionReading.{fact_at, four_at, three_at, two_at};
ghost use Rattle.nvm_evidence.specs.ContradictionReading as spec;
ghost use Rattle.nvm_evidence.specs.Fields.{Gives};

use crate::evidence_fault::EvidenceFault;
use crate::fields::{kind_of, u32_of};
use nvm_standard::{Fact, Node};

/// Two numbers.
#[tactic(auto, unfolding(crate::specs::ContradictionReading::two_at))]
pub(crate) fn two_of(total: usize, from: &[u8]) -> Result<((u32, u32), &[u8]), EvidenceFault>
    ensures { Gives (λ x. (x.0, x.1.now)) result (two_at total from.now) }
{
    let (first, rest) = u32_of(total, from)?;
    let (second, rest) = u32_of(total, rest)?;
    Ok(((first, second), rest))
}

/// Three numbers.
#[tactic(auto, unfolding(crate::specs::ContradictionReading::three_at))]
fn three_of(total: usize, from: &[u8]) -> Result<((u32, u32, u32), &[u8]), EvidenceFault>
    ensures { Gives (λ x. (x.0, x.1.now)) result (three_at total from.now) }
{
    let (first, rest) = u32_of(total, from)?;
    let ((second, third), rest) = two_of(total, rest)?;
    Ok(((first, second, third), rest))
}

/// Four numbers.
#[tactic(auto, unfolding(crate::specs::ContradictionReading::four_at))]
fn four_of(total: usize, from: &[u8]) -> Result<((u32, u32, u32, u32), &[u8]), EvidenceFault>
    ensures { Gives (λ x. (x.0, x.1.now)) result (four_at total from.now) }
{
    let (first, rest) = u32_of(total, from)?;
    let ((second, third, fourth), rest) = three_of(total, rest)?;
    Ok(((first, second, third, fourth), rest))
}

/// The next fact, and what comes after it.
#[tactic(auto, unfolding(crate::specs::ContradictionReading::fact_at))]
pub(crate) fn fact_of(total: usize, from: &[u8]) -> Result<(Fact, &[u8]), EvidenceFault>
    ensures { Gives (λ x. (x.0, x.1.now)) result (fact_at total from.now) }
{
    let (kind, rest) = kind_of(total, 0, 9, from)?;
    fact_by(total, kind, rest)
}

/// The fact of this kind, 0 to 9.
fn fact_by(total: usize, kind: u8, rest: &[u8]) -> Result<(Fact, &[u8]), EvidenceFault>
    ensures { Gives (λ x. (x.0, x.1.now)) result (spec.fact_by total kind rest.now) }
{
    match kind {
        0 => {
            let ((point, block, later_point, later_block), rest) = four_of(total, rest)?;
            let earlier = Node { point, block };
            let later = Node {
                point: later_point,
                block: later_block,
            };
            Ok((Fact::Time { earlier, later }, rest))
        }
        1 => {
            let ((deallocate, writer, block), rest) = three_of(total, rest)?;
            Ok((
                Fact::Deallocate {
                    deallocate,
                    writer,
                    block,
                },
                rest,
            ))
        }
        2 => {
            let ((later, block), rest) = two_of(total, rest)?;
            Ok((Fact::Own { later, block }, rest))
        }
        3 => {
            let ((writer, reader, block), rest) = three_of(total, rest)?;
            Ok((
                Fact::Source {
                    writer,
                    reader,
                    block,
                },
                rest,
            ))
        }
        4 => {
            let ((reader, writer, block, source), rest) = four_of(total, rest)?;
            Ok((
                Fact::Over {
                    reader,
                    writer,
                    block,
                    source,
                },
                rest,
            ))
        }
        5 => {
            let ((writer, source, block, reader), rest) = four_of(total, rest)?;
            Ok((
                Fact::Under {
                    writer,
                    source,
                    block,
                    reader,
                },
                rest,
            ))
        }
        6 => {
            let ((reader, writer, block), rest) = three_of(total, rest)?;
            Ok((
                Fact::First {
                    reader,
                    writer,
                    block,
                },
                rest,
            ))
        }
        7 => {
            let ((reader, block), rest) = two_of(total, rest)?;
            Ok((Fact::AtFirst { reader, block }, rest))
        }
        8 => {
            let ((reader, block, entry, by), rest) = four_of(total, rest)?;
            Ok((
                Fact::TiedBefore {
                    reader,
                    block,
                    entry,
                    by,
                },
                rest,
            ))
        }
        _ => {
            let ((entry, reader, block, by), rest) = four_of(total, rest)?;
            Ok((
                Fact::TiedAfter {
                    entry,
                    reader,
                    block,
                    by,
                },
                rest,
            ))
        }
    }
}
