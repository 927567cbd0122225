ghost use Rattle.std.specs.Prelude.{◌≡◌};
ghost use Rattle.nvm_file.specs.Fields.{items_at};
ghost use Rattle.nvm_evidence.specs.ContradictionReading as spec;
ghost use Rattle.nvm_evidence.specs.ContradictionReading.{conclusion_at, contradiction_at, fact_at, seen_held_contradiction};
ghost use Rattle.nvm_evidence.specs.Fields.{Gives};

use crate::evidence::HeldContradiction;
use crate::evidence_fault::EvidenceFault;
use crate::fact_reading::{fact_of, two_of};
use crate::fields::{kind_of, offset_of, u32_of, u64_of};
use crate::front::{CONTRADICTION, front_of};
use nvm_standard::{Conclusion, Contradiction, Fact};
use std::alloc::Global;

/// The fewest bytes of a fact: its kind and two numbers.
const LEAST_FACT: usize = 9;

/// Reads a contradiction's file from its front.
///
/// Memory is taken for what is read, never for more than the bytes that follow could hold, whatever their numbers say. The first fault from
/// the front is answered, or `NoMemory` where a growth was refused before it. Whether the contradiction is taken of anything it doesn't say.
#[tactic(auto, unfolding(crate::specs::ContradictionReading::contradiction_at, crate::specs::Fields::counted_at))]
pub fn read_contradiction(alloc: Global, bytes: &[u8]) -> Result<HeldContradiction, EvidenceFault>
    ensures { Gives seen_held_contradiction result (contradiction_at bytes.now) }
{
    let total = bytes.len();
    let (profile, rest) = front_of(CONTRADICTION, bytes)?;
    let (conclusion, rest) = conclusion_of(total, rest)?;
    let (count, rest) = u64_of(total, rest)?;
    let (facts, rest) = facts_of(alloc, total, count, rest)?;
    if rest.len() > 0 {
        return Err(EvidenceFault::Trailing {
            at: offset_of(total, rest),
        });
    }
    let contradiction = Contradiction { facts, conclusion };
    Ok(HeldContradiction {
        profile,
        contradiction,
    })
}

/// What is absurd by the facts.
#[tactic(auto, unfolding(crate::specs::ContradictionReading::conclusion_at))]
fn conclusion_of(total: usize, from: &[u8]) -> Result<(Conclusion, &[u8]), EvidenceFault>
    ensures { Gives (λ x. (x.0, x.1.now)) result (conclusion_at total from.now) }
{
    let (kind, rest) = kind_of(total, 0, 2, from)?;
    conclusion_by(total, kind, rest)
}

/// The conclusion of this kind, 0 to 2.
fn conclusion_by(total: usize, kind: u8, rest: &[u8]) -> Result<(Conclusion, &[u8]), EvidenceFault>
    ensures { Gives (λ x. (x.0, x.1.now)) result (spec.conclusion_by total kind rest.now) }
{
    match kind {
        0 => Ok((Conclusion::Loop, rest)),
        1 => {
            let ((reader, block), rest) = two_of(total, rest)?;
            Ok((Conclusion::Nobody { reader, block }, rest))
        }
        _ => {
            let (reader, rest) = u32_of(total, rest)?;
            Ok((Conclusion::Nowhere { reader }, rest))
        }
    }
}

/// So many facts, each by those before it.
fn facts_of(
    alloc: Global,
    total: usize,
    count: u64,
    from: &[u8],
) -> Result<(Vec<Fact>, &[u8]), EvidenceFault>
    ensures { Gives (λ x. (x.0.items, x.1.now)) result (items_at (λ _. fact_at total) 0 count from.now) }
{
    let room = count.min((from.len() / LEAST_FACT) as u64);
    let mut facts = Vec::with_capacity(alloc, room as usize)?;
    let mut rest = from;
    for _ in 0..count {
        let (fact, after) = fact_of(total, rest)?;
        facts.push(fact)?;
        rest = after;
    }
    Ok((facts, rest))
}
