//! How each file of evidence begins: its name, what kind of evidence it is, and what the device was held to.
ghost use Rattle.std.specs.Prelude.{◌≡◌};
ghost use Rattle.nvm_evidence.specs.Fields.{Gives};
ghost use Rattle.nvm_evidence.specs.FrontReading as spec;
ghost use Rattle.nvm_evidence.specs.FrontReading.{evidence_kind_at, front_at, profile_at};

use crate::evidence_fault::EvidenceFault;
use crate::fields::{kind_of, offset_of};
use nvm_standard::{Deallocated, Held, Profile};
use std::alloc::{AllocError, Global};

/// Each file of evidence begins with these bytes.
const NAME: &[u8; 4] = b"NVE1";

/// The kind of evidence that is an order.
pub(crate) const ORDER: u8 = 1;

/// The kind of evidence that is a contradiction.
pub(crate) const CONTRADICTION: u8 = 2;

/// Whether the bytes begin as those of a file of evidence.
pub fn is_evidence(bytes: &[u8]) -> bool
    ensures { result ≡ spec.is_evidence bytes.now }
{
    bytes.starts_with(NAME)
}

/// What kind of evidence the file holds behind its name, from `low` to `high`, and what comes after that.
#[tactic(auto, unfolding(crate::specs::FrontReading::evidence_kind_at))]
pub(crate) fn evidence_kind_of(
    low: u8,
    high: u8,
    bytes: &[u8],
) -> Result<(u8, &[u8]), EvidenceFault>
    ensures { Gives (λ x. (x.0, x.1.now)) result (evidence_kind_at low high bytes.now) }
{
    if !is_evidence(bytes) {
        return Err(EvidenceFault::BadName);
    }
    kind_of(bytes.len(), low, high, &bytes[NAME.len()..])
}

/// What the device was held to in a file of this kind of evidence, and what comes after that.
#[tactic(auto, unfolding(crate::specs::FrontReading::front_at))]
pub(crate) fn front_of(kind: u8, bytes: &[u8]) -> Result<(Profile, &[u8]), EvidenceFault>
    ensures { Gives (λ x. (x.0, x.1.now)) result (front_at kind bytes.now) }
{
    let (_, rest) = evidence_kind_of(kind, kind, bytes)?;
    profile_of(bytes.len(), rest)
}

/// What the device was held to.
#[tactic(auto, unfolding(crate::specs::FrontReading::profile_at))]
fn profile_of(total: usize, rest: &[u8]) -> Result<(Profile, &[u8]), EvidenceFault>
    ensures { Gives (λ x. (x.0, x.1.now)) result (profile_at total rest.now) }
{
    let (held, rest) = kind_of(total, 0, 3, rest)?;
    let (deallocated, rest) = kind_of(total, 0, 2, rest)?;
    let profile = Profile {
        held: held_by(held),
        deallocated: deallocated_by(deallocated),
    };
    Ok((profile, rest))
}

/// What Reads are held to, by its code.
fn held_by(code: u8) -> Held
    ensures { result ≡ spec.held_of code }
{
    match code {
        0 => Held::Atomic,
        1 => Held::AtomicAll,
        2 => Held::Whole,
        _ => Held::ByBlocks,
    }
}

/// What a deallocated block may read as, by its code.
fn deallocated_by(code: u8) -> Deallocated
    ensures { result ≡ spec.deallocated_of code }
{
    match code {
        0 => Deallocated::Zeroes,
        1 => Deallocated::Ones,
        _ => Deallocated::Either,
    }
}

/// How the file of this kind of evidence begins.
pub(crate) fn front_bytes(
    alloc: Global,
    kind: u8,
    profile: Profile,
) -> Result<Vec<u8>, AllocError> {
    let mut bytes = Vec::new(alloc);
    bytes.extend_from_slice(NAME)?;
    bytes.push(kind)?;
    bytes.push(held_byte(profile.held))?;
    bytes.push(deallocated_byte(profile.deallocated))?;
    Ok(bytes)
}

fn held_byte(held: Held) -> u8 {
    match held {
        Held::Atomic => 0,
        Held::AtomicAll => 1,
        Held::Whole => 2,
        Held::ByBlocks => 3,
    }
}

fn deallocated_byte(deallocated: Deallocated) -> u8 {
    match deallocated {
        Deallocated::Zeroes => 0,
        Deallocated::Ones => 1,
        Deallocated::Either => 2,
    }
}
