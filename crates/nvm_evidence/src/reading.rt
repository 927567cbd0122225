ghost use Rattle.std.specs.Prelude.{◌≡◌};
ghost use Rattle.nvm_evidence.specs.EvidenceReading.{evidence_at, seen_evidence};
ghost use Rattle.nvm_evidence.specs.Fields.{Gives};

use crate::contradiction_reading::read_contradiction;
use crate::evidence::Evidence;
use crate::evidence_fault::EvidenceFault;
use crate::front::{CONTRADICTION, ORDER, evidence_kind_of};
use crate::order_reading::read_order;
use std::alloc::Global;

/// Reads a file of evidence from its front, as [`read_order`] or [`read_contradiction`] does.
#[tactic(auto, unfolding(crate::specs::EvidenceReading::evidence_at))]
pub fn read_evidence<'f>(alloc: Global, bytes: &'f [u8]) -> Result<Evidence<'f>, EvidenceFault>
    ensures { Gives seen_evidence result (evidence_at bytes.now) }
{
    let (kind, _) = evidence_kind_of(ORDER, CONTRADICTION, bytes)?;
    if kind == ORDER {
        Ok(Evidence::Order(read_order(alloc, bytes)?))
    } else {
        Ok(Evidence::Contradiction(read_contradiction(alloc, bytes)?))
    }
}
