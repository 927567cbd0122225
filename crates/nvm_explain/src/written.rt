//! Where an entry writes other data than its job.
ghost use Rattle.std.specs.Prelude.{◌≡◌, None, Some, MatchOption};
ghost use Rattle.nvm_plan.specs.LentPart.{part_operation_of};
ghost use Rattle.nvm_store.specs.Act.{operation_of};
ghost use Rattle.nvm_explain.specs.Written as spec;

use crate::difference::{Difference, difference_of};
use nvm_plan::LentPart;
use nvm_record::BlockSize;
use nvm_store::{Act, ActRef, Look};

/// The first byte that an act writes otherwise than a part, where both write the same number of blocks from one LBA.
pub(crate) fn written_apart(size: BlockSize, act: &Act, part: &LentPart<'_>) -> Option<Difference>
    ensures { result ≡ spec.written_apart size (operation_of act.now) (part_operation_of part.now) }
{
    let (first, bytes) = written_by(act)?;
    let (other, sent) = sent_by(part)?;
    if first == other {
        difference_of(first, size, bytes, sent)
    } else {
        None
    }
}

/// The first LBA of an act, and the data that it writes, if it writes any.
fn written_by(act: &Act) -> Option<(u64, &[u8])>
    ensures { MatchOption result (spec.data_written (operation_of act.now).deed ≡ None)
        (λ w. ((operation_of act.now).first ≡ w.0) × (spec.data_written (operation_of act.now).deed ≡ Some w.1.now)) }
{
    match act {
        Act::Write { first, payload, .. } => Some((*first, payload.as_slice())),
        Act::Pair { first, write, .. } => Some((*first, write.as_slice())),
        Act::Zeroes { .. } => None,
        Act::Uncorrectable { .. } => None,
        Act::Deallocate { .. } => None,
    }
}

/// The same of a part.
fn sent_by<'a>(part: &LentPart<'a>) -> Option<(u64, &'a [u8])>
    ensures { MatchOption result (spec.data_written (part_operation_of part.now).deed ≡ None)
        (λ w. ((part_operation_of part.now).first ≡ w.0) × (spec.data_written (part_operation_of part.now).deed ≡ Some w.1.now)) }
{
    match *part {
        LentPart::Act(ActRef::Write { first, payload, .. }) => Some((first, payload.as_slice())),
        LentPart::Act(ActRef::Pair { first, write, .. }) => Some((first, write.as_slice())),
        LentPart::Act(ActRef::Zeroes { .. }) => None,
        LentPart::Act(ActRef::Uncorrectable { .. }) => None,
        LentPart::Act(ActRef::Deallocate { .. }) => None,
        LentPart::Look(Look::Read { .. }) => None,
        LentPart::Look(Look::Compare { .. }) => None,
    }
}
