ghost use Rattle.std.specs.Prelude.{◌≡◌, ◌≢◌, ◌↔◌, ◌≤◌, ◌⊎◌, ◌++◌, ℕ, List, All, map, Some, IfSome, IsTrue, MatchOption};
ghost use Rattle.nvm_plan.specs.declared.part.PartResult.TheVariants.{Done};
ghost use Rattle.nvm_audit.specs.RecordedJob.{RecordedJob};
ghost use Rattle.nvm_trace.specs.Agreement.{AgreesWith, HasReply};
ghost use Rattle.nvm_trace.specs.FirstFault.{IsFirstWithout};
ghost use Rattle.nvm_trace.specs.Inside.Replies.{Agrees, IsLeastWrong, HasReplyAt};
ghost use Rattle.nvm_trace.specs.Pieces.{piece, data_at};

use crate::cut::Cut;
use crate::owner::Owner;
use crate::pieces::block_data;
use crate::saying::{says_nothing_was_written, says_what_was_done};
use crate::traced_job::Ending;
use nvm_audit::DoneJob;
use nvm_geometry::Geometry;
use nvm_plan::{Part, PartResult};
use nvm_record::{BlockSize, ReadData};

/// Whether none of the parts made an entry.
fn made_no_entry(parts: &[Part]) -> bool
    ensures { IsTrue result ↔ All (λ part. part.result ≢ Done) parts.now }
{
    for part in parts {
        if part.result == PartResult::Done {
            return false;
        }
    }
    true
}

/// Whether the data that was found is that of the piece in what came back.
fn has_data(size: BlockSize, cut: Cut, found: &Option<ReadData>, told: &Option<ReadData>) -> bool
    ensures { IsTrue result ↔ (found.now ≡ data_at size cut told.now) }
{
    match cut {
        Cut::Whole | Cut::InUnit(_) => found == told,
        Cut::Block(k) => match (found, told) {
            (Some(found), Some(told)) => found.as_slice() == block_data(told.as_slice(), size, k),
            (None, None) => true,
            _ => false,
        },
    }
}

/// Whether the piece is recorded with this reply.
fn has_reply(geometry: &Geometry, owner: &Owner<'_>, done: &DoneJob, ending: &Ending) -> bool
    ensures { IsTrue result ↔ HasReply geometry.now (piece owner.now.whole.now owner.now.cut) done.now ending.now }
{
    done.statuses == ending.statuses
        && has_data(
            geometry.block_size(),
            owner.cut,
            &done.payload,
            &ending.payload,
        )
}

/// Whether what was recorded of a piece agrees with its reply.
fn agrees(geometry: &Geometry, owner: &Owner<'_>, done: &DoneJob) -> bool
    ensures { IsTrue result ↔ AgreesWith geometry.now (piece owner.now.whole.now owner.now.cut) done.now }
{
    if says_nothing_was_written(owner.whole) && !made_no_entry(done.parts.as_slice()) {
        return false;
    }
    match &owner.whole.ended {
        Some(ending) => {
            !says_what_was_done(geometry, owner.whole) || has_reply(geometry, owner, done, ending)
        }
        None => true,
    }
}

/// The least of these numbers, of which one may be missing.
fn least_of(least: Option<u32>, number: u32) -> u32
    ensures below { result ≤ number }
    ensures before { IfSome least (λ n. result ≤ n) }
    ensures one { (result ≡ number) ⊎ (least ≡ Some result) }
{
    match least {
        Some(before) => before.min(number),
        None => number,
    }
}

/// The least number of a job whose recorded outcome doesn't agree with its reply, where `least` is that of the jobs before.
fn least_in_work(
    geometry: &Geometry,
    owners: &Vec<Owner<'_>>,
    work: &Vec<DoneJob>,
    least: Option<u32>,
) -> Option<u32>
    ensures { (seen : List RecordedJob) → IsLeastWrong geometry.now (map (λ o. piece o.whole.now o.cut) owners.now.items) seen least
        → IsLeastWrong geometry.now (map (λ o. piece o.whole.now o.cut) owners.now.items) (seen ++ work.now.items) result }
{
    let mut least = least;
    for k in 0..work.len() {
        let done = &work[k];
        if !agrees_if_traced(geometry, owners, done) {
            least = Some(least_of(least, done.job));
        }
    }
    least
}

/// Whether what was recorded of a job agrees with its reply, if it has one.
fn agrees_if_traced(geometry: &Geometry, owners: &Vec<Owner<'_>>, done: &DoneJob) -> bool
    ensures { IsTrue result ↔ Agrees geometry.now (map (λ o. piece o.whole.now o.cut) owners.now.items) done.now }
{
    let number = done.job as usize;
    number >= owners.len() || agrees(geometry, &owners[number], done)
}

/// The least number of a job whose recorded outcome doesn't agree with its reply.
pub(crate) fn first_differing(
    geometry: &Geometry,
    owners: &Vec<Owner<'_>>,
    done: &Vec<Vec<DoneJob>>,
) -> Option<u32>
    ensures { MatchOption result
        ((number : ℕ) → HasReplyAt geometry.now (map (λ o. piece o.whole.now o.cut) owners.now.items) (map (λ work. work.items) done.now.items) number)
        (IsFirstWithout (HasReplyAt geometry.now (map (λ o. piece o.whole.now o.cut) owners.now.items) (map (λ work. work.items) done.now.items))) }
{
    let mut least = None;
    for worker in 0..done.len() {
        least = least_in_work(geometry, owners, &done[worker], least);
    }
    least
}
