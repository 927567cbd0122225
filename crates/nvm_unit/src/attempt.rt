ghost use Rattle.std.specs.Prelude.{◌≡◌, ◌≤◌, ◌^◌, IfOk, IfSome, length};
ghost use Rattle.nvm_record.specs.Medium.{Medium};
ghost use Rattle.nvm_store.specs.Contents.{Covers, Holds};
ghost use Rattle.nvm_store.specs.ActRef.{lent_operation_of};
ghost use Rattle.nvm_store.specs.Place.{IsCovered};
ghost use Rattle.nvm_store.specs.Look.{look_operation_of};
ghost use Rattle.nvm_unit.specs.Replies.{AnswersLook};
ghost use Rattle.nvm_unit.specs.Inside.Attempt.{AnswersFrom, Attempts};

use crate::book::Book;
use crate::kept::Kept;
use crate::replies::{Changed, LookFault, ObserveFault, Observed};
use crate::snapshot::Snapshot;
use nvm_store::laws::{act_succeeds_unless_failed_pair, acts_and_looks};
use nvm_store::{ActRef, Look, UnitBlocks, answer};
use std::alloc::Global;

/// Does the act on the book, unless it is a pair whose comparison fails, the history is at its limit, or
/// memory is refused.
#[inline(always)]
pub(crate) fn attempt<K: Kept>(
    alloc: Global,
    book: &mut Book<K>,
    limit: u64,
    pass: u16,
    job: u32,
    act: ActRef<'_>,
) -> Changed
    requires covered { IsCovered book.old.place (lent_operation_of act) }
    requires within { length book.old.history ≤ limit }
    requires few { limit ≤ 2 ^ 62 }
    ensures { Attempts result limit (record { pass = pass; job = job; operation = lent_operation_of act.entry }) book.old book.new }
{
    acts_and_looks();
    act_succeeds_unless_failed_pair();
    let point = book.entries();
    let statuses = book.judge(act);
    if !statuses.is_success() {
        return Changed::Failed { point, statuses };
    }
    if point == limit {
        return Changed::Full { point };
    }
    match book.add(alloc, pass, job, act) {
        Ok(()) => Changed::Done { point },
        Err(_) => Changed::NoMemory { point },
    }
}

/// Asks the blocks, which are those at this point.
#[inline(always)]
pub(crate) fn observed(
    alloc: Global,
    point: u64,
    blocks: &UnitBlocks,
    look: Look<'_>,
) -> Result<Observed, ObserveFault>
    requires { Covers blocks.now (look_operation_of look) }
    ensures point { IfOk result (λ o. o.point ≡ point) }
    ensures answer { (m : Medium) → Holds blocks.now m → AnswersLook result point (look_operation_of look.entry) m }
{
    match answer(alloc, blocks, look) {
        Ok(answer) => Ok(Observed { point, answer }),
        Err(_) => Err(ObserveFault::NoMemory { point }),
    }
}

/// Asks the version in the snapshot, which serves only while the history has `count` entries and the snapshot has as many.
pub(crate) fn looked(
    alloc: Global,
    snapshot: &Snapshot,
    count: u64,
    look: Look<'_>,
) -> Result<Observed, LookFault>
    requires { IfSome snapshot.now.version (λ u. Covers u (look_operation_of look)) }
    ensures { AnswersFrom result count snapshot.now (look_operation_of look.entry) }
{
    if count != snapshot.entries() {
        return Err(LookFault::Newer { count });
    }
    let Some(version) = snapshot.version() else {
        return Err(LookFault::NoMemory { point: count });
    };
    match observed(alloc, count, version, look) {
        Ok(observed) => Ok(observed),
        Err(_) => Err(LookFault::NoMemory { point: count }),
    }
}
