ghost use Rattle.std.specs.Prelude.{◌≡◌, ◌↔◌, true, IsSome, Some, IsTrue};
ghost use Rattle.nvm_record.specs.Deeds.{IsAct};
ghost use Rattle.nvm_record.specs.Medium.{Medium};
ghost use Rattle.nvm_record.specs.Status.{IsSuccess};
ghost use Rattle.nvm_record.specs.Step.{statuses_of};
ghost use Rattle.nvm_plan.specs.Fits.{FitsNamespace};
ghost use Rattle.nvm_plan.specs.JobPart as spec;
ghost use Rattle.nvm_plan.specs.LentPart.{part_operation_of};
ghost use Rattle.nvm_plan.specs.UnitPlace.{IsUnitPlace};
ghost use Rattle.nvm_store.specs.ActRef.{lent_operation_of};
ghost use Rattle.nvm_store.specs.Contents.{Holds, Covers, place_of};

use nvm_geometry::Geometry;
use nvm_plan::{Job, LentPart, job_part_in, job_part_there};
use nvm_store::laws::acts_and_looks;
use nvm_store::{ActRef, Entry, UnitBlocks, judge};

/// Whether the act is the entry's, and succeeds on these blocks.
fn act_is_right(act: ActRef<'_>, entry: &Entry, blocks: &UnitBlocks) -> bool
    requires { Covers blocks.now (lent_operation_of act) }
    ensures { (m : Medium) → Holds blocks.now m → IsTrue result
        ↔ ((lent_operation_of act.entry ≡ entry.now.operation) × IsSuccess (statuses_of entry.now.operation m)) }
{
    act.is(&entry.act) && judge(blocks, act).is_success()
}

/// Whether the part is the entry's act, and succeeds on these blocks.
#[inline(always)]
fn part_is_right(part: LentPart<'_>, entry: &Entry, blocks: &UnitBlocks) -> bool
    requires act { IsAct entry.now.operation.deed }
    requires covers { Covers blocks.now (part_operation_of part) }
    ensures { (m : Medium) → Holds blocks.now m → IsTrue result
        ↔ ((part_operation_of part.entry ≡ entry.now.operation) × IsSuccess (statuses_of entry.now.operation m)) }
{
    acts_and_looks();
    match part {
        LentPart::Act(act) => act_is_right(act, entry, blocks),
        LentPart::Look(_) => false,
    }
}

/// Whether the entry is this job's part in the unit, and succeeds on these blocks of the unit. Where some part claims it,
/// the job is known to have one there.
pub(crate) fn entry_is_right(
    geometry: &Geometry,
    job: &Job,
    unit: u16,
    is_claimed: bool,
    entry: &Entry,
    blocks: &UnitBlocks,
) -> bool
    requires fits { FitsNamespace geometry.now job.now }
    requires act { IsAct entry.now.operation.deed }
    requires there { is_claimed ≡ true → IsSome (spec.job_part_in geometry.now job.now unit) }
    requires lies { IsUnitPlace geometry.now unit (place_of blocks.now) }
    ensures { (m : Medium) → Holds blocks.now m → IsTrue result
        ↔ ((spec.job_part_in geometry.now job.now unit ≡ Some entry.now.operation)
        × IsSuccess (statuses_of entry.now.operation m)) }
{
    if is_claimed {
        return part_is_right(job_part_there(geometry, job, unit), entry, blocks);
    }
    match job_part_in(geometry, job, unit) {
        Some(part) => part_is_right(part, entry, blocks),
        None => false,
    }
}
