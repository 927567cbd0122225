//! What a done job shows of the parts that were done for it. Each law is a call that does nothing and whose contract is the law.
ghost use Rattle.std.specs.Prelude.{◌≡◌, ℕ, ◌*◌, List, length, Some};
ghost use Rattle.std.specs.List.{AllZip};
ghost use Rattle.nvm_record.specs.Lists.{IsAt};
ghost use Rattle.nvm_record.specs.Step.{Operation};
ghost use Rattle.nvm_geometry.specs.Namespace.{Namespace};
ghost use Rattle.nvm_plan.specs.declared.job.Job.{Job as PlannedJob};
ghost use Rattle.nvm_plan.specs.JobPart.{ready_operation};
ghost use Rattle.nvm_plan.specs.UnitPlace.{IsUnitPlace};
ghost use Rattle.nvm_unit.specs.declared.views.PassView.{PassView};
ghost use Rattle.nvm_space.specs.Ports.{PortState};
ghost use Rattle.nvm_space.specs.Spaces.{SpaceName};
ghost use Rattle.nvm_space.specs.Trace.{PartDone, DoesParts};
ghost use Rattle.nvm_audit.specs.LawfulRecord.{HasItsShape};
ghost use Rattle.nvm_audit.specs.Recordable.{HoldsWholeReads};
ghost use Rattle.nvm_audit.specs.RecordedJob.{RecordedJob};
ghost use Rattle.nvm_audit.specs.RecordedPart.{parts_left};
ghost use Rattle.nvm_audit.specs.RecordView.{RecordView};
ghost use Rattle.nvm_engine.specs.DoneJobs.{HasDoneJob};
ghost use Rattle.nvm_engine.specs.Gathered.{IsGathered};
ghost use Rattle.nvm_engine.specs.Inside.Shows.{Shows};

use nvm_geometry::laws::{few_units_are_regions, pieces_stand_in_line, whole_ranges_are_reached};
use nvm_plan::laws::{outcomes_have_their_shape, ready_jobs};
use nvm_record::laws::steps_keep_block_sizes;
use nvm_store::laws::lawful_replay_has_block_size;

/// The recorded parts of a done job show, one by one, the parts that were done for it by passes of the namespace's units, and
/// what is recorded of it has the shape of an outcome of its job.
pub(crate) fn parts_show_what_was_done()
    ensures shown { (ns : Namespace) (jobs : List PlannedJob) (d : RecordedJob) (old new : List PassView) (worker : ℕ)
        → HasDoneJob ns jobs d old new
        → ((k : ℕ) (view : PassView) → IsAt old k view → IsUnitPlace ns k view.bounds.place)
        → (acts : List PartDone) × DoesParts (λ unit. unit) acts old new × AllZip (Shows ns jobs) (parts_left worker d d.parts) acts }
    ensures shape { (ns : Namespace) (jobs : List PlannedJob) (d : RecordedJob) (old new : List PassView)
        → HasDoneJob ns jobs d old new → HasItsShape ns jobs d }
{
    pieces_stand_in_line();
    whole_ranges_are_reached();
    ready_jobs();
    outcomes_have_their_shape();
    steps_keep_block_sizes();
    lawful_replay_has_block_size();
}

/// The recorded data of a done Read is as long as the Read's blocks, and so is that of each Read in a gathered record.
pub(crate) fn done_reads_are_whole()
    ensures done { (ns : Namespace) (jobs : List PlannedJob) (d : RecordedJob) (old new : List PassView) (job : PlannedJob) (op : Operation)
        (bytes : List ℕ) → HasDoneJob ns jobs d old new
        → ((k : ℕ) (view : PassView) → IsAt old k view → IsUnitPlace ns k view.bounds.place)
        → IsAt jobs d.job job → ready_operation ns job ≡ Some op → d.payload ≡ Some bytes
        → length bytes ≡ op.blocks * ns.block_size }
    ensures gathered { (s : SpaceName) (ports : List PortState) (r : RecordView) → IsGathered s ports r → HoldsWholeReads r }
{
    pieces_stand_in_line();
    whole_ranges_are_reached();
    few_units_are_regions();
    ready_jobs();
    steps_keep_block_sizes();
    lawful_replay_has_block_size();
}
