//! What holds of records by their definition alone. Each law is a call that does nothing and whose contract is the law.

ghost use Rattle.std.specs.Prelude.{◌≡◌, ◌⊎◌, ℕ, ◌*◌, ◌<◌, ◌≤◌, List, [], ◌∷◌, All, length, Some, None, true};
ghost use Rattle.nvm_record.specs.Deeds.{IsAct, IsSingle, success_of};
ghost use Rattle.nvm_record.specs.Lists.{IsAt};
ghost use Rattle.nvm_record.specs.Step.{Operation};
ghost use Rattle.nvm_geometry.specs.Faults.{IsValid};
ghost use Rattle.nvm_geometry.specs.Namespace.{Namespace};
ghost use Rattle.nvm_geometry.specs.Parts.{units_met};
ghost use Rattle.nvm_plan.specs.declared.job.Job.{Job};
ghost use Rattle.nvm_plan.specs.declared.part.PartResult.TheVariants.{Done};
ghost use Rattle.nvm_plan.specs.Fits.{FitsNamespace};
ghost use Rattle.nvm_plan.specs.JobPart.{ready_operation, job_part_in};
ghost use Rattle.nvm_plan.specs.Reply.{Reply};
ghost use Rattle.nvm_plan.specs.Shape.{HasOutcomeShape};
ghost use Rattle.nvm_plan.specs.UnitPlace.{IsUnitPlace};
ghost use Rattle.nvm_store.specs.declared.place.Place.{Place as UnitPlace};
ghost use Rattle.nvm_store.specs.HistoryEntry.{HistoryEntry};
ghost use Rattle.nvm_store.specs.Point.{RestsOn};
ghost use Rattle.nvm_audit.specs.declared.audit_fault.AuditFault.{AuditFault};
ghost use Rattle.nvm_audit.specs.declared.audit_fault.AuditFault.TheVariants.{NoMemory};
ghost use Rattle.nvm_audit.specs.declared.record.TheConstants as named;
ghost use Rattle.nvm_audit.specs.declared.version.Version.{Version as FileVersion};
ghost use Rattle.nvm_audit.specs.DoneJobs.{AreDone, IsDoneJob};
ghost use Rattle.nvm_audit.specs.LawfulRecord.{HaveShapes, IsLawfulRecord};
ghost use Rattle.nvm_audit.specs.NamedUnit.{names_unit};
ghost use Rattle.nvm_audit.specs.OneAct.{entry_alone, IsOfOneAct, HasJust};
ghost use Rattle.nvm_audit.specs.OneThreadRun.{IsOneThreadRun};
ghost use Rattle.nvm_audit.specs.Recordable.{most_jobs, HoldsLimit, HoldsBody, IsRecordable, IsRecordableJob, IsRecordableEntry, IsRecordableDone};
ghost use Rattle.nvm_audit.specs.RecordChecks.{HasNoFault, IsFirstFault};
ghost use Rattle.nvm_audit.specs.RecordedJob.{RecordedJob};
ghost use Rattle.nvm_audit.specs.RecordedPart.{RecordedPart, parts_in_unit};
ghost use Rattle.nvm_audit.specs.RecordView.{RecordView};
ghost use Rattle.nvm_audit.specs.ReplyAtPoint.{AreRepliesOf};

use nvm_geometry::laws::{
    each_unit_has_one_place, parts_keep_their_kind, pieces_stand_in_line,
    units_met_are_those_reached, whole_ranges_are_reached,
};
use nvm_plan::laws::{
    answers_of_the_step_are_replies, each_command_has_a_status, outcomes_by_plan, parts_of_jobs,
    ready_jobs, shapes_by_plan,
};
use nvm_store::laws::{
    placed_runs_are_runs, placed_runs_keep_order, single_act_succeeds, there_is_a_placed_run,
};

/// [`MOST_JOBS`](crate::MOST_JOBS) is the most jobs that a record has.
pub fn most_jobs_have_their_number()
    ensures { named.MOST_JOBS ≡ most_jobs }
{}

/// What is made of the jobs of a record can be held in it: the part of a job in a unit, as an entry of that unit, and what has
/// the shape of a job's outcome, with the bytes of a Read's blocks, as a done job.
pub fn what_jobs_make_can_be_held()
    ensures entries { (r : RecordView) (job : Job) (unit : ℕ) (place : UnitPlace) (entry : HistoryEntry)
        → IsValid r.namespace → IsAt r.jobs entry.job job → IsRecordableJob r job
        → job_part_in r.namespace job unit ≡ Some entry.operation → IsAct entry.operation.deed → entry.pass < r.workers
        → IsUnitPlace r.namespace unit place → IsRecordableEntry r place entry }
    ensures done { (r : RecordView) (job : Job) (d : RecordedJob) → IsAt r.jobs d.job job
        → HasOutcomeShape r.namespace job d.parts d.statuses d.payload
        → ((op : Operation) (bytes : List ℕ) → ready_operation r.namespace job ≡ Some op → d.payload ≡ Some bytes
        → length bytes ≡ op.blocks * r.namespace.block_size)
        → IsRecordableDone r d }
{
    parts_of_jobs();
    parts_keep_their_kind();
    ready_jobs();
    units_met_are_those_reached();
    each_unit_has_one_place();
    each_command_has_a_status();
}

/// A lawful record can be held in a file of its version that has room for its limit, has its commands, and holds as many jobs as it has.
pub fn lawful_records_can_be_held()
    ensures { (r : RecordView) → IsLawfulRecord r → HoldsLimit r.version r.limit
        → All (λ job. HoldsBody r.version job.body) r.jobs → length r.jobs ≤ most_jobs → IsRecordable r }
{
    parts_of_jobs();
    parts_keep_their_kind();
    ready_jobs();
    units_met_are_those_reached();
    each_unit_has_one_place();
    each_command_has_a_status();
}

/// In a lawful record a part that was done rests on its point: it is the job's part in the unit, and succeeds there.
pub fn done_parts_rest_on_their_points()
    ensures { (r : RecordView) (unit k : ℕ) (history : List HistoryEntry) (p : RecordedPart) → IsLawfulRecord r
        → IsAt r.units unit history → IsAt (parts_in_unit unit r.done) k p → p.part.result ≡ Done
        → (job : Job) × (op : Operation) × IsAt r.jobs p.done.job job × (job_part_in r.namespace job unit ≡ Some op)
        × RestsOn r.namespace.block_size history p.part.point op (success_of op.deed) None }
{}

/// A record without jobs is lawful: nothing can have been done in it.
pub fn no_jobs_are_lawful()
    ensures { (r : RecordView) → IsRecordable r → r.jobs ≡ [] → IsLawfulRecord r }
{}

/// A record of one command that changes blocks of one unit is lawful with its entry, and not without it.
pub fn one_act_is_lawful_with_its_entry()
    ensures lawful { (r : RecordView) (op : Operation) (unit : ℕ) → IsRecordable r → IsOfOneAct r op unit
        → HasJust r unit (entry_alone r.namespace op unit ∷ []) → IsLawfulRecord r }
    ensures left_out { (r : RecordView) (op : Operation) (unit : ℕ) → IsRecordable r → IsOfOneAct r op unit
        → HasJust r unit [] → ¬ IsLawfulRecord r }
{
    parts_keep_their_kind();
    parts_of_jobs();
    shapes_by_plan();
    single_act_succeeds();
}

/// There are such records, of each such command: one with the entry, and one without it.
pub fn one_act_can_be_held()
    ensures with_entry { (version : FileVersion) (ns : Namespace) (limit : ℕ) (job : Job) (op : Operation) (unit : ℕ)
        → IsValid ns → HoldsLimit version limit → FitsNamespace ns job → HoldsBody version job.body
        → ready_operation ns job ≡ Some op → IsAct op.deed → IsSingle op.deed → units_met ns op ≡ unit ∷ []
        → (r : RecordView) × (r.namespace ≡ ns) × IsRecordable r × IsOfOneAct r op unit
        × HasJust r unit (entry_alone ns op unit ∷ []) }
    ensures without { (version : FileVersion) (ns : Namespace) (limit : ℕ) (job : Job) (op : Operation) (unit : ℕ)
        → IsValid ns → HoldsLimit version limit → FitsNamespace ns job → HoldsBody version job.body
        → ready_operation ns job ≡ Some op → IsAct op.deed → IsSingle op.deed → units_met ns op ≡ unit ∷ []
        → (r : RecordView) × (r.namespace ≡ ns) × IsRecordable r × IsOfOneAct r op unit × HasJust r unit [] }
{
    parts_of_jobs();
    parts_keep_their_kind();
    shapes_by_plan();
    ready_jobs();
    units_met_are_those_reached();
    each_unit_has_one_place();
    each_command_has_a_status();
}

/// Each unit of a lawful record is a one-thread block store: there is a placed run of it, which is its entries in order and
/// between them, at its point, each part that looked or whose pair failed, with each worker's parts in the worker's order; and
/// that is a run of the step from zero bytes, in which every entry succeeds and each part has the answer that it got.
pub fn lawful_units_are_runs()
    ensures { (r : RecordView) → IsLawfulRecord r → IsOneThreadRun r }
{
    parts_keep_their_kind();
    parts_of_jobs();
    shapes_by_plan();
    there_is_a_placed_run();
    placed_runs_are_runs();
    placed_runs_keep_order();
}

/// A record that can be held is lawful exactly where nothing that is looked for in it is wrong.
pub fn no_check_fails_for_lawful_records()
    ensures lawful { (r : RecordView) → IsRecordable r → HasNoFault r → IsLawfulRecord r }
    ensures passes { (r : RecordView) → IsLawfulRecord r → HasNoFault r }
{}

/// Each record that can be held is lawful or has a first fault. It hasn't both, and no two of these; and want of memory is
/// the fault of no record.
pub fn one_check_is_the_first_fault()
    ensures either { (r : RecordView) → IsRecordable r
        → IsLawfulRecord r ⊎ ((fault : AuditFault) × IsFirstFault r fault) }
    ensures one { (r : RecordView) (fault other : AuditFault) → IsFirstFault r fault → IsFirstFault r other
        → fault ≡ other }
    ensures none { (r : RecordView) (fault : AuditFault) → IsLawfulRecord r → ¬ (IsFirstFault r fault) }
    ensures memory { (r : RecordView) → ¬ (IsFirstFault r NoMemory) }
{}

/// Where an audit answers a fault that names a unit, or a verdict, each done job has its shape: what `unit_fault` asks.
pub fn faults_of_units_come_after_shapes()
    ensures named { (r : RecordView) (fault : AuditFault) → IsRecordable r → IsFirstFault r fault ⊎ (fault ≡ NoMemory)
        → names_unit fault ≡ true → HaveShapes r }
    ensures lawful { (r : RecordView) → IsLawfulRecord r → HaveShapes r }
{}

/// In a lawful record no worker did more jobs than there are.
pub fn each_worker_did_few_jobs()
    ensures { (r : RecordView) (worker : ℕ) (work : List RecordedJob) → IsLawfulRecord r → IsAt r.done worker work
        → length work ≤ length r.jobs }
{}

/// In a lawful record, what is recorded of a done job is its outcome: of the replies to its parts, each of them what its unit's
/// step gives at the part's point, the statuses follow, and a Read's data is theirs joined.
pub fn done_jobs_are_outcomes()
    ensures { (r : RecordView) (worker k : ℕ) (work : List RecordedJob) (d : RecordedJob) → IsLawfulRecord r
        → IsAt r.done worker work → IsAt work k d
        → (replies : List Reply) × AreRepliesOf r d replies }
{
    answers_of_the_step_are_replies();
    each_command_has_a_status();
    outcomes_by_plan();
    parts_keep_their_kind();
    pieces_stand_in_line();
    ready_jobs();
    units_met_are_those_reached();
    whole_ranges_are_reached();
}

/// In a lawful record each job has one done job, and no other.
pub fn each_job_has_one_done_job()
    ensures some { (r : RecordView) (number : ℕ) → IsLawfulRecord r → number < length r.jobs
        → (its : RecordedJob) × IsDoneJob r.done number its }
    ensures alone { (r : RecordView) (number : ℕ) (its other : RecordedJob) → IsLawfulRecord r → IsDoneJob r.done number its
        → IsDoneJob r.done number other → its ≡ other }
{}

/// The done jobs of a lawful record, in the order of its jobs, are one list, and no other.
pub fn done_jobs_are_one_list()
    ensures some { (r : RecordView) → IsLawfulRecord r → (its : List RecordedJob) × AreDone r.done 0 r.jobs its }
    ensures alone { (r : RecordView) (its other : List RecordedJob) → IsLawfulRecord r → AreDone r.done 0 r.jobs its
        → AreDone r.done 0 r.jobs other → its ≡ other }
{}
