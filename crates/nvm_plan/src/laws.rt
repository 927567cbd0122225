//! What holds of plans and outcomes by their definitions alone. Each law is a call that does nothing and
//! whose contract is the law.

ghost use Rattle.std.specs.Prelude.{◌≡◌, ◌≢◌, ◌⊎◌, ◌↔◌, ◌*◌, ◌+◌, ◌<◌, ◌≤◌, ℕ, List, [], ◌∷◌, ◌++◌, Contains, map, Option, None, Some, unwrap_or, IsSome, IsTrue, false};
ghost use Rattle.nvm_record.specs.declared.status.Statuses.{Statuses};
ghost use Rattle.nvm_record.specs.declared.status.Statuses.TheVariants.{One};
ghost use Rattle.nvm_record.specs.declared.lba_range.LbaRange.{LbaRange};
ghost use Rattle.nvm_record.specs.Medium.{Medium};
ghost use Rattle.nvm_record.specs.Ranges.{ranges_have};
ghost use Rattle.nvm_record.specs.Deeds.{is_read, IsLook, IsAct, IsPair, IsOnRange, IsFailedPair, success_of};
ghost use Rattle.nvm_record.specs.Status.{IsSuccess, successful_completion};
ghost use Rattle.nvm_record.specs.Step.{Deed, deallocates, HasData, Operation, statuses_of};
ghost use Rattle.nvm_geometry.specs.Namespace.{Namespace};
ghost use Rattle.nvm_geometry.specs.Boundaries.{unit_number, units_of};
ghost use Rattle.nvm_geometry.specs.Deallocation.{deallocation, EndInNamespace};
ghost use Rattle.nvm_geometry.specs.Limits.{IsWithinPairLimit};
ghost use Rattle.nvm_geometry.specs.Parts.{part_in, units_met};
ghost use Rattle.nvm_store.specs.declared.place.Place.{Place as UnitPlace};
ghost use Rattle.nvm_store.specs.Place.{IsCovered};
ghost use Rattle.nvm_plan.specs.UnitPlace.{IsUnitPlace};
ghost use Rattle.nvm_plan.specs.declared.job.Job.{Job};
ghost use Rattle.nvm_plan.specs.declared.part.Part.{Part};
ghost use Rattle.nvm_plan.specs.declared.part.PartResult.TheVariants.{Done, Failed, Looked, NoMemory, Full};
ghost use Rattle.nvm_plan.specs.Checks.{exceeds_pair_limit, refusal_of};
ghost use Rattle.nvm_plan.specs.Fits.{FitsNamespace};
ghost use Rattle.nvm_plan.specs.JobPart.{job_units, job_part_in};
ghost use Rattle.nvm_plan.specs.Operation.{job_operation_of};
ghost use Rattle.nvm_plan.specs.Outcome.{answered, data_told, unstarted_of, AreDone, IsOutcomeOf, IsRefused, IsOutcome};
ghost use Rattle.nvm_plan.specs.Ready.{IsReady};
ghost use Rattle.nvm_plan.specs.Reply.{Reply, reply_on, reply_of_stop, IsReplyTo, IsSuccessfulReply};
ghost use Rattle.nvm_plan.specs.Shape.{HasShapeOf, HasShapeOfRefusal, HasOutcomeShape, IsForEach};

use nvm_geometry::laws;

/// The last check of a pair applies exactly where a pair of the range isn't within the advertised limits.
pub fn pair_limit_is_the_last_check()
    ensures kept { (ns : Namespace) (slba blocks : ℕ) → IsWithinPairLimit ns slba blocks
        → exceeds_pair_limit ns slba blocks ≡ false }
    ensures within { (ns : Namespace) (slba blocks : ℕ) → exceeds_pair_limit ns slba blocks ≡ false
        → IsWithinPairLimit ns slba blocks }
{
    laws::sharing_is_one_number();
}

/// The jobs to which no check applies are those that are ready, and each stands for an operation in the
/// namespace. One on a range has a block, so it has a part; that of a pair has exactly one. The ranges of a Deallocate
/// lie in the namespace, which is its operation's range.
#[tactic(auto, unfolding(crate::specs::Checks::refusal_of))]
pub fn ready_jobs()
    ensures ready { (ns : Namespace) (job : Job) → refusal_of ns job ≡ None → IsReady ns job }
    ensures unrefused { (ns : Namespace) (job : Job) → IsReady ns job → refusal_of ns job ≡ None }
    ensures operation { (ns : Namespace) (job : Job) → refusal_of ns job ≡ None → IsSome (job_operation_of ns job) }
    ensures range { (ns : Namespace) (job : Job) (op : Operation) → refusal_of ns job ≡ None
        → job_operation_of ns job ≡ Some op → op.first + op.blocks ≤ ns.nsze }
    ensures some { (ns : Namespace) (job : Job) (op : Operation) → refusal_of ns job ≡ None
        → job_operation_of ns job ≡ Some op → IsOnRange op.deed ⊎ (0 < ns.nsze) → 0 < op.blocks }
    ensures units { (ns : Namespace) (job : Job) (op : Operation) → refusal_of ns job ≡ None
        → job_operation_of ns job ≡ Some op → IsOnRange op.deed → units_met ns op ≢ [] }
    ensures pair { (ns : Namespace) (job : Job) (op : Operation) → refusal_of ns job ≡ None
        → job_operation_of ns job ≡ Some op → IsPair op.deed
        → units_met ns op ≡ unit_number ns op.first ∷ [] }
    ensures ranges { (ns : Namespace) (job : Job) (op : Operation) (ranges : List LbaRange) → refusal_of ns job ≡ None
        → job_operation_of ns job ≡ Some op → op.deed ≡ deallocates ranges
        → (op ≡ deallocation ns ranges) × EndInNamespace ns ranges }
{
    laws::sharing_is_one_number();
    laws::whole_ranges_are_reached();
    laws::units_met_are_those_reached();
    laws::one_unit_is_one_part();
}

/// The operation of a job that fits has exactly the data of its blocks.
pub fn jobs_that_fit_have_their_data()
    ensures { (ns : Namespace) (job : Job) (op : Operation) → FitsNamespace ns job
        → refusal_of ns job ≡ None → job_operation_of ns job ≡ Some op
        → HasData (op.blocks * ns.block_size) op.deed }
{
    ready_jobs();
}

/// A job has a part in exactly the units that its operation meets, all of them units of the namespace, and that part is
/// its operation's. Those of a Deallocate are the units in which one of its ranges has an LBA, however many ranges have
/// one there. A job that a check refuses has no part. The part of a job that fits lies in its unit, has a block, and
/// has exactly its data, or its ranges lie there.
pub fn parts_of_jobs()
    ensures part { (ns : Namespace) (job : Job) (op : Operation) (unit : ℕ) → refusal_of ns job ≡ None
        → job_operation_of ns job ≡ Some op → Contains (units_met ns op) unit
        → job_part_in ns job unit ≡ Some (part_in ns op unit) }
    ensures known { (ns : Namespace) (job : Job) (unit : ℕ) (part : Operation) → job_part_in ns job unit ≡ Some part
        → (refusal_of ns job ≡ None) × (op : Operation) × (job_operation_of ns job ≡ Some op)
        × Contains (units_met ns op) unit × (part ≡ part_in ns op unit) }
    ensures units { (ns : Namespace) (job : Job) (op : Operation) → refusal_of ns job ≡ None
        → job_operation_of ns job ≡ Some op → job_units ns job ≡ units_met ns op }
    ensures deallocated { (ns : Namespace) (job : Job) (op : Operation) (ranges : List LbaRange) (unit : ℕ)
        → refusal_of ns job ≡ None → job_operation_of ns job ≡ Some op → op.deed ≡ deallocates ranges
        → Contains (job_units ns job) unit
        ↔ ((lba : ℕ) × IsTrue (ranges_have ranges lba) × (unit_number ns lba ≡ unit)) }
    ensures inside { (ns : Namespace) (job : Job) (unit : ℕ) → Contains (job_units ns job) unit → unit < units_of ns }
    ensures refused { (ns : Namespace) (job : Job) (refusal : Statuses) (unit : ℕ) → refusal_of ns job ≡ Some refusal
        → (job_units ns job ≡ []) × (job_part_in ns job unit ≡ None) }
    ensures covered { (ns : Namespace) (job : Job) (unit : ℕ) (place : UnitPlace) (part : Operation)
        → FitsNamespace ns job → job_part_in ns job unit ≡ Some part → IsUnitPlace ns unit place
        → IsCovered place part }
{
    laws::parts_lie_in_their_units();
    laws::units_met_are_those_reached();
    laws::ranges_meet_their_units();
    ready_jobs();
    jobs_that_fit_have_their_data();
}

/// The outcome of a job that isn't refused is that of its operation. Nothing is done of a refused one.
pub fn outcomes_by_plan()
    ensures ready { (ns : Namespace) (job : Job) (op : Operation) (replies : List Reply) (told : Statuses)
        (read : Option (List ℕ)) → refusal_of ns job ≡ None → job_operation_of ns job ≡ Some op
        → IsOutcome ns job replies told read ↔ IsOutcomeOf ns op replies told read }
    ensures refused { (ns : Namespace) (job : Job) (refusal : Statuses) (replies : List Reply) (told : Statuses)
        (read : Option (List ℕ)) → refusal_of ns job ≡ Some refusal
        → IsOutcome ns job replies told read ↔ IsRefused refusal replies told read }
{}

/// What is recorded of a job has the shape of an outcome where it has that of its operation's, or of its
/// refusal.
pub fn shapes_by_plan()
    ensures ready { (ns : Namespace) (job : Job) (op : Operation) (parts : List Part) (told : Statuses)
        (read : Option (List ℕ)) → refusal_of ns job ≡ None → job_operation_of ns job ≡ Some op
        → HasOutcomeShape ns job parts told read ↔ HasShapeOf ns op parts told read }
    ensures refused { (ns : Namespace) (job : Job) (refusal : Statuses) (parts : List Part) (told : Statuses)
        (read : Option (List ℕ)) → refusal_of ns job ≡ Some refusal
        → HasOutcomeShape ns job parts told read ↔ HasShapeOfRefusal refusal parts told read }
{}

/// What the step reports about a part is a reply to it, and so is what is reported where memory was refused or the
/// unit was full.
pub fn answers_of_the_step_are_replies()
    ensures looked { (ns : Namespace) (op : Operation) (m : Medium) (part : Part) → IsLook op.deed
        → part.result ≡ Looked → IsReplyTo op.deed (reply_on ns op m part) }
    ensures done { (ns : Namespace) (op : Operation) (m : Medium) (part : Part) → IsAct op.deed
        → part.result ≡ Done → IsSuccess (statuses_of (part_in ns op part.unit) m)
        → IsReplyTo op.deed (reply_on ns op m part) }
    ensures failed { (ns : Namespace) (op : Operation) (m : Medium) (part : Part) → part.result ≡ Failed
        → IsFailedPair (part_in ns op part.unit) m → IsReplyTo op.deed (reply_on ns op m part) }
    ensures no_memory { (deed : Deed) (part : Part) → part.result ≡ NoMemory
        → IsReplyTo deed (reply_of_stop deed part) }
    ensures full { (deed : Deed) (part : Part) → IsAct deed → part.result ≡ Full
        → IsReplyTo deed (reply_of_stop deed part) }
{}

/// An outcome is made part by part: one more part that succeeds leaves those after it, one that doesn't
/// ends the job, and the job has succeeded when no part is left.
pub fn outcomes_are_made_part_by_part()
    ensures begun { (ns : Namespace) (op : Operation) → AreDone ns op [] (units_met ns op) }
    ensures more { (ns : Namespace) (op : Operation) (replies : List Reply) (r : Reply) (left : List ℕ)
        → AreDone ns op replies (r.part.unit ∷ left) → IsSuccessfulReply op.deed r
        → AreDone ns op (replies ++ r ∷ []) left }
    ensures payload { (replies : List Reply) (r : Reply)
        → data_told (replies ++ r ∷ []) ≡ data_told replies ++ unwrap_or r.payload [] }
    ensures whole { (ns : Namespace) (op : Operation) (replies : List Reply) → AreDone ns op replies []
        → IsOutcomeOf ns op replies (success_of op.deed) (answered op.deed (data_told replies)) }
    ensures stopped { (ns : Namespace) (op : Operation) (replies : List Reply) (r : Reply) (left : List ℕ)
        → AreDone ns op replies (r.part.unit ∷ left) → IsReplyTo op.deed r → ¬ (IsSuccess r.statuses)
        → IsOutcomeOf ns op (replies ++ r ∷ []) r.statuses None }
    ensures unstarted { (ns : Namespace) (op : Operation) → units_met ns op ≢ []
        → IsOutcomeOf ns op [] (unstarted_of op.deed) None }
{}

/// The replies to a job's parts fix what is reported to its host.
pub fn replies_fix_the_outcome()
    ensures statuses { (ns : Namespace) (job : Job) (replies : List Reply) (told other : Statuses)
        (read also : Option (List ℕ))
        → IsOutcome ns job replies told read → IsOutcome ns job replies other also → told ≡ other }
    ensures payload { (ns : Namespace) (job : Job) (replies : List Reply) (told other : Statuses)
        (read also : Option (List ℕ))
        → IsOutcome ns job replies told read → IsOutcome ns job replies other also → read ≡ also }
{}

/// What is recorded of an outcome has the shape of one.
pub fn outcomes_have_their_shape()
    ensures { (ns : Namespace) (job : Job) (replies : List Reply) (told : Statuses) (read : Option (List ℕ))
        → IsOutcome ns job replies told read
        → HasOutcomeShape ns job (map (λ reply. reply.part) replies) told read }
{}

/// Data is reported for a Read by itself that succeeds, and for no other job: it comes with the one status 0/00.
pub fn data_comes_with_success()
    ensures outcome { (ns : Namespace) (job : Job) (replies : List Reply) (told : Statuses) (read : Option (List ℕ))
        → IsOutcome ns job replies told read → IsSome read
        → (op : Operation) × (job_operation_of ns job ≡ Some op) × IsTrue (is_read op.deed)
        × (told ≡ One successful_completion) }
    ensures shape { (ns : Namespace) (job : Job) (parts : List Part) (told : Statuses) (read : Option (List ℕ))
        → HasOutcomeShape ns job parts told read → IsSome read
        → (op : Operation) × (job_operation_of ns job ≡ Some op) × IsTrue (is_read op.deed)
        × (told ≡ One successful_completion) }
{
    outcomes_have_their_shape();
}

/// An outcome has a status for each command of its job, and so has its shape.
pub fn each_command_has_a_status()
    ensures outcome { (ns : Namespace) (job : Job) (replies : List Reply) (told : Statuses) (read : Option (List ℕ))
        → IsOutcome ns job replies told read → IsForEach job.body told }
    ensures shape { (ns : Namespace) (job : Job) (parts : List Part) (told : Statuses) (read : Option (List ℕ))
        → HasOutcomeShape ns job parts told read → IsForEach job.body told }
{
    outcomes_have_their_shape();
}
