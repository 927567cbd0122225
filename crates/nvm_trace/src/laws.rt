//! What holds of explained traces by their definition alone. Each law is a call that does nothing and whose contract is the law.

ghost use Rattle.std.specs.Prelude.{ℕ, ◌<◌, List, All};
ghost use Rattle.nvm_geometry.specs.Boundaries.{units_of};
ghost use Rattle.nvm_audit.specs.RecordView.{RecordView};
ghost use Rattle.nvm_trace.specs.declared.judging.Judging.{Judging};
ghost use Rattle.nvm_trace.specs.declared.step.Step.{Step as StepView};
ghost use Rattle.nvm_trace.specs.declared.witness_fault.WitnessFault.{WitnessFault as Fault};
ghost use Rattle.nvm_trace.specs.ExplainedBy.{IsExplainedBy};
ghost use Rattle.nvm_trace.specs.FirstFault.{IsFirstWitnessFault};
ghost use Rattle.nvm_trace.specs.Linearization.{TakenStep, IsAtMoment, IsLinearization};
ghost use Rattle.nvm_trace.specs.Moments.{HaveMoments};
ghost use Rattle.nvm_trace.specs.Pieces.{wholes};
ghost use Rattle.nvm_trace.specs.Steps.{steps_of};
ghost use Rattle.nvm_trace.specs.Timely.{IsTimely};
ghost use Rattle.nvm_trace.specs.Traceable.{IsTraceable};
ghost use Rattle.nvm_trace.specs.TraceView.{TraceView};

use nvm_audit::laws::one_check_is_the_first_fault;
use nvm_geometry::laws::parts_keep_their_kind;
use nvm_plan::laws::{ready_jobs, shapes_by_plan};
use nvm_record::laws::looks_change_nothing;
use nvm_store::laws::next_point;

/// Each step of an explained trace has a moment between its command's beginning and end, so that the moments never fall along
/// the order of a unit. And steps that have such moments are timely.
pub fn explained_traces_have_moments()
    ensures moments { (judging : Judging) (t : TraceView) (r : RecordView) → IsTraceable t → IsExplainedBy judging t r
        → HaveMoments (steps_of (wholes judging t) r.done) }
    ensures timely { (steps : List StepView) → HaveMoments steps → IsTimely steps }
{}

/// Linearizability of each atomic unit of an explained trace: the steps that the record shows there, in the order of their
/// moments, are a run of the step from zero bytes, in which each has the reply that was recorded. That is so whichever moments
/// they have.
pub fn explained_traces_are_runs()
    ensures linearizable { (judging : Judging) (t : TraceView) (r : RecordView) (unit : ℕ) → IsTraceable t → IsExplainedBy judging t r
        → unit < units_of r.namespace → (steps : List TakenStep) × IsLinearization (wholes judging t) r unit steps }
    ensures moments { (judging : Judging) (t : TraceView) (r : RecordView) (unit : ℕ)
        (moments : HaveMoments (steps_of (wholes judging t) r.done))
        → IsExplainedBy judging t r → unit < units_of r.namespace
        → (steps : List TakenStep) × IsLinearization (wholes judging t) r unit steps
        × All (IsAtMoment (wholes judging t) moments.moment) steps }
{
    explained_traces_have_moments();
    looks_change_nothing();
    next_point();
    parts_keep_their_kind();
    ready_jobs();
    shapes_by_plan();
}

/// A record that explains a trace has no fault as its witness.
pub fn explained_traces_have_no_fault()
    ensures { (judging : Judging) (t : TraceView) (r : RecordView) (fault : Fault) → IsExplainedBy judging t r → ¬ (IsFirstWitnessFault judging t r fault) }
{
    one_check_is_the_first_fault();
}
