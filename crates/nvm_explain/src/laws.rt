//! What holds of stories by their definition alone. Each law is a call that does nothing and whose contract is the law.
ghost use Rattle.std.specs.Prelude.{ℕ};
ghost use Rattle.nvm_audit.specs.RecordView.{RecordView};
ghost use Rattle.nvm_audit.specs.declared.audit_fault.Spot.{Spot as SpotView};
ghost use Rattle.nvm_trace.specs.declared.judging.Judging.{Judging};
ghost use Rattle.nvm_trace.specs.FirstFault.{IsFirstBack};
ghost use Rattle.nvm_trace.specs.Pieces.{wholes};
ghost use Rattle.nvm_trace.specs.Steps.{steps_of};
ghost use Rattle.nvm_trace.specs.TraceView.{TraceView};
ghost use Rattle.nvm_explain.specs.Ordering.{late_pair};
ghost use Rattle.nvm_explain.specs.Late.{IsOfLate};

/// Where a step is the first to come too late, such a step of its job at its spot is found, and one against it: a step of its unit that
/// stands before it, and whose command began only when its own had ended.
pub fn late_steps_are_found()
    ensures { (judging : Judging) (t : TraceView) (r : RecordView) (job : ℕ) (spot : SpotView) → IsFirstBack judging t r job spot
        → IsOfLate (steps_of (wholes judging t) r.done) (late_pair (steps_of (wholes judging t) r.done) job spot) }
{}
