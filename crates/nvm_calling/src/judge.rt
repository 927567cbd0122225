ghost use Rattle.std.specs.Prelude.{◌≡◌, IfOk, Some, false, true};
ghost use Rattle.nvm_judge.specs.Explained.{IsExplainedBy};
ghost use Rattle.nvm_standard.specs.OrderView.{OrderView};

use nvm_judge::{Judgment, Search, judge};
use nvm_record::NoMemory;
use nvm_standard::Profile;
use nvm_trace::Trace;
use std::alloc::Global;

/// Whether an order of points explains the trace, held to the profile: whether its device can have kept to that. `None` where that isn't
/// known.
pub fn is_explained<S: Search>(
    alloc: Global,
    search: &S,
    trace: &Trace,
    profile: Profile,
    effort: u32,
) -> Result<Option<bool>, NoMemory>
    ensures explained { IfOk result (λ said. said ≡ Some true → (o : OrderView) × IsExplainedBy «trace».now profile o) }
    ensures refuted { IfOk result (λ said. said ≡ Some false → (o : OrderView) → ¬ (IsExplainedBy «trace».now profile o)) }
{
    match judge(alloc, search, trace, profile, effort)? {
        Judgment::Explained(_) => Ok(Some(true)),
        Judgment::Contradicted(_) | Judgment::Wrong { .. } => Ok(Some(false)),
        Judgment::Unknown(_) => Ok(None),
    }
}
