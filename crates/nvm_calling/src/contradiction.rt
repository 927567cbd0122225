ghost use Rattle.std.specs.Prelude.{IfOk, IsTrue};
ghost use Rattle.nvm_standard.specs.Explanation.{IsExplanation};
ghost use Rattle.nvm_standard.specs.OrderView.{OrderView};
ghost use Rattle.nvm_standard.specs.PointView.{seen_table};

use nvm_record::NoMemory;
use nvm_standard::{Contradiction, ContradictionFault, Points, contradicts};
use std::alloc::{AllocError, Global};

/// Whether a contradiction shows that no order of these points is an explanation. Of one that doesn't, nothing follows.
pub fn is_contradicted(
    alloc: Global,
    points: &Points<'_>,
    found: &Contradiction,
) -> Result<bool, NoMemory>
    ensures { IfOk result (λ contradicted. IsTrue contradicted → (o : OrderView) → ¬ (IsExplanation (seen_table points.now) o)) }
{
    match contradicts(alloc, points, found) {
        Ok(()) => Ok(true),
        Err(ContradictionFault::NoMemory) => Err(AllocError),
        Err(_) => Ok(false),
    }
}
