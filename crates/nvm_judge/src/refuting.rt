ghost use Rattle.std.specs.Prelude.{IfErr, OnOk};
ghost use Rattle.nvm_judge.specs.Contradicted.{IsContradictedBy};
ghost use Rattle.nvm_judge.specs.Faults.{IsRefuteFault};

use crate::refute_fault::RefuteFault;
use nvm_standard::{
    Contradiction, ContradictionFault, PointsFault, Profile, contradicts, points_of,
};
use nvm_trace::Trace;
use std::alloc::Global;

/// Whether the contradiction shows that no order explains the trace, held to this profile. Where it doesn't, a fault is named, as
/// [`contradicts`] does. A reply that is wrong by itself is such a fault, too: nothing explains the trace then.
#[tactic(auto, using(crate::proofs::Wrong::is_wrong))]
pub fn check_contradiction(
    alloc: Global,
    trace: &Trace,
    profile: Profile,
    contradiction: &Contradiction,
) -> Result<(), RefuteFault>
    ensures contradicted { OnOk result (IsContradictedBy trace.now profile contradiction.now) }
    ensures fault { IfErr result (IsRefuteFault trace.now profile) }
{
    match points_of(alloc, trace, profile) {
        Ok(points) => match contradicts(alloc, &points, contradiction) {
            Ok(()) => Ok(()),
            Err(ContradictionFault::NoMemory) => Err(RefuteFault::NoMemory),
            Err(fault) => Err(RefuteFault::Contradiction(fault)),
        },
        Err(PointsFault::Wrong { command }) => Err(RefuteFault::Wrong { command }),
        Err(PointsFault::NoMemory) => Err(RefuteFault::NoMemory),
    }
}
