ghost use Rattle.std.specs.Prelude.{IfErr, OnOk};
ghost use Rattle.nvm_judge.specs.Explained.{IsExplainedBy};
ghost use Rattle.nvm_judge.specs.Faults.{IsCheckFault};
ghost use Rattle.nvm_standard.specs.OrderView.{seen_order};

use crate::check_fault::CheckFault;
use nvm_standard::{Order, OrderFault, PointsFault, Profile, explains, points_of};
use nvm_trace::Trace;
use std::alloc::Global;

/// Whether the order explains the trace, held to this profile. Where it doesn't, a fault of the two is named, as [`explains`] does.
#[tactic(auto, using(crate::proofs::Wrong::is_wrong))]
pub fn check_order<'t>(
    alloc: Global,
    trace: &'t Trace,
    profile: Profile,
    order: &Order<'t>,
) -> Result<(), CheckFault>
    ensures explained { OnOk result (IsExplainedBy trace.entry.now profile (seen_order order.now)) }
    ensures fault { IfErr result (IsCheckFault trace.entry.now profile (seen_order order.now)) }
{
    match points_of(alloc, trace, profile) {
        Ok(points) => match explains(alloc, &points, order) {
            Ok(()) => Ok(()),
            Err(OrderFault::NoMemory) => Err(CheckFault::NoMemory),
            Err(fault) => Err(CheckFault::Order(fault)),
        },
        Err(PointsFault::Wrong { command }) => Err(CheckFault::Wrong { command }),
        Err(PointsFault::NoMemory) => Err(CheckFault::NoMemory),
    }
}
