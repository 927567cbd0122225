ghost use Rattle.std.specs.Prelude.{ℕ, IfErr, IfOk, List};
ghost use Rattle.nvm_file.specs.TraceFile.{IsTraceFile};
ghost use Rattle.nvm_standard.specs.OrderView.{seen_order};
ghost use Rattle.nvm_trace.specs.TraceView.{TraceView};
ghost use Rattle.nvm_evidence.specs.OrderReading.{IsOrderFile, seen_held_order};
ghost use Rattle.nvm_evidence.specs.Witnessed.{AreOrderedFiles, IsOrdered, IsOrderFault};

use crate::evidence::HeldOrder;
use crate::evidence_fault::EvidenceFault;
use crate::order_reading::read_order;
use crate::ordered::{OrderNumbers, Ordered};
use crate::trace_reading::trace_of;
use crate::witness_fault::OrderWitnessFault;
use nvm_judge::{CheckFault, check_order};
use nvm_record::{NoMemory, Payload};
use nvm_trace::Trace;
use std::alloc::{AllocError, Global};

/// Whether the order explains the trace, held to what the order was found for.
pub fn witness_order(
    alloc: Global,
    trace: &Trace,
    held: &HeldOrder<'_>,
) -> Result<Ordered, NoMemory>
    ensures { IfOk result (IsOrdered trace.now held.now.profile (seen_order held.now.order)) }
{
    match check_order(alloc, trace, held.profile, &held.order) {
        Ok(()) => Ok(Ordered::Explained(OrderNumbers {
            jobs: trace.jobs.len(),
            points: held.order.placed.len(),
            profile: held.profile,
        })),
        Err(CheckFault::Wrong { command }) => Ok(Ordered::Wrong { command }),
        Err(CheckFault::Order(fault)) => Ok(Ordered::Unexplained(fault)),
        Err(CheckFault::NoMemory) => Err(AllocError),
    }
}

/// Whether the order that a file holds explains the trace that another file holds. Where the bytes are no trace's file, or then no order's,
/// the first fault from the front is answered, with its offset. `NoMemory` says nothing.
pub fn witness_order_bytes(
    alloc: Global,
    trace: &Payload,
    order: &[u8],
) -> Result<Ordered, OrderWitnessFault>
    ensures ordered { IfOk result (AreOrderedFiles trace.now order.now) }
    ensures fault { IfErr result (IsOrderFault trace.now order.now) }
{
    match trace_of(alloc, trace)? {
        Ok(seen) => {
            let held = order_of(alloc, order)?;
            Ok(witness_order(alloc, &seen, &held)?)
        }
        Err(fault) => Err(OrderWitnessFault::Trace(fault)),
    }
}

/// The order that a file holds.
fn order_of<'f>(alloc: Global, bytes: &'f [u8]) -> Result<HeldOrder<'f>, OrderWitnessFault>
    ensures read { IfOk result (λ held. IsOrderFile bytes.now (seen_held_order held)) }
    ensures fault { (trace : List ℕ) (seen : TraceView) → IsTraceFile trace seen → IfErr result (IsOrderFault trace bytes.now) }
{
    match read_order(alloc, bytes) {
        Ok(held) => Ok(held),
        Err(EvidenceFault::NoMemory) => Err(OrderWitnessFault::NoMemory),
        Err(fault) => Err(OrderWitnessFault::Order(fault)),
    }
}
