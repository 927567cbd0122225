//! A trace that C has judged by an order, as the bytes of its file.
ghost use Rattle.std.specs.Prelude.{◌≡◌, ◌⊎◌, Err, IfOk};
ghost use Rattle.nvm_evidence.specs.OrderReading.{IsOrderFile, order_at, seen_held_order};
ghost use Rattle.nvm_c.specs.Witnessed as spec;
ghost use Rattle.nvm_c.specs.Witnessed.{IsNoOrder, IsOrderRuling};

use crate::finding::Finding;
use crate::trace_code::TraceCode;
use nvm_evidence::{EvidenceFault, HeldOrder, Ordered, is_evidence, read_order, witness_order};
use nvm_record::NoMemory;
use nvm_trace::{Judging, Trace};
use std::alloc::{AllocError, Global};

/// Whether the bytes are to be an order's file. No order is judged strictly.
pub(crate) fn is_order(judging: Judging, bytes: &[u8]) -> bool
    ensures { result ≡ spec.is_order judging bytes.now }
{
    match judging {
        Judging::Standard => is_evidence(bytes),
        Judging::Strict => false,
    }
}

/// What is found of the trace in the bytes of an order's file.
pub(crate) fn finding_by_order(
    alloc: Global,
    trace: &Trace,
    order: &[u8],
) -> Result<Finding, NoMemory>
    ensures { IfOk result
        (λ finding. IsNoOrder order.now finding.code finding.line.items ⊎ IsOrderRuling trace.now order.now finding.code finding.line.items) }
{
    match read_order(alloc, order) {
        Ok(held) => order_ruling(alloc, trace, order, &held),
        Err(EvidenceFault::NoMemory) => Err(AllocError),
        Err(fault) => no_order(alloc, order, fault),
    }
}

/// What is found of bytes that are no order's file, by this fault.
fn no_order(alloc: Global, bytes: &[u8], fault: EvidenceFault) -> Result<Finding, NoMemory>
    requires { order_at bytes.now ≡ Err fault }
    ensures { IfOk result (λ finding. IsNoOrder bytes.now finding.code finding.line.items) }
{
    Finding::bad_evidence(alloc, TraceCode::BadRecord, "order", fault)
}

/// What is found of the trace and the order of these bytes.
fn order_ruling(
    alloc: Global,
    trace: &Trace,
    bytes: &[u8],
    held: &HeldOrder<'_>,
) -> Result<Finding, NoMemory>
    requires { IsOrderFile bytes.now (seen_held_order held.now) }
    ensures { IfOk result (λ finding. IsOrderRuling trace.now bytes.now finding.code finding.line.items) }
{
    let ordered = witness_order(alloc, trace, held)?;
    let line = ordered.line(alloc)?;
    Ok(Finding {
        code: code_of(ordered),
        line: line.into_bytes(),
    })
}

/// The code of what the order comes to.
fn code_of(ordered: Ordered) -> TraceCode
    ensures { result ≡ spec.code_of_order ordered }
{
    match ordered {
        Ordered::Explained(_) => TraceCode::Explained,
        Ordered::Wrong { .. } | Ordered::Unexplained(_) => TraceCode::Unexplained,
    }
}
