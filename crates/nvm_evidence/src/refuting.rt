ghost use Rattle.std.specs.Prelude.{ℕ, IfErr, IfOk, List};
ghost use Rattle.nvm_file.specs.TraceFile.{IsTraceFile};
ghost use Rattle.nvm_judge.specs.Contradicted.{IsContradictedBy};
ghost use Rattle.nvm_trace.specs.TraceView.{TraceView};
ghost use Rattle.nvm_evidence.specs.ContradictionReading.{IsContradictionFile};
ghost use Rattle.nvm_evidence.specs.Refuted.{AreRefutedFiles, IsRefuted, IsRefuteFault};

use crate::contradiction_reading::read_contradiction;
use crate::evidence::HeldContradiction;
use crate::evidence_fault::EvidenceFault;
use crate::named::commands_named;
use crate::refute_fault::RefuteBytesFault;
use crate::refuted::Refuted;
use crate::trace_reading::trace_of;
use nvm_judge::{RefuteFault, check_contradiction};
use nvm_record::{NoMemory, Payload};
use nvm_standard::{PointsFault, points_of};
use nvm_trace::Trace;
use std::alloc::{AllocError, Global};

/// The numbers of a contradiction that is taken.
fn taken(alloc: Global, trace: &Trace, held: &HeldContradiction) -> Result<Refuted, NoMemory>
    requires { IsContradictedBy trace.now held.now.profile held.now.contradiction }
    ensures { IfOk result (IsRefuted trace.now held.now.profile held.now.contradiction) }
{
    match points_of(alloc, trace, held.profile) {
        Ok(points) => {
            let commands = commands_named(alloc, &points, &held.contradiction)?;
            Ok(Refuted::Refuted {
                commands: commands.len(),
                facts: held.contradiction.facts.len(),
                profile: held.profile,
            })
        }
        Err(PointsFault::Wrong { command }) => Ok(Refuted::Wrong { command }),
        Err(PointsFault::NoMemory) => Err(AllocError),
    }
}

/// Whether the contradiction shows that no order explains the trace, held to what the contradiction was found for.
pub fn refute_contradiction(
    alloc: Global,
    trace: &Trace,
    held: &HeldContradiction,
) -> Result<Refuted, NoMemory>
    ensures { IfOk result (IsRefuted trace.now held.now.profile held.now.contradiction) }
{
    match check_contradiction(alloc, trace, held.profile, &held.contradiction) {
        Ok(()) => taken(alloc, trace, held),
        Err(RefuteFault::Wrong { command }) => Ok(Refuted::Wrong { command }),
        Err(RefuteFault::Contradiction(fault)) => Ok(Refuted::Unrefuted(fault)),
        Err(RefuteFault::NoMemory) => Err(AllocError),
    }
}

/// Whether the contradiction that a file holds shows that no order explains the trace that another file holds. Where the bytes are no
/// trace's file, or then no contradiction's, the first fault from the front is answered, with its offset. `NoMemory` says nothing.
pub fn refute_contradiction_bytes(
    alloc: Global,
    trace: &Payload,
    contradiction: &[u8],
) -> Result<Refuted, RefuteBytesFault>
    ensures refuted { IfOk result (AreRefutedFiles trace.now contradiction.now) }
    ensures fault { IfErr result (IsRefuteFault trace.now contradiction.now) }
{
    match trace_of(alloc, trace)? {
        Ok(seen) => {
            let held = contradiction_of(alloc, contradiction)?;
            Ok(refute_contradiction(alloc, &seen, &held)?)
        }
        Err(fault) => Err(RefuteBytesFault::Trace(fault)),
    }
}

/// The contradiction that a file holds.
fn contradiction_of(alloc: Global, bytes: &[u8]) -> Result<HeldContradiction, RefuteBytesFault>
    ensures read { IfOk result (λ held. IsContradictionFile bytes.now held) }
    ensures fault { (trace : List ℕ) (seen : TraceView) → IsTraceFile trace seen → IfErr result (IsRefuteFault trace bytes.now) }
{
    match read_contradiction(alloc, bytes) {
        Ok(held) => Ok(held),
        Err(EvidenceFault::NoMemory) => Err(RefuteBytesFault::NoMemory),
        Err(fault) => Err(RefuteBytesFault::Contradiction(fault)),
    }
}
