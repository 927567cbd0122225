ghost use Rattle.std.specs.Prelude.{◌≡◌};
ghost use Rattle.nvm_file.specs.Inside.Rest.{left_of};
ghost use Rattle.nvm_file.specs.Inside.TraceFrames.{IsSoundTraceFrame};
ghost use Rattle.nvm_file.specs.TraceFields.{GivesTraced};
ghost use Rattle.nvm_file.specs.TraceReading as spec;
ghost use Rattle.nvm_file.specs.TraceReading.{trace_at};

use crate::fields::offset_of;
use crate::rest::Rest;
use crate::trace_file_fault::TraceFileFault;
use crate::trace_frame::TraceFrame;
use crate::trace_head::{trace_frame_of, trace_head_of};
use crate::traced_job::traced_jobs_of;
use nvm_record::Payload;
use nvm_record::laws::opcodes_are_proper;
use nvm_trace::Trace;
use std::alloc::Global;

/// Reads a trace's file from its front. What is read is spelled just so, each byte of it, and the spelling of each trace that a
/// file can hold is read as just that trace: see [`spellings_are_traces`](crate::laws::spellings_are_traces).
///
/// The data of commands and of Reads is a part of the bytes. Memory is taken for the lists, never for more items than
/// the bytes that follow could hold, whatever a count says.
///
/// The first fault from the front is answered, or `NoMemory` where a growth was refused before it, or 2^63 - 1 payloads
/// shared the bytes.
#[tactic(auto, unfolding(crate::specs::TraceReading::trace_at))]
pub fn read_trace(alloc: Global, bytes: &Payload) -> Result<Trace, TraceFileFault>
    ensures { GivesTraced (λ t. t) result (trace_at bytes.now) }
{
    let total = bytes.len();
    let (head, rest) = trace_head_of(total, Rest::whole(bytes))?;
    let frame = trace_frame_of(total, &head);
    behind_head(alloc, &frame, rest)
}

/// What stands behind the head.
#[tactic(auto, unfolding(crate::specs::TraceReading::trace_behind))]
fn behind_head(alloc: Global, frame: &TraceFrame, rest: Rest<'_>) -> Result<Trace, TraceFileFault>
    requires { IsSoundTraceFrame frame.now }
    ensures { GivesTraced (λ t. t) result (spec.trace_behind frame.now (left_of rest.entry)) }
{
    opcodes_are_proper();
    let (jobs, rest) = traced_jobs_of(alloc, &frame.scope, frame.jobs, rest)?;
    if rest.len() > 0 {
        return Err(TraceFileFault::Trailing {
            at: offset_of(frame.scope.total, rest),
        });
    }
    Ok(Trace {
        geometry: frame.scope.geometry,
        first: frame.first,
        start: frame.start,
        reads: frame.reads,
        deallocated: frame.deallocated,
        jobs,
    })
}
