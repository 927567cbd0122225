ghost use Rattle.std.specs.Prelude.{◌≡◌, IfOk};
ghost use Rattle.nvm_file.specs.TraceReading.{trace_at};

use nvm_file::{TraceFileFault, read_trace};
use nvm_record::{NoMemory, Payload};
use nvm_trace::Trace;
use std::alloc::{AllocError, Global};

/// The trace that a file holds, or the first fault of its bytes. Want of memory is none of these.
pub(crate) fn trace_of(
    alloc: Global,
    bytes: &Payload,
) -> Result<Result<Trace, TraceFileFault>, NoMemory>
    ensures { IfOk result (λ read. trace_at bytes.now ≡ read) }
{
    match read_trace(alloc, bytes) {
        Ok(trace) => Ok(Ok(trace)),
        Err(TraceFileFault::NoMemory) => Err(AllocError),
        Err(fault) => Ok(Err(fault)),
    }
}
