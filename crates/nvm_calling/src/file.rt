ghost use Rattle.std.specs.Prelude.{IfOk};
ghost use Rattle.nvm_file.specs.RecordFile.{IsRecordFile};
ghost use Rattle.nvm_file.specs.TraceFile.{IsTraceFile};

use nvm_audit::Record;
use nvm_file::{write_record, write_trace};
use nvm_record::{NoMemory, Payload};
use nvm_trace::Trace;
use std::alloc::{AllocError, Global};
use std::io;

/// The bytes of the record's file, which are read as just this record.
pub fn file_of(alloc: Global, record: &Record) -> Result<Payload, NoMemory>
    ensures { IfOk result (λ bytes. IsRecordFile bytes «record».now) }
{
    let mut bytes = Vec::new(alloc);
    match write_record(&mut bytes, record) {
        Ok(()) => Payload::new(alloc, bytes),
        Err(_) => Err(AllocError),
    }
}

/// The bytes of the trace's file, which are read as just this trace.
pub fn trace_file_of(alloc: Global, trace: &Trace) -> io::Result<Payload>
    ensures { IfOk result (λ bytes. IsTraceFile bytes «trace».now) }
{
    let mut bytes = Vec::new(alloc);
    write_trace(&mut bytes, trace)?;
    Ok(Payload::new(alloc, bytes)?)
}
