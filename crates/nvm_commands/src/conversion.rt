//! Lists and files as what they hold, or the fault of one that isn't whole.
ghost use Rattle.std.specs.Prelude.{◌≡◌, Ok, IfOk, IfErr, string_bytes};
ghost use Rattle.nvm_file.specs.Reading.{record_at};
ghost use Rattle.nvm_file.specs.TraceFile.{IsTraceFile};
ghost use Rattle.nvm_list.specs.Lists as lists;
ghost use Rattle.nvm_commands.specs.Fault.{IsFaultOfList, IsFaultOfFile, IsFaultOfRecord, IsFaultOfTrace};
ghost use Rattle.nvm_commands.specs.Listed.{begins_as_record, begins_as_trace, IsListFault, HoldsRecord, Lists, ListsCommands, ListsTrace};

use crate::fault::Fault;
use nvm_audit::Record;
use nvm_file::{read_record, read_trace};
use nvm_list::{list_file, read_list};
use nvm_listing::list_record;
use nvm_record::{BlockSize, Command, Payload};
use nvm_trace::Trace;
use nvm_trace_text::text_of_trace;
use std::alloc::Global;
use std::mem::forget;

/// The commands of a list, or the list's fault.
pub fn commands_of(alloc: Global, list: &[u8], size: BlockSize) -> Result<Vec<Command>, Fault>
    ensures commands { IfOk result (λ commands. lists.commands size list.now ≡ Ok commands.items) }
    ensures fault { IfErr result (IsFaultOfList size list.now) }
{
    Ok(read_list(alloc, list, size)?)
}

/// What the file at a path holds, as text: a record where it begins with `NVR`, a trace where it begins with `NVT`, and else the
/// commands of a host file, whose blocks have `size` bytes. Or the file's fault.
pub fn list_of(
    alloc: Global,
    path: String,
    file: &Payload,
    size: BlockSize,
) -> Result<String, Fault>
    ensures list { IfOk result (λ list. Lists size file.now (string_bytes list)) }
    ensures fault { IfErr result (IsListFault path size file.now) }
{
    if is_record(file.as_slice()) {
        list_of_record(alloc, path, file)
    } else if is_trace(file.as_slice()) {
        list_of_trace(alloc, path, file)
    } else {
        list_of_commands(alloc, path, file, size)
    }
}

/// Whether the bytes begin as those of a record.
fn is_record(bytes: &[u8]) -> bool
    ensures { result ≡ begins_as_record bytes.now }
{
    bytes.starts_with(b"NVR")
}

/// Whether the bytes begin as those of a trace.
fn is_trace(bytes: &[u8]) -> bool
    ensures { result ≡ begins_as_trace bytes.now }
{
    bytes.starts_with(b"NVT")
}

/// The text of the trace at a path, or the file's fault.
fn list_of_trace(alloc: Global, path: String, file: &Payload) -> Result<String, Fault>
    ensures list { IfOk result (λ list. ListsTrace file.now (string_bytes list)) }
    ensures fault { IfErr result (IsFaultOfTrace path file.now) }
{
    let trace = trace_of(alloc, path, file)?;
    Ok(text_of_trace(alloc, &trace)?)
}

/// The trace at a path, or the file's fault.
pub fn trace_of(alloc: Global, path: String, file: &Payload) -> Result<Trace, Fault>
    ensures trace { IfOk result (IsTraceFile file.now) }
    ensures fault { IfErr result (IsFaultOfTrace path file.now) }
{
    match read_trace(alloc, file) {
        Ok(trace) => Ok(trace),
        Err(fault) => Err(Fault::of_trace(path, fault)),
    }
}

/// The list of the record at a path, or the file's fault.
fn list_of_record(alloc: Global, path: String, file: &Payload) -> Result<String, Fault>
    ensures held { IfOk result (λ _. HoldsRecord file.now) }
    ensures fault { IfErr result (IsFaultOfRecord path file.now) }
{
    let run = record_of(alloc, path, file)?;
    let list = list_record(alloc, &run)?;
    forget(run);
    Ok(list)
}

/// The record at a path, or the file's fault.
pub fn record_of(alloc: Global, path: String, file: &Payload) -> Result<Record, Fault>
    ensures record { IfOk result (λ run. record_at file.now ≡ Ok run) }
    ensures fault { IfErr result (IsFaultOfRecord path file.now) }
{
    match read_record(alloc, file) {
        Ok(run) => Ok(run),
        Err(fault) => Err(Fault::of_record(path, fault)),
    }
}

/// The list of the host file at a path, or the file's fault.
fn list_of_commands(
    alloc: Global,
    path: String,
    file: &Payload,
    size: BlockSize,
) -> Result<String, Fault>
    ensures list { IfOk result (λ list. ListsCommands size file.now (string_bytes list)) }
    ensures fault { IfErr result (IsFaultOfFile path size file.now) }
{
    match list_file(alloc, file, size) {
        Ok(list) => Ok(list),
        Err(fault) => Err(Fault::of_file(path, fault)),
    }
}
