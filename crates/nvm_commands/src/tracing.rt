ghost use Rattle.std.specs.Prelude.{IfOk, IfErr};
ghost use Rattle.nvm_file.specs.TraceFile.{IsTraceFile};
ghost use Rattle.nvm_trace.specs.TraceView.{TraceView};
ghost use Rattle.nvm_trace_text.specs.Texts.{IsTextOf};
ghost use Rattle.nvm_commands.specs.Fault.{IsFaultOfText};
ghost use Rattle.nvm_commands.specs.Files.{IsTracingFault};

use crate::failure::Failure;
use crate::files::{bytes_of, trace_of_lines};
use crate::front::{InputKind, Progress};
use crate::written_files::{check_output, write_bytes};
use nvm_file::write_trace;
use std::alloc::{AllocError, Global};
use std::rt::Files;

/// Makes the text of a trace into its file.
pub fn run_trace<R: AllocGlobal + Files + Input + Print + Eprint>(
    rt: &R,
    text: &str,
    out: &str,
    progress: &Progress<'_, R>,
) -> Result<(), Failure>
    ensures { IfErr result (λ failure. IsTracingFault text.now out.now failure.fault) }
{
    check_output(rt, out, text, "it is the text")?;
    let bytes = bytes_of(rt, InputKind::Text, text, progress)?;
    let file = trace_file_of(rt.alloc(), text, &bytes)?;
    write_bytes(rt, out, &file, progress)
}

/// The file of the trace that a text says which was read from a path, or the text's fault.
fn trace_file_of(alloc: Global, path: &str, text: &[u8]) -> Result<Vec<u8>, Failure>
    ensures file { IfOk result (λ file. (t : TraceView) × IsTextOf text.now t × IsTraceFile file.items t) }
    ensures fault { IfErr result (λ failure. IsFaultOfText text.now failure.fault) }
{
    let trace = trace_of_lines(alloc, path, text)?;
    let mut file = Vec::new(alloc);
    match write_trace(&mut file, &trace) {
        Ok(()) => Ok(file),
        Err(_) => Err(Failure::from(AllocError)),
    }
}
