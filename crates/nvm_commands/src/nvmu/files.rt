//! The files that `nvmu` reads, and the path of its record.
ghost use Rattle.std.specs.Prelude.{◌≡◌, IfOk, IfErr, length, map, string_bytes};
ghost use Rattle.nvm_commands.specs.Files.{IsReadingFault, IsWriteFault};
ghost use Rattle.nvm_commands.specs.Nvmu.Judged.{IsPairFault};

use crate::failure::Failure;
use crate::files::{payload_of, unread};
use crate::front::{InputKind, Progress, STANDARD, is_input};
use crate::written_files::{check_place, unwritten};
use nvm_record::Payload;
use std::rt::Files;

/// The bytes of each file, in the files' order; `-` is standard input, which is there for one of them. The first that can't be
/// read is the fault.
pub fn read_files<R: Files + AllocGlobal + Input + Eprint>(
    rt: &R,
    paths: &[String],
    progress: &Progress<'_, R>,
) -> Result<Vec<Payload>, Failure>
    ensures count { IfOk result (λ files. length files.items ≡ length paths.now) }
    ensures fault { IfErr result (λ failure. IsReadingFault (map (λ path. string_bytes path) paths.now) failure.fault) }
{
    let mut files = Vec::with_capacity(rt.alloc(), paths.len())?;
    let mut is_taken = false;
    for path in paths {
        if is_input(path.as_str()) {
            if is_taken {
                return Err(unread(rt.alloc(), path.as_str(), None));
            }
            is_taken = true;
        }
        files.push(payload_of(rt, InputKind::File, path.as_str(), progress)?)?;
    }
    Ok(files)
}

/// The bytes of a trace and of the other file. Where both would be standard input, that is refused before anything is read.
pub fn read_pair<R: Files + AllocGlobal + Input + Eprint>(
    rt: &R,
    trace: &str,
    other: &str,
    progress: &Progress<'_, R>,
) -> Result<(Payload, Payload), Failure>
    ensures { IfErr result (λ failure. IsPairFault trace.now other.now failure.fault) }
{
    if is_input(trace) && is_input(other) {
        return Err(unread(rt.alloc(), other, None));
    }
    let seen = payload_of(rt, InputKind::File, trace, progress)?;
    let held = payload_of(rt, InputKind::File, other, progress)?;
    Ok((seen, held))
}

/// Refuses a path for the record at which one of the files that were read is or that standard output goes to, and `-`, before
/// anything is written.
pub fn check_record<R: Files + AllocGlobal>(
    rt: &R,
    out: &str,
    paths: &[String],
) -> Result<(), Failure>
    ensures { IfErr result (λ failure. IsWriteFault out.now failure.fault) }
{
    if out == STANDARD {
        return Err(unwritten(rt.alloc(), out, None));
    }
    check_place(rt, out, paths, "it is a host file")
}
