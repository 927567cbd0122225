//! Files that are written to paths, and the failures of that.
ghost use Rattle.std.specs.Prelude.{IfErr};
ghost use Rattle.nvm_commands.specs.Files.{IsWriteFault};

use crate::failure::Failure;
use crate::fault::Fault;
use crate::front::{FileFault, Output, Progress, STANDARD, is_output, is_read, write, write_run};
use crate::hint::refusal;
use nvm_audit::Record;
use nvm_file::write_host;
use nvm_record::Command;
use std::alloc::{AllocError, Global};
use std::rt::Files;

/// Writes bytes to a file, or to standard output.
pub fn write_bytes<R: Files + AllocGlobal + Print + Eprint>(
    rt: &R,
    path: &str,
    bytes: &[u8],
    progress: &Progress<'_, R>,
) -> Result<(), Failure>
    ensures { IfErr result (λ failure. IsWriteFault path.now failure.fault) }
{
    made(rt.alloc(), path, write(rt, path, bytes, progress))
}

/// Writes the host file of commands to a file, or to standard output.
pub fn write_host_file<R: Files + AllocGlobal + Print + Eprint>(
    rt: &R,
    path: &str,
    commands: &[Command],
    progress: &Progress<'_, R>,
) -> Result<(), Failure>
    ensures { IfErr result (λ failure. IsWriteFault path.now failure.fault) }
{
    made(
        rt.alloc(),
        path,
        host_file_written(rt, path, commands, progress),
    )
}

/// The same. A file appears whole or not at all.
fn host_file_written<R: Files + AllocGlobal + Print + Eprint>(
    rt: &R,
    path: &str,
    commands: &[Command],
    progress: &Progress<'_, R>,
) -> Result<(), FileFault> {
    progress.clear();
    let mut output = Output::new(rt, path, progress)?;
    write_host(&mut output, commands)?;
    output.finish()
}

/// Writes the record's file. It appears whole or not at all.
pub fn keep<R: AllocGlobal + Files + Print + Eprint>(
    rt: &R,
    path: &str,
    run: &Record,
    progress: &Progress<'_, R>,
) -> Result<(), Failure>
    ensures { IfErr result (λ failure. IsWriteFault path.now failure.fault) }
{
    made(rt.alloc(), path, write_run(rt, path, run, progress))
}

/// Refuses a path to write at which the file to read is, before anything is read. The hint below the fault says why.
pub fn check_output<R: Files + AllocGlobal>(
    rt: &R,
    out: &str,
    read: &str,
    why: &'static str,
) -> Result<(), Failure>
    ensures { IfErr result (λ failure. IsWriteFault out.now failure.fault) }
{
    if out != STANDARD && is_read(rt, out, read)? {
        return Err(unwritten(rt.alloc(), out, Some(why)));
    }
    Ok(())
}

/// Refuses a path to write that is the file which standard output goes to, before anything is written.
fn check_no_lines<R: Files + AllocGlobal>(rt: &R, out: &str) -> Result<(), Failure>
    ensures { IfErr result (λ failure. IsWriteFault out.now failure.fault) }
{
    if is_output(rt, out)? {
        let why = Some("standard output goes there, with the lines");
        return Err(unwritten(rt.alloc(), out, why));
    }
    Ok(())
}

/// Refuses a path to write at which one of the files to read is, or which is standard output's.
pub fn check_place<R: Files + AllocGlobal>(
    rt: &R,
    out: &str,
    read: &[String],
    why: &'static str,
) -> Result<(), Failure>
    ensures { IfErr result (λ failure. IsWriteFault out.now failure.fault) }
{
    for path in read {
        check_output(rt, out, path.as_str(), why)?;
    }
    check_no_lines(rt, out)
}

/// What came of a file that was to be written to a path.
pub fn made(alloc: Global, path: &str, written: Result<(), FileFault>) -> Result<(), Failure>
    ensures { IfErr result (λ failure. IsWriteFault path.now failure.fault) }
{
    match written {
        Ok(()) => Ok(()),
        Err(fault) => Err(unmade(alloc, path, fault)),
    }
}

/// The failure of a file that couldn't be made. Want of memory isn't the file's fault.
pub fn unmade(alloc: Global, path: &str, fault: FileFault) -> Failure
    ensures { IsWriteFault path.now result.fault }
{
    match fault {
        FileFault::NoMemory => Failure::from(AllocError),
        FileFault::Refused(kind) => unwritten(alloc, path, refusal(kind)),
    }
}

/// The failure of a file that can't be written, or want of memory for its path. The hint below the fault says why.
pub fn unwritten(alloc: Global, path: &str, why: Option<&'static str>) -> Failure
    ensures { IsWriteFault path.now result.fault }
{
    match String::from_str(alloc, path) {
        Ok(path) => Failure::because(Fault::CannotWrite { path }, why),
        Err(error) => Failure::from(error),
    }
}
