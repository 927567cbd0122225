//! `nvmu run`: the commands of host files are done by workers, and recorded.
ghost use Rattle.std.specs.Prelude.{IfOk, IfErr, map, string_bytes};
ghost use Rattle.nvm_engine.specs.Shown.{IsShown};
ghost use Rattle.nvm_commands.specs.Nvmu.Runs.{IsShownOn, IsRunFault, IsRunFaultOn};

use crate::failure::{Failure, plain};
use crate::fault::Fault;
use crate::front::Progress;
use crate::nvmu::files::{check_record, read_files};
use crate::written_files::keep;
use nvm_engine::{Settings, Shown, execute_watched};
use nvm_record::Payload;
use std::rt::Files;
use std::sync::Wait;
use std::thread::Threads;

/// Reads the files at these paths, has their commands done, and writes the record of that to `out`.
pub fn recorded<R: AllocGlobal + Files + Input + Print + Eprint + Threads + Wait + Sync>(
    rt: &R,
    settings: &Settings,
    out: &str,
    paths: &[String],
    progress: &Progress<'_, R>,
) -> Result<Shown, Failure>
    ensures shown { IfOk result (IsShownOn settings.now (map (λ path. string_bytes path) paths.now)) }
    ensures fault { IfErr result (λ failure. IsRunFaultOn settings.now out.now (map (λ path. string_bytes path) paths.now) failure.fault) }
{
    let files = read_files(rt, paths, progress)?;
    let shown = shown_of(rt, settings, files.as_slice(), progress)?;
    check_record(rt, out, paths)?;
    keep(rt, out, shown.record(), progress)?;
    Ok(shown)
}

/// Has the commands of the host files done.
fn shown_of<R: AllocGlobal + Eprint + Threads + Wait + Sync>(
    rt: &R,
    settings: &Settings,
    files: &[Payload],
    progress: &Progress<'_, R>,
) -> Result<Shown, Failure>
    ensures shown { IfOk result (IsShown settings.now files.now) }
    ensures fault { IfErr result (λ failure. IsRunFault settings.now files.now failure.fault) }
{
    let gate = progress.jobs();
    match execute_watched(rt, rt.alloc(), settings, files, &gate, progress) {
        Ok(shown) => Ok(shown),
        Err(fault) => Err(plain(Fault::Engine(fault))),
    }
}
