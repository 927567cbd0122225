//! `nvq list --json`: what a record holds as objects of JSON, and that of its verdict.
ghost use Rattle.std.specs.Prelude.{◌⊎◌, IfOk, IfErr, string_bytes};
ghost use Rattle.nvm_commands.specs.Fault.{IsFaultOfRecordAt};
ghost use Rattle.nvm_commands.specs.Files.{IsReadFault};
ghost use Rattle.nvm_commands.specs.Listed.{AreObjectsOfFile};

use crate::failure::Failure;
use crate::files::read_as_record;
use crate::front::Progress;
use nvm_engine::judge_watched;
use nvm_listing::list_as_objects;
use std::mem::forget;
use std::rt::Files;
use std::thread::Threads;

/// The objects of the record at a path, and after them that of its verdict. Another file is a fault, as it is to an audit.
pub fn objects_listed<R: AllocGlobal + Files + Input + Eprint + Threads + Sync>(
    rt: &R,
    record: &str,
    progress: &Progress<'_, R>,
) -> Result<String, Failure>
    ensures objects { IfOk result (λ text. AreObjectsOfFile (string_bytes text)) }
    ensures fault { IfErr result (λ failure. IsReadFault «record».now failure.fault ⊎ IsFaultOfRecordAt «record».now failure.fault) }
{
    let run = read_as_record(rt, record, progress)?;
    let mut text = list_as_objects(rt.alloc(), &run)?;
    let judged = judge_watched(rt, rt.alloc(), &run, progress)?;
    let verdict = judged.object(rt.alloc())?;
    text.push_str(verdict.as_str())?;
    forget(run);
    Ok(text)
}
