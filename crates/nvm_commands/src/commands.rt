//! The commands of `nvq`. What `list`, `audit`, `witness`, `certify` and `explain` answer is printed here.
ghost use Rattle.std.specs.Prelude.{IfErr};
ghost use Rattle.nvm_commands.specs.Files.{IsAssemblingFault, IsListingFault};

use crate::auditing::{all_audited, audited, witnessed};
use crate::certifying::certify;
use crate::conversion::{commands_of, list_of};
use crate::explaining::explained;
use crate::failure::{Failure, of_file};
use crate::files::{bytes_of, payload_of};
use crate::front::{InputKind, Progress, failed, tell};
use crate::generating::run_generate;
use crate::hint::{Wanted, refusal};
use crate::list_failure::of_commands;
use crate::listing::objects_listed;
use crate::read_list::split_list;
use crate::running::run_lists;
use crate::told::Told;
use crate::tracing::run_trace;
use crate::words::{Asked, read_words};
use crate::written_files::{check_output, unwritten, write_host_file};
use nvm_judge::Search;
use nvm_record::BlockSize;
use std::rt::{Env, Files};
use std::sync::Wait;
use std::thread::Threads;

/// What the program is called in its lines.
pub const NVQ: &str = "nvq";

/// Does what the words of the command line ask for, and gives the exit status: 0, that of a verdict, or 1 after a
/// fault. `search` is who looks for the evidence of a trace's verdict.
pub fn nvq_status<
    R: AllocGlobal + Env + Files + Input + Print + Eprint + Threads + Wait + Sync,
    S: Search,
>(rt: &R, search: &S, progress: &Progress<'_, R>) -> u8 {
    match read_words(rt) {
        Ok(asked) => {
            let ended = run(rt, search, &asked, progress);
            progress.clear();
            match ended {
                Ok(status) => status,
                Err(failure) => failed(rt, NVQ, failure),
            }
        }
        Err(fault) => match tell(rt, NVQ, fault) {
            Ok(status) => status,
            Err(kind) => failed(
                rt,
                NVQ,
                unwritten(rt.alloc(), "standard output", refusal(kind)),
            ),
        },
    }
}

/// Does what is asked, and gives the exit status. After a fault no file is written, but lists of a load before one that couldn't take its
/// place; of standard output there may be a front where it took no more.
fn run<R: AllocGlobal + Files + Input + Print + Eprint + Threads + Wait + Sync, S: Search>(
    rt: &R,
    search: &S,
    asked: &Asked,
    progress: &Progress<'_, R>,
) -> Result<u8, Failure> {
    let told = match asked {
        Asked::Run(words) => return run_lists(rt, words, progress),
        Asked::Generate(words) => {
            run_generate(rt, words, progress)?;
            return Ok(0);
        }
        Asked::Assemble { size, list, out } => {
            run_assemble(rt, *size, list.as_str(), out.as_str(), progress)?;
            return Ok(0);
        }
        Asked::Trace { text, out } => {
            run_trace(rt, text.as_str(), out.as_str(), progress)?;
            return Ok(0);
        }
        Asked::List { size, file } => Told::of(listed(rt, *size, file.as_str(), progress)?, 0),
        Asked::ListObjects(record) => Told::of(objects_listed(rt, record.as_str(), progress)?, 0),
        Asked::Audit(words) => audited(rt, words.telling, words.record.as_str(), progress)?,
        Asked::AuditAll(words) => all_audited(rt, words.record.as_str(), progress)?,
        Asked::Witness(words) => {
            let (trace, record) = (words.trace.as_str(), words.record.as_str());
            witnessed(rt, words.judging, trace, record, progress)?
        }
        Asked::Certify(words) => certify(rt, search, words, progress)?,
        Asked::Explain(words) => Told::of(explained(rt, words, progress)?, 0),
    };
    told.print(rt, progress)
}

/// Makes a list into a host file, without what its commands expect.
fn run_assemble<R: AllocGlobal + Files + Input + Print + Eprint>(
    rt: &R,
    size: BlockSize,
    list: &str,
    out: &str,
    progress: &Progress<'_, R>,
) -> Result<(), Failure>
    ensures { IfErr result (λ failure. IsAssemblingFault size list.now out.now failure.fault) }
{
    check_output(rt, out, list, "it is the list")?;
    let text = bytes_of(rt, InputKind::Text, list, progress)?;
    let split = split_list(rt.alloc(), list, &text)?;
    match commands_of(rt.alloc(), &split.text, size) {
        Ok(commands) => write_host_file(rt, out, &commands, progress),
        Err(fault) => Err(of_commands(rt.alloc(), fault, list, &text, &split.text, size)),
    }
}

/// What a host file, a record or a trace holds, as text.
fn listed<R: AllocGlobal + Files + Input + Eprint>(
    rt: &R,
    size: BlockSize,
    file: &str,
    progress: &Progress<'_, R>,
) -> Result<String, Failure>
    ensures { IfErr result (λ failure. IsListingFault size file.now failure.fault) }
{
    let bytes = payload_of(rt, InputKind::File, file, progress)?;
    let path = String::from_str(rt.alloc(), file)?;
    match list_of(rt.alloc(), path, &bytes, size) {
        Ok(text) => Ok(text),
        Err(fault) => Err(of_file(rt.alloc(), fault, file, &bytes, Wanted::HostFile(size))),
    }
}
