//! What the program `nvmu` does: it reads the words of its command line and the hosts' files, has their commands done by workers, and
//! writes the record of that and its text. Or it audits a record, or judges a trace by one, by an order or by a contradiction.

ghost use Rattle.std.specs.Prelude.{◌≡◌, IfOk};
ghost use Rattle.nvm_commands.specs.Nvmu.Answer.{ended_status, status_of as status_after};
ghost use Rattle.nvm_commands.specs.Nvmu.Asked.{IsAnswerTo};

mod answer;
mod auditing;
mod files;
mod refuting;
mod running;
mod words;

use crate::failure::Failure;
use crate::fault::Fault;
use crate::front::{FileFault, Output, Progress, UNWRITTEN, failed, tell};
use crate::nvmu::answer::Answer;
use crate::nvmu::auditing::{audited, witnessed};
use crate::nvmu::refuting::refuted;
use crate::nvmu::running::recorded;
use crate::nvmu::words::{Asked, read_words};
use std::alloc::Global;
use std::mem::forget;
use std::rt::{Env, Files};
use std::sync::Wait;
use std::thread::Threads;

/// What the program is called in its lines.
pub const NVMU: &str = "nvmu";

/// Does what the words of the command line ask for, and gives the exit status: 0, 2 where a record isn't lawful, or a record or an order doesn't
/// explain the trace, or a contradiction isn't one of it, or 1 after a fault. The room of standard output is taken first, so that no memory is wanted for the text once the record of a run is written.
pub fn nvmu_status<R: AllocGlobal + Env + Files + Input + Print + Eprint + Threads + Wait + Sync>(
    rt: &R,
    progress: &Progress<'_, R>,
) -> u8 {
    match read_words(rt) {
        Ok(asked) => match Output::standard(rt) {
            Ok(output) => done(rt, &asked, output, progress),
            Err(_) => failed(rt, NVMU, Fault::NoMemory),
        },
        Err(fault) => match tell(rt, NVMU, fault) {
            Ok(status) => status,
            Err(_) => failed(rt, NVMU, UNWRITTEN),
        },
    }
}

/// Does what is asked, writes the answer to standard output, and gives the exit status.
fn done<R: AllocGlobal + Files + Input + Print + Eprint + Threads + Wait + Sync>(
    rt: &R,
    asked: &Asked,
    output: Output<'_, R>,
    progress: &Progress<'_, R>,
) -> u8 {
    let answer = answer_to(rt, asked, progress);
    progress.clear();
    match answer {
        Ok(answer) => {
            let written = print(rt.alloc(), &answer, output);
            let status = ended(rt, &answer, written);
            forget(answer);
            status
        }
        Err(Failure { fault, .. }) => failed(rt, NVMU, fault),
    }
}

/// Does what is asked. What was read is handed on as it is.
fn answer_to<R: AllocGlobal + Files + Input + Print + Eprint + Threads + Wait + Sync>(
    rt: &R,
    asked: &Asked,
    progress: &Progress<'_, R>,
) -> Result<Answer, Failure>
    ensures { IfOk result (IsAnswerTo asked.now) }
{
    match asked {
        Asked::Run {
            settings,
            out,
            files,
        } => {
            let shown = recorded(rt, settings, out.as_str(), files.as_slice(), progress)?;
            Ok(Answer::Ran(shown))
        }
        Asked::Audit(words) => {
            let judged = audited(rt, words.record.as_str(), progress)?;
            let telling = words.telling;
            Ok(Answer::Audited { telling, judged })
        }
        Asked::Witness(words) => {
            let (trace, record) = (words.trace.as_str(), words.record.as_str());
            witnessed(rt, words.judging, trace, record, progress)
        }
        Asked::Refute {
            trace,
            contradiction,
        } => {
            let answer = refuted(rt, trace.as_str(), contradiction.as_str(), progress)?;
            Ok(Answer::Refuted(answer))
        }
    }
}

/// Writes the answer.
fn print<R: Files + Print + Eprint>(
    alloc: Global,
    answer: &Answer,
    mut output: Output<'_, R>,
) -> Result<(), FileFault> {
    answer.write(alloc, &mut output)?;
    output.finish()
}

/// The exit status: the answer's where all of it was written, or else 1, with a line that says so.
fn ended<R: Eprint>(rt: &R, answer: &Answer, written: Result<(), FileFault>) -> u8
    ensures { result ≡ ended_status written (status_after answer.now) }
{
    match written {
        Ok(()) => answer.status(),
        Err(FileFault::NoMemory) => failed(rt, NVMU, Fault::NoMemory),
        Err(FileFault::Refused(_)) => failed(rt, NVMU, UNWRITTEN),
    }
}
