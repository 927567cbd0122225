ghost use Rattle.nvm_list.specs.Words.{words_in};
ghost use Rattle.nvm_trace_text.specs.Inside.Answers.{Gives, now_if_any};
ghost use Rattle.nvm_trace_text.specs.Lines as spec;

use crate::expected::TraceExpected;
use crate::fault::LineFault;
use crate::fields::{end_time, field};
use crate::mark::cut_at_mark;
use crate::reply::ending;
use nvm_list::command_of_words;
use nvm_plan::{Body, Job};
use nvm_record::{BlockSize, Command};
use nvm_trace::TracedJob;
use std::alloc::Global;

/// What a host saw of one command or fused pair, as a line says it.
pub(crate) fn job(alloc: Global, line: &[u8], size: BlockSize) -> Result<TracedJob, LineFault>
    ensures { Gives (λ j. j) result (spec.job size line.now) }
{
    let (sent, told) = cut_at_mark(line, b'=');
    let (words, second) = cut_at_mark(sent, b'+');
    job_of(alloc, words, second, told, size)
}

/// The job of a line that was cut: the words of the first command, the second command, and what came back.
#[tactic(auto, unfolding(crate::specs::Lines::job_of))]
fn job_of(
    alloc: Global,
    words: &[u8],
    second: Option<&[u8]>,
    told: Option<&[u8]>,
    size: BlockSize,
) -> Result<TracedJob, LineFault>
    ensures { Gives (λ j. j) result (spec.job_of size (words_in words.now) (now_if_any second.entry) (now_if_any told.entry)) }
{
    let (began, rest) = field(words, 1, u64::MAX, TraceExpected::Began)?;
    let (ended, rest) = end_time(rest)?;
    let (host, rest) = field(rest, 1, 64, TraceExpected::Host)?;
    let first = identified(alloc, rest, size)?;
    let body = body_with(alloc, first, second, size)?;
    let ended = ending(alloc, &body, ended, told, size)?;
    let job = Job {
        host: host as u16,
        body,
    };
    Ok(TracedJob { job, began, ended })
}

/// A command behind its identifier.
fn identified(alloc: Global, words: &[u8], size: BlockSize) -> Result<Command, LineFault>
    ensures { Gives (λ c. c) result (spec.identified size (words_in words.now)) }
{
    let (cid, rest) = field(words, 0, 65_535, TraceExpected::Cid)?;
    let command = command_of_words(alloc, rest, cid, size)?;
    if u64::from(command.cid) != cid {
        return Err(LineFault::Expected(TraceExpected::OtherCid));
    }
    Ok(command)
}

/// The command by itself, or with the second one.
fn body_with(
    alloc: Global,
    first: Command,
    second: Option<&[u8]>,
    size: BlockSize,
) -> Result<Body, LineFault>
    ensures { Gives (λ b. b) result (spec.body_with size first (now_if_any second.entry)) }
{
    match second {
        Some(words) => Ok(Body::Pair(first, identified(alloc, words, size)?)),
        None => Ok(Body::Single(first)),
    }
}
