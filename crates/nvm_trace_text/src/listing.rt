ghost use Rattle.std.specs.Prelude.{◌≡◌, ◌++◌, IfOk, OnOk, string_bytes};
ghost use Rattle.nvm_trace_text.specs.Listing as spec;
ghost use Rattle.nvm_trace_text.specs.Listing.{text_of};

use crate::head::Numbers;
use crate::job_text::{BodyText, ReplyText, TimeText, time_of};
use nvm_geometry::Geometry;
use nvm_record::NoMemory;
use nvm_trace::{Deallocated, Reads, Start, Trace, TracedJob};
use std::alloc::Global;

/// The text of a trace: its head, and a line for each job.
///
/// It says this very trace, by [`texts_are_read_back`](crate::laws::texts_are_read_back), where no job ended at time 2^64 - 1: no text
/// says such an end.
pub fn text_of_trace(alloc: Global, trace: &Trace) -> Result<String, NoMemory>
    ensures { IfOk result (λ text. string_bytes text ≡ text_of trace.now) }
{
    let mut text = String::new(alloc);
    push_numbers(&mut text, numbers_of(trace.geometry))?;
    push_known(
        &mut text,
        trace.first,
        trace.start,
        trace.reads,
        trace.deallocated,
    )?;
    for job in &trace.jobs {
        push_job(&mut text, job)?;
    }
    Ok(text)
}

/// The numbers of a namespace.
fn numbers_of(geometry: Geometry) -> Numbers
    ensures { result ≡ spec.numbers_in geometry }
{
    Numbers {
        nsze: geometry.nsze(),
        block: geometry.block_size().bytes(),
        nabsn: geometry.nabsn(),
        nabo: geometry.nabo(),
        nawun: geometry.nawun(),
        nacwu: geometry.nacwu(),
    }
}

/// Appends what the head says of the namespace.
#[tactic(auto, unfolding(crate::specs::Listing::numbers_text))]
fn push_numbers(text: &mut String, numbers: Numbers) -> Result<(), NoMemory>
    ensures { OnOk result (string_bytes text.new ≡ string_bytes text.old ++ spec.numbers_text numbers) }
{
    let Numbers {
        nsze,
        block,
        nabsn,
        nabo,
        nawun,
        nacwu,
    } = numbers;
    write!(
        text,
        "trace nsze {nsze} block {block} nabsn {nabsn} nabo {nabo} nawun {nawun} nacwu {nacwu}"
    )
}

/// Appends the rest of the head.
#[tactic(auto, unfolding(crate::specs::Listing::known_text))]
fn push_known(
    text: &mut String,
    first: u64,
    start: Start,
    reads: Reads,
    deallocated: Deallocated,
) -> Result<(), NoMemory>
    ensures { OnOk result (string_bytes text.new ≡ string_bytes text.old ++ spec.known_text first start reads deallocated) }
{
    let start = start_word(start);
    let reads = reads_word(reads);
    let deallocated = deallocated_words(deallocated);
    write!(
        text,
        " first {first} start {start} reads {reads}{deallocated}\n"
    )
}

/// The word for what was known of the blocks.
fn start_word(start: Start) -> &'static str
    ensures { result.now ≡ spec.start_word start }
{
    match start {
        Start::Zeroes => "zeroes",
        Start::Unknown => "unknown",
    }
}

/// The word for what Reads are held to.
fn reads_word(reads: Reads) -> &'static str
    ensures { result.now ≡ spec.reads_word reads }
{
    match reads {
        Reads::Atomic => "atomic",
        Reads::Whole => "whole",
        Reads::ByBlocks => "by-blocks",
    }
}

/// The words for what a deallocated block may read as: none where it may be either.
fn deallocated_words(deallocated: Deallocated) -> &'static str
    ensures { result.now ≡ spec.deallocated_text deallocated }
{
    match deallocated {
        Deallocated::Zeroes => " deallocated zeroes",
        Deallocated::Ones => " deallocated ones",
        Deallocated::Either => "",
    }
}

/// Appends the line of a job, as a trace's text has it. Where memory is refused the text has what it had, and maybe a front of the line.
pub fn push_job(text: &mut String, job: &TracedJob) -> Result<(), NoMemory>
    ensures { OnOk result (string_bytes text.new ≡ string_bytes text.old ++ spec.job_line job.now) }
{
    let began = job.began;
    let ended = TimeText(time_of(&job.ended));
    let host = job.job.host;
    let body = BodyText(&job.job.body);
    let reply = ReplyText(&job.ended);
    write!(text, "{began} {ended} {host} {body}{reply}\n")
}
