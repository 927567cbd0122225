ghost use Rattle.std.specs.Prelude.{◌≡◌, ◌⊎◌, ◌+◌, ◌<◌, ◌^◌, IfOk, IfErr, OnOk, OnErr};
ghost use Rattle.nvm_geometry.specs.Faults.{HasNoFault, IsFirstGeometryFault};
ghost use Rattle.nvm_list.specs.Rest.{parts_left, bytes_left};
ghost use Rattle.nvm_list.specs.Words.{is, words_in};
ghost use Rattle.nvm_trace.specs.Taking.{CanTake, Applies};
ghost use Rattle.nvm_trace.specs.TraceView.{TraceView};
ghost use Rattle.nvm_trace.specs.declared.trace_fault.TraceFault.{TraceFault as Unfitness};
ghost use Rattle.nvm_trace_text.specs.Head.{namespace_in};
ghost use Rattle.nvm_trace_text.specs.Inside.Answers.{Gives};
ghost use Rattle.nvm_trace_text.specs.Texts as spec;
ghost use Rattle.nvm_trace_text.specs.Texts.{IsTextOf, IsTextFault, IsHead, IsHeadFault, SayBehind, FailBehind};
ghost use Rattle.nvm_trace_text.specs.declared.expected.TraceExpected.TheVariants.{Unfit};
ghost use Rattle.nvm_trace_text.specs.declared.fault.TextFault.TheVariants.{Line, NoMemory};

use crate::expected::TraceExpected;
use crate::fault::{LineFault, TextFault};
use crate::fields::is_end;
use crate::head::{Numbers, read_head};
use crate::job_line::job;
use nvm_geometry::{Geometry, GeometryFault};
use nvm_list::{cut, without_comment};
use nvm_record::BlockSize;
use nvm_trace::{Trace, TracedJob};
use std::alloc::Global;

/// The trace that a text says.
///
/// The first line that is wrong is answered in place of it, or `NoMemory` where a growth was refused before it.
pub fn trace_of_text(alloc: Global, text: &[u8]) -> Result<Trace, TextFault>
    ensures said { IfOk result (IsTextOf text.now) }
    ensures fault { IfErr result (λ e. IsTextFault text.now e ⊎ (e ≡ NoMemory)) }
{
    let mut line = 0;
    let mut rest = Some(text);
    while let Some(bytes) = rest {
        let (here, after) = cut(bytes, b'\n');
        line += 1;
        let words = without_comment(here);
        if !is_end(words) {
            return with_jobs(alloc, under_head(alloc, words, line)?, after, line);
        }
        rest = after;
    }
    Err(TextFault::NoHead)
}

/// The trace without jobs that the words of the head, in this line, say.
fn under_head(alloc: Global, words: &[u8], line: u64) -> Result<Trace, TextFault>
    ensures said { IfOk result (λ t. spec.IsTraceUnder (words_in words.now) t) }
    ensures fault { IfErr result (IsHeadFault line (words_in words.now)) }
{
    let head = match read_head(words) {
        Ok(head) => head,
        Err(expected) => return Err(TextFault::Line { line, expected }),
    };
    match geometry_of(head.numbers) {
        Ok(geometry) => Ok(Trace::new(
            alloc,
            geometry,
            head.first,
            head.start,
            head.reads,
            head.deallocated,
        )),
        Err(fault) => Err(TextFault::Line {
            line,
            expected: TraceExpected::Geometry(fault),
        }),
    }
}

/// The geometry of these numbers, or their first fault.
fn geometry_of(numbers: Numbers) -> Result<Geometry, GeometryFault>
    ensures taken { IfOk result (λ g. (g ≡ namespace_in numbers) × HasNoFault (namespace_in numbers)) }
    ensures refused { IfErr result (IsFirstGeometryFault (namespace_in numbers)) }
{
    Geometry::new(
        numbers.nsze,
        numbers.block,
        numbers.nabsn,
        numbers.nabo,
        numbers.nawun,
        numbers.nacwu,
    )
}

/// The trace with the jobs of the lines that are left, behind so many lines.
fn with_jobs(
    alloc: Global,
    empty: Trace,
    lines: Option<&[u8]>,
    before: u64,
) -> Result<Trace, TextFault>
    requires { before + bytes_left lines < 2 ^ 64 }
    ensures said { IfOk result (SayBehind empty (parts_left (is 10) lines.entry)) }
    ensures fault { IfErr result (λ e. FailBehind empty (before + 1) (parts_left (is 10) lines.entry) e ⊎ (e ≡ NoMemory)) }
{
    let mut trace = empty;
    let mut line = before;
    let mut rest = lines;
    while let Some(bytes) = rest {
        let (text, after) = cut(bytes, b'\n');
        line += 1;
        if let Some(job) = job_on(alloc, text, line, trace.geometry.block_size())? {
            take(&mut trace, job, line)?;
        }
        rest = after;
    }
    Ok(trace)
}

/// The job of a line, or `None` where the line has no words.
fn job_on(
    alloc: Global,
    text: &[u8],
    line: u64,
    size: BlockSize,
) -> Result<Option<TracedJob>, TextFault>
    ensures job { IfOk result (λ j. spec.on_line size text.now ≡ Ok j) }
    ensures fault { IfErr result (λ e. spec.IsLineFault line (spec.on_line size text.now) e ⊎ (e ≡ NoMemory)) }
{
    let words = without_comment(text);
    if is_end(words) {
        return Ok(None);
    }
    match job(alloc, words, size) {
        Ok(job) => Ok(Some(job)),
        Err(LineFault::Expected(expected)) => Err(TextFault::Line { line, expected }),
        Err(LineFault::NoMemory) => Err(TextFault::NoMemory),
    }
}

/// Puts the job of this line at the trace's end, if the trace can have it.
fn take(trace: &mut Trace, job: TracedJob, line: u64) -> Result<(), TextFault>
    ensures taken { OnOk result (CanTake trace.old job × (trace.new ≡ spec.with_job trace.old job)) }
    ensures fault { IfErr result (λ e. ((f : Unfitness) × Applies trace.old job f × (e ≡ Line line (Unfit f))) ⊎ (e ≡ NoMemory)) }
{
    match trace.check(&job) {
        Ok(()) => {}
        Err(fault) => {
            return Err(TextFault::Line {
                line,
                expected: TraceExpected::Unfit(fault),
            });
        }
    }
    match trace.push(job) {
        Ok(()) => Ok(()),
        Err(_) => Err(TextFault::NoMemory),
    }
}
