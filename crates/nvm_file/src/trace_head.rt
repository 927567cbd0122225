//! What stands before the jobs of a trace's file.
ghost use Rattle.std.specs.Prelude.{◌≡◌, IfOk};
ghost use Rattle.nvm_geometry.specs.Faults.{HasNoFault};
ghost use Rattle.nvm_file.specs.Fields.{Gives};
ghost use Rattle.nvm_file.specs.Inside.Head.{namespace_with, trace_frame_by};
ghost use Rattle.nvm_file.specs.Inside.Rest.{left_of};
ghost use Rattle.nvm_file.specs.TraceHeadReading.{deallocated_of, reads_of, start_of, trace_head_at, trace_name_at};

use crate::fields::{u8_in, u32_in, u64_of};
use crate::head::{Numbers, geometry_by, geometry_of, numbers_of};
use crate::record_fault::RecordFault;
use crate::rest::Rest;
use crate::scope::Scope;
use crate::trace_frame::TraceFrame;
use nvm_audit::{MOST_JOBS, Version};
use nvm_trace::{Deallocated, Reads, Start};

/// Each trace's file begins with these bytes.
const NAME: &[u8; 4] = b"NVT1";

/// What stands before the jobs.
#[derive(Clone, Copy)]
pub struct TraceHead {
    numbers: Numbers,
    first: u64,
    start: Start,
    reads: Reads,
    deallocated: Deallocated,
    jobs: u32,
}

/// All that stands before the jobs of a file of `total` bytes.
#[tactic(auto, unfolding(crate::specs::TraceHeadReading::trace_head_at))]
pub fn trace_head_of(total: usize, rest: Rest<'_>) -> Result<(TraceHead, Rest<'_>), RecordFault>
    ensures head { Gives (λ x. (trace_frame_by total x.0, left_of x.1)) result (trace_head_at total (left_of rest.entry)) }
    ensures geometry { IfOk result (λ x. HasNoFault (namespace_with x.0.numbers)) }
{
    let rest = name_of(rest)?;
    let (numbers, rest) = numbers_of(total, rest)?;
    geometry_of(&numbers)?;
    let (first, rest) = u64_of(total, rest)?;
    let (start, rest) = u8_in(total, 0, 1, rest)?;
    let (promises, rest) = u8_in(total, 0, 8, rest)?;
    let (jobs, rest) = u32_in(total, 0, MOST_JOBS, rest)?;
    let head = TraceHead {
        numbers,
        first,
        start: start_by(start),
        reads: reads_by(promises),
        deallocated: deallocated_by(promises),
        jobs,
    };
    Ok((head, rest))
}

/// What the head of a file of `total` bytes says of all that follows.
pub fn trace_frame_of(total: usize, head: &TraceHead) -> TraceFrame
    requires { HasNoFault (namespace_with head.now.numbers) }
    ensures { result ≡ trace_frame_by total head.now }
{
    TraceFrame {
        scope: Scope {
            total,
            version: Version::Two,
            geometry: geometry_by(&head.numbers),
        },
        first: head.first,
        start: head.start,
        reads: head.reads,
        deallocated: head.deallocated,
        jobs: head.jobs,
    }
}

/// The file's name.
#[tactic(auto, unfolding(crate::specs::TraceHeadReading::trace_name_at))]
fn name_of(rest: Rest<'_>) -> Result<Rest<'_>, RecordFault>
    ensures { Gives (λ x. left_of x) result (trace_name_at (left_of rest.entry)) }
{
    if !rest.as_slice().starts_with(NAME) {
        return Err(RecordFault::BadName);
    }
    Ok(rest.after(NAME.len()))
}

/// What was known of the blocks, by its code.
fn start_by(code: u8) -> Start
    ensures { result ≡ start_of code }
{
    match code {
        0 => Start::Zeroes,
        _ => Start::Unknown,
    }
}

/// What Reads are held to, by the code of what the device promises.
fn reads_by(code: u8) -> Reads
    ensures { result ≡ reads_of code }
{
    match code % 3 {
        0 => Reads::Whole,
        1 => Reads::ByBlocks,
        _ => Reads::Atomic,
    }
}

/// What a deallocated block may read as, by the same code.
fn deallocated_by(code: u8) -> Deallocated
    ensures { result ≡ deallocated_of code }
{
    match code / 3 {
        0 => Deallocated::Either,
        1 => Deallocated::Zeroes,
        _ => Deallocated::Ones,
    }
}
