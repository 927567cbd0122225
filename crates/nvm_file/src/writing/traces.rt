ghost use Rattle.std.specs.Prelude.{◌≡◌, ◌∷◌, [], ◌++◌, ◌<◌, ◌^◌, All, IfSome, OnErr, OnOk, length};
ghost use Rattle.std.specs.Io.KnownBytes.{Appends};
ghost use Rattle.byteorder.specs.Endian.{little_bytes};
ghost use Rattle.nvm_text.specs.Handed.{TakesFront};
ghost use Rattle.nvm_file.specs.Counted.{counted};
ghost use Rattle.nvm_file.specs.Fits.{NumbersFit};
ghost use Rattle.nvm_file.specs.TraceFile.{IsTraceFile};
ghost use Rattle.nvm_file.specs.TraceFits.{EndingFits, TraceFits, TracedJobFits};
ghost use Rattle.nvm_file.specs.TraceSpelling as spec;
ghost use Rattle.nvm_file.specs.TraceSpelling.{ended_bytes, ending_bytes, promise_byte, start_byte, trace_bytes, trace_head_bytes, traced_bytes};

use super::bytes::{count_bytes, eight_bytes};
use super::done_jobs::{write_payload, write_statuses};
use super::head::namespace_bytes;
use super::jobs::write_job;
use crate::laws::spellings_are_traces;
use crate::traced_job::NEVER;
use byteorder::{ByteOrder, LittleEndian};
use nvm_text::{Failed, Noted, hand_noting, noted_error};
use nvm_trace::{Deallocated, Ending, Reads, Start, Trace, TracedJob};
use std::io;
use std::io::{ErrorKind, Write};

/// Writes the trace as a file, piece by piece. It takes no memory of its own, however large the trace is. Most pieces are of a
/// few bytes, so hand it a [`BufWriter`](std::io::BufWriter) where each write costs. It doesn't flush.
///
/// What was handed over whole is a file of the trace, by [`spellings_are_traces`]: it is read as just that trace.
///
/// Where the writer fails, its error is answered, and it has taken a front of the file. A job that ended at time 2^64 - 1 has no
/// spelling, since that stands for an end that wasn't seen: the error is `InvalidInput` then, also with a front of the file.
pub fn write_trace<W: Write>(writer: &mut W, trace: &Trace) -> io::Result<()>
    ensures whole { OnOk result (Appends (W.contents writer.old) (W.contents writer.new) (trace_bytes trace.now)) }
    ensures front { OnErr result (TakesFront (W.contents writer.old) (W.contents writer.new) (trace_bytes trace.now)) }
    ensures fits { OnOk result (TraceFits trace.now) }
    ensures file { OnOk result (IsTraceFile (trace_bytes trace.now) trace.now) }
{
    let mut noted = None;
    match write_pieces(writer, &mut noted, trace) {
        Ok(()) => Ok(()),
        Err(Failed) => Err(noted_error(noted)),
    }
}

/// Writes what stands before the jobs, and these.
fn write_pieces<W: Write>(writer: &mut W, noted: &mut Noted, trace: &Trace) -> Result<(), Failed>
    ensures whole { OnOk result (Appends (W.contents writer.old) (W.contents writer.new) (trace_bytes trace.now)) }
    ensures front { OnErr result (TakesFront (W.contents writer.old) (W.contents writer.new) (trace_bytes trace.now)) }
    ensures fits { OnOk result (TraceFits trace.now) }
    ensures file { OnOk result (IsTraceFile (trace_bytes trace.now) trace.now) }
{
    spellings_are_traces();
    write_trace_head(writer, noted, trace)?;
    write_traced_jobs(writer, noted, &trace.jobs)
}

/// Writes what stands before the jobs.
fn write_trace_head<W: Write>(
    writer: &mut W,
    noted: &mut Noted,
    trace: &Trace,
) -> Result<(), Failed>
    ensures whole { OnOk result (Appends (W.contents writer.old) (W.contents writer.new) (trace_head_bytes trace.now)) }
    ensures front { OnErr result (TakesFront (W.contents writer.old) (W.contents writer.new) (trace_head_bytes trace.now)) }
    ensures fit { OnOk result (NumbersFit trace.now.namespace) }
    ensures window { OnOk result (trace.now.first < 2 ^ 64) }
{
    hand_noting(writer, noted, b"NVT1")?;
    hand_noting(writer, noted, &namespace_bytes(trace.geometry))?;
    hand_noting(
        writer,
        noted,
        &window_bytes(trace.first, trace.start, trace.reads, trace.deallocated),
    )
}

/// The first LBA, what was known of the blocks, and what the device promises.
fn window_bytes(first: u64, start: Start, reads: Reads, deallocated: Deallocated) -> [u8; 10]
    ensures { result ≡ little_bytes 8 first ++ (start_byte start ∷ promise_byte reads deallocated ∷ []) }
{
    let mut bytes = [0; 10];
    LittleEndian::write_u64(&mut bytes, first);
    bytes[8] = start_code(start);
    bytes[9] = promise_code(reads, deallocated);
    bytes
}

fn start_code(start: Start) -> u8
    ensures { result ≡ start_byte start }
{
    match start {
        Start::Zeroes => 0,
        Start::Unknown => 1,
    }
}

fn promise_code(reads: Reads, deallocated: Deallocated) -> u8
    ensures { result ≡ promise_byte reads deallocated }
{
    reads_code(reads) + 3 * deallocated_code(deallocated)
}

fn reads_code(reads: Reads) -> u8
    ensures { result ≡ spec.reads_code reads }
{
    match reads {
        Reads::Whole => 0,
        Reads::ByBlocks => 1,
        Reads::Atomic => 2,
    }
}

fn deallocated_code(deallocated: Deallocated) -> u8
    ensures { result ≡ spec.deallocated_code deallocated }
{
    match deallocated {
        Deallocated::Either => 0,
        Deallocated::Zeroes => 1,
        Deallocated::Ones => 2,
    }
}

/// Writes how many jobs there are, and each of them.
fn write_traced_jobs<W: Write>(
    writer: &mut W,
    noted: &mut Noted,
    jobs: &[TracedJob],
) -> Result<(), Failed>
    requires { length jobs.now < 2 ^ 32 }
    ensures whole { OnOk result (Appends (W.contents writer.old) (W.contents writer.new) (counted traced_bytes jobs.now)) }
    ensures front { OnErr result (TakesFront (W.contents writer.old) (W.contents writer.new) (counted traced_bytes jobs.now)) }
    ensures fit { OnOk result (All TracedJobFits jobs.now) }
{
    hand_noting(writer, noted, &count_bytes(jobs.len()))?;
    for job in jobs {
        write_traced_job(writer, noted, job)?;
    }
    Ok(())
}

/// Writes a job, when it began, and how it ended.
fn write_traced_job<W: Write>(
    writer: &mut W,
    noted: &mut Noted,
    job: &TracedJob,
) -> Result<(), Failed>
    ensures whole { OnOk result (Appends (W.contents writer.old) (W.contents writer.new) (traced_bytes job.now)) }
    ensures front { OnErr result (TakesFront (W.contents writer.old) (W.contents writer.new) (traced_bytes job.now)) }
    ensures fits { OnOk result (TracedJobFits job.now) }
{
    write_job(writer, noted, &job.job)?;
    hand_noting(writer, noted, &eight_bytes(job.began))?;
    write_ended(writer, noted, &job.ended)
}

/// Writes when a job ended and what came back, or that its end wasn't seen.
fn write_ended<W: Write>(
    writer: &mut W,
    noted: &mut Noted,
    ended: &Option<Ending>,
) -> Result<(), Failed>
    ensures whole { OnOk result (Appends (W.contents writer.old) (W.contents writer.new) (ended_bytes ended.now)) }
    ensures front { OnErr result (TakesFront (W.contents writer.old) (W.contents writer.new) (ended_bytes ended.now)) }
    ensures fits { OnOk result (IfSome ended.now EndingFits) }
{
    match ended {
        None => hand_noting(writer, noted, &eight_bytes(NEVER)),
        Some(ending) => write_ending(writer, noted, ending),
    }
}

/// Writes when a job ended, and what came back.
fn write_ending<W: Write>(writer: &mut W, noted: &mut Noted, ending: &Ending) -> Result<(), Failed>
    ensures whole { OnOk result (Appends (W.contents writer.old) (W.contents writer.new) (ending_bytes ending.now)) }
    ensures front { OnErr result (TakesFront (W.contents writer.old) (W.contents writer.new) (ending_bytes ending.now)) }
    ensures fits { OnOk result (EndingFits ending.now) }
{
    if ending.time == NEVER {
        *noted = Some(io::Error::from(ErrorKind::InvalidInput));
        return Err(Failed);
    }
    hand_noting(writer, noted, &eight_bytes(ending.time))?;
    write_statuses(writer, noted, ending.statuses)?;
    write_payload(writer, noted, &ending.payload)
}
