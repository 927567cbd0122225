//! What the workers did, in a record file.
ghost use Rattle.std.specs.Prelude.{◌≡◌, map, slice_get};
ghost use Rattle.nvm_plan.specs.Operation.{operation_of_body};
ghost use Rattle.nvm_file.specs.DoneReading as spec;
ghost use Rattle.nvm_file.specs.DoneReading.{answer_at, answer_behind, done_at, done_of, one_status_at, part_at, parts_at, payload_at, result_of, status_at, statuses_at, two_statuses_at, work_at};
ghost use Rattle.nvm_file.specs.Fields.{Gives, items_at, number_in};
ghost use Rattle.nvm_file.specs.Reading.{workers_at};
ghost use Rattle.nvm_file.specs.Inside.Rest.{left_of};

use crate::fields::{cut_short, refused, u8_in, u8_of, u16_below, u16_in, u32_in, u32_of};
use crate::frame::Frame;
use crate::items::items_of;
use crate::record_fault::RecordFault;
use crate::rest::Rest;
use nvm_audit::{DoneJob, MOST_JOBS};
use nvm_geometry::Geometry;
use nvm_plan::{Body, Job, Part, PartResult, Parts, Plan, plan};
use nvm_record::{Op, ReadData, Status, Statuses};
use std::alloc::Global;

/// What a worker did has so many bytes at least: the number of its jobs.
const LEAST_WORK_BYTES: usize = 4;

/// A done job has so many bytes at least: its number, how many parts it has, a status, and the flag of its data.
const LEAST_BYTES: usize = 9;

/// A part has so many bytes.
const PART_BYTES: usize = 7;

/// What each worker did.
pub fn workers_of<'a>(
    alloc: Global,
    frame: &Frame,
    jobs: &[Job],
    from: Rest<'a>,
) -> Result<(Vec<Vec<DoneJob>>, Rest<'a>), RecordFault>
    ensures { Gives (λ x. (map (λ work. work.items) x.0.items, left_of x.1)) result (workers_at frame.now jobs.now (left_of from.entry)) }
{
    let count = frame.workers as u32;
    items_of(alloc, count, LEAST_WORK_BYTES, from, |_, rest| {
        work_of(alloc, frame, jobs, rest)
    })
}

/// What a worker did: how many jobs, and each of them.
#[tactic(auto, unfolding(crate::specs::DoneReading::work_at))]
fn work_of<'a>(
    alloc: Global,
    frame: &Frame,
    jobs: &[Job],
    rest: Rest<'a>,
) -> Result<(Vec<DoneJob>, Rest<'a>), RecordFault>
    ensures { Gives (λ x. (x.0.items, left_of x.1)) result (work_at frame.now jobs.now (left_of rest.entry)) }
{
    let (count, rest) = u32_in(frame.total, 0, MOST_JOBS, rest)?;
    done_jobs_of(alloc, frame, jobs, count, rest)
}

/// So many done jobs.
fn done_jobs_of<'a>(
    alloc: Global,
    frame: &Frame,
    jobs: &[Job],
    count: u32,
    from: Rest<'a>,
) -> Result<(Vec<DoneJob>, Rest<'a>), RecordFault>
    ensures { Gives (λ x. (x.0.items, left_of x.1)) result (items_at (λ _. done_at frame.now jobs.now) 0 count (left_of from.entry)) }
{
    items_of(alloc, count, LEAST_BYTES, from, |_, rest| {
        done_job_of(alloc, frame, jobs, rest)
    })
}

/// A job that was done: its number, which is one of these jobs', and what was done.
#[tactic(auto, unfolding(crate::specs::DoneReading::done_at))]
fn done_job_of<'a>(
    alloc: Global,
    frame: &Frame,
    jobs: &[Job],
    rest: Rest<'a>,
) -> Result<(DoneJob, Rest<'a>), RecordFault>
    ensures { Gives (λ x. (x.0, left_of x.1)) result (done_at frame.now jobs.now (left_of rest.entry)) }
{
    let (number, after) = u32_of(frame.total, rest)?;
    match jobs.get(number as usize) {
        Some(job) => deeds_of(alloc, frame, number, job, after),
        None => Err(refused(frame.total, rest)),
    }
}

/// What was done of the job of this number.
#[tactic(auto, unfolding(crate::specs::DoneReading::done_of))]
fn deeds_of<'a>(
    alloc: Global,
    frame: &Frame,
    number: u32,
    job: &Job,
    rest: Rest<'a>,
) -> Result<(DoneJob, Rest<'a>), RecordFault>
    ensures { Gives (λ x. (x.0, left_of x.1)) result (done_of frame.now number job.now (left_of rest.entry)) }
{
    let (parts, rest) = parts_of(alloc, frame, rest)?;
    let (statuses, rest) = statuses_of(&job.body, frame.total, rest)?;
    let length = answer_length(&frame.geometry, job);
    let (payload, rest) = payload_of(frame.total, length, rest)?;
    let done = DoneJob {
        job: number,
        parts,
        statuses,
        payload,
    };
    Ok((done, rest))
}

/// The parts: how many there are, and each of them.
#[tactic(auto, unfolding(crate::specs::DoneReading::parts_at))]
fn parts_of<'a>(
    alloc: Global,
    frame: &Frame,
    rest: Rest<'a>,
) -> Result<(Parts, Rest<'a>), RecordFault>
    ensures { Gives (λ x. (x.0.items, left_of x.1)) result (parts_at frame.now (left_of rest.entry)) }
{
    let (count, rest) = u16_in(frame.total, 0, frame.geometry.units(), rest)?;
    counted_parts_of(alloc, frame, count, rest)
}

/// So many parts. A single one takes no memory.
fn counted_parts_of<'a>(
    alloc: Global,
    frame: &Frame,
    count: u16,
    from: Rest<'a>,
) -> Result<(Parts, Rest<'a>), RecordFault>
    ensures { Gives (λ x. (x.0.items, left_of x.1)) result (items_at (λ _. part_at frame.now) 0 count (left_of from.entry)) }
{
    if count == 1 {
        return match part_of(frame, from) {
            Ok((part, rest)) => Ok((Parts::from_buf(alloc, [part]), rest)),
            Err(fault) => Err(fault),
        };
    }
    let (parts, rest) = some_parts_of(alloc, frame, count, from)?;
    Ok((Parts::from_vec(parts), rest))
}

/// So many parts, in memory.
fn some_parts_of<'a>(
    alloc: Global,
    frame: &Frame,
    count: u16,
    from: Rest<'a>,
) -> Result<(Vec<Part>, Rest<'a>), RecordFault>
    ensures { Gives (λ x. (x.0.items, left_of x.1)) result (items_at (λ _. part_at frame.now) 0 count (left_of from.entry)) }
{
    items_of(
        alloc,
        count as u32,
        PART_BYTES,
        from,
        |_, rest| part_of(frame, rest),
    )
}

/// A part: its unit, its point, and how it ended.
#[tactic(auto, unfolding(crate::specs::DoneReading::part_at))]
fn part_of<'a>(frame: &Frame, rest: Rest<'a>) -> Result<(Part, Rest<'a>), RecordFault>
    ensures { Gives (λ x. (x.0, left_of x.1)) result (part_at frame.now (left_of rest.entry)) }
{
    let (unit, rest) = u16_below(frame.total, frame.geometry.units(), rest)?;
    let (point, rest) = u32_of(frame.total, rest)?;
    let (code, rest) = u8_in(frame.total, 1, 5, rest)?;
    let result = result_of_code(code);
    let part = Part {
        unit,
        point,
        result,
    };
    Ok((part, rest))
}

/// How a part ended, by its code.
fn result_of_code(code: u8) -> PartResult
    ensures { result ≡ result_of code }
{
    match code {
        1 => PartResult::Done,
        2 => PartResult::Failed,
        3 => PartResult::Looked,
        4 => PartResult::NoMemory,
        _ => PartResult::Full,
    }
}

/// A status for each command.
pub fn statuses_of<'a>(
    body: &Body,
    total: usize,
    rest: Rest<'a>,
) -> Result<(Statuses, Rest<'a>), RecordFault>
    ensures { Gives (λ x. (x.0, left_of x.1)) result (statuses_at body.now total (left_of rest.entry)) }
{
    match body {
        Body::Single(_) => one_status_of(total, rest),
        Body::Pair(_, _) => two_statuses_of(total, rest),
    }
}

/// The status of a command by itself.
#[tactic(auto, unfolding(crate::specs::DoneReading::one_status_at))]
fn one_status_of(total: usize, rest: Rest<'_>) -> Result<(Statuses, Rest<'_>), RecordFault>
    ensures { Gives (λ x. (x.0, left_of x.1)) result (one_status_at total (left_of rest.entry)) }
{
    let (only, rest) = status_of(total, rest)?;
    Ok((Statuses::One(only), rest))
}

/// The two statuses of a pair.
#[tactic(auto, unfolding(crate::specs::DoneReading::two_statuses_at))]
fn two_statuses_of(total: usize, rest: Rest<'_>) -> Result<(Statuses, Rest<'_>), RecordFault>
    ensures { Gives (λ x. (x.0, left_of x.1)) result (two_statuses_at total (left_of rest.entry)) }
{
    let (first, rest) = status_of(total, rest)?;
    let (second, rest) = status_of(total, rest)?;
    Ok((Statuses::Two(first, second), rest))
}

/// A status: its type, then its code.
#[tactic(auto, unfolding(crate::specs::DoneReading::status_at))]
fn status_of(total: usize, rest: Rest<'_>) -> Result<(Status, Rest<'_>), RecordFault>
    ensures { Gives (λ x. (x.0, left_of x.1)) result (status_at total (left_of rest.entry)) }
{
    let (sct, rest) = u8_of(total, rest)?;
    let (sc, rest) = u8_of(total, rest)?;
    Ok((Status { sct, sc }, rest))
}

/// How many bytes the job is answered, where it is a Read by itself that no check refuses.
#[tactic(auto, unfolding(crate::specs::DoneReading::answer_length))]
fn answer_length(geometry: &Geometry, job: &Job) -> Option<usize>
    ensures { result ≡ spec.answer_length geometry.now job.now }
{
    match plan(geometry, job) {
        Plan::Ready => read_length(geometry, &job.body),
        Plan::Refused(_) => None,
    }
}

/// How many bytes are answered, where it is a Read.
pub fn read_length(geometry: &Geometry, body: &Body) -> Option<usize>
    ensures { result ≡ spec.read_length geometry.now.block_size (operation_of_body geometry.now body.now) }
{
    match body {
        Body::Single(command) if command.op == Op::Read => {
            Some((command.nlb as usize + 1) * geometry.block_size().bytes() as usize)
        }
        _ => None,
    }
}

/// The data, if there is any: a flag of 0, or a flag of 1 and then the data, where there may be some.
#[tactic(auto, unfolding(crate::specs::DoneReading::payload_at))]
pub fn payload_of(
    total: usize,
    length: Option<usize>,
    rest: Rest<'_>,
) -> Result<(Option<ReadData>, Rest<'_>), RecordFault>
    ensures { Gives (λ x. (x.0, left_of x.1)) result (payload_at total length (left_of rest.entry)) }
{
    let (flag, after) = u8_in(total, 0, 1, rest)?;
    if flag == 0 {
        return Ok((None, after));
    }
    match length {
        Some(length) => answer_of(total, length, after),
        None => Err(refused(total, rest)),
    }
}

/// The bytes that are answered, shared with the file.
#[tactic(auto, unfolding(crate::specs::DoneReading::answer_at, crate::specs::Fields::bytes_at))]
fn answer_of(
    total: usize,
    length: usize,
    rest: Rest<'_>,
) -> Result<(Option<ReadData>, Rest<'_>), RecordFault>
    ensures { Gives (λ x. (x.0, left_of x.1)) result (answer_at total length (left_of rest.entry)) }
{
    if rest.len() < length {
        return Err(cut_short(total, rest));
    }
    let payload = rest.part(length)?;
    Ok((Some(ReadData::shared(payload)), rest.after(length)))
}
