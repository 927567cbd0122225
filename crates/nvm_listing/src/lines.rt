//! What a record holds as lines for people, one fact a line.

use crate::item::{Item, items};
use nvm_audit::{DoneJob, Record, Version};
use nvm_geometry::Geometry;
use nvm_list::{OperandsText, RangesText, deallocate_option, fuse_option};
use nvm_plan::{Body, Part, PartResult};
use nvm_record::{Command, NoMemory};
use nvm_store::{Act, Entry};
use nvm_text::{OpName, RunsText, StatusesText};
use std::alloc::Global;
use std::fmt;
use std::fmt::{Display, Formatter};

/// The record as text, a line for each fact: its head, its jobs, the history of each unit, and what each worker did, by its [`items`].
///
/// Hosts count from 1; jobs, units, places in histories and workers from 0; NABSN, NAWUN and NACWU are zeroes-based. Commands
/// are listed in the words of a command list, statuses as `type/code`, and data as runs of equal bytes. A unit without
/// entries has no line, nor has a worker that did nothing. The record may be unlawful.
///
/// `NoMemory` is answered where a growth was refused.
pub fn list_record(alloc: Global, run: &Record) -> Result<String, NoMemory> {
    let mut text = String::new(alloc);
    push_head(&mut text, run)?;
    for item in &items(alloc, run)? {
        push_item(&mut text, *item)?;
    }
    Ok(text)
}

/// Appends the version, the namespace, and how much there is of everything.
fn push_head(text: &mut String, run: &Record) -> Result<(), NoMemory> {
    let version = version_number(run.version);
    write!(text, "record version {version}\n")?;
    push_namespace(text, run.geometry)?;
    let limit = run.limit.entries();
    let workers = run.workers;
    let jobs = run.jobs.len();
    let units = run.units.len();
    write!(
        text,
        "limit {limit} workers {workers} jobs {jobs} units {units}\n"
    )
}

/// The number of a version of records.
pub(crate) fn version_number(version: Version) -> u8 {
    match version {
        Version::One => 1,
        Version::Two => 2,
    }
}

/// Appends the line of a namespace: `namespace`, and its six numbers by their names.
pub fn push_namespace(text: &mut String, geometry: Geometry) -> Result<(), NoMemory> {
    let nsze = geometry.nsze();
    let block = geometry.block_size().bytes();
    let nabsn = geometry.nabsn();
    let nabo = geometry.nabo();
    let nawun = geometry.nawun();
    let nacwu = geometry.nacwu();
    write!(
        text,
        "namespace nsze {nsze} block {block} nabsn {nabsn} nabo {nabo} nawun {nawun} nacwu {nacwu}\n"
    )
}

/// Appends the lines of an item.
fn push_item(text: &mut String, item: Item<'_>) -> Result<(), NoMemory> {
    match item {
        Item::Job { number, job } => push_body(text, number, job.host, &job.body),
        Item::Entry { unit, place, entry } => push_entry(text, unit, place, entry),
        Item::Done { worker, done } => push_done(text, worker, done),
    }
}

/// Appends a line for each command of the job of this number.
pub fn push_body(text: &mut String, number: usize, host: u16, body: &Body) -> Result<(), NoMemory> {
    match body {
        Body::Single(command) => push_command(text, number, host, command),
        Body::Pair(first, second) => {
            push_command(text, number, host, first)?;
            push_command(text, number, host, second)
        }
    }
}

/// Appends the line of one command.
fn push_command(
    text: &mut String,
    number: usize,
    host: u16,
    command: &Command,
) -> Result<(), NoMemory> {
    let cid = command.cid;
    let nsid = command.nsid;
    let name = OpName(command.op);
    let operands = OperandsText(command);
    let deallocate = deallocate_option(command.op);
    let fuse = fuse_option(command.fuse);
    write!(
        text,
        "job {number} host {host} cid {cid} nsid {nsid} {name}{operands}{deallocate}{fuse}\n"
    )
}

/// Appends the line of the entry at this place of a unit's history.
pub fn push_entry(
    text: &mut String,
    unit: usize,
    place: usize,
    entry: &Entry,
) -> Result<(), NoMemory> {
    let worker = entry.pass;
    let job = entry.job;
    let act = ActText(&entry.act);
    write!(
        text,
        "unit {unit} place {place} worker {worker} job {job}{act}\n"
    )
}

/// What was done, on which blocks or ranges, and with which data, after a space.
#[derive(Clone, Copy)]
pub struct ActText<'a>(pub &'a Act);

impl Display for ActText<'_> {
    fn fmt<W: fmt::Write>(&self, f: &mut Formatter<W>) -> fmt::Result {
        match self.0 {
            Act::Write {
                first,
                blocks,
                payload,
            } => write!(
                f,
                " write {first} {blocks} {}",
                RunsText(payload.as_slice())
            ),
            Act::Zeroes { first, blocks } => write!(f, " zeroes {first} {blocks}"),
            Act::Uncorrectable { first, blocks } => { write!(f, " uncorrectable {first} {blocks}") }
            Act::Pair {
                first,
                blocks,
                compare,
                write,
            } => {
                let compare = RunsText(compare.as_slice());
                let write = RunsText(write.as_slice());
                write!(f, " pair {first} {blocks} {compare} {write}")
            }
            Act::Deallocate { ranges, .. } => {
                write!(f, " deallocate {}", RangesText(ranges.as_slice()))
            }
        }
    }
}

/// Appends the lines of a job that a worker did: its statuses, its parts, and a Read's data.
pub fn push_done(text: &mut String, worker: usize, done: &DoneJob) -> Result<(), NoMemory> {
    let job = done.job;
    let statuses = StatusesText(done.statuses);
    write!(text, "worker {worker} job {job} status {statuses}\n")?;
    for part in done.parts.as_slice() {
        push_part(text, worker, job, *part)?;
    }
    match &done.payload {
        Some(read) => write!(
            text,
            "worker {worker} job {job} data {}\n",
            RunsText(read.as_slice())
        ),
        None => Ok(()),
    }
}

/// Appends the line of one part.
pub fn push_part(text: &mut String, worker: usize, job: u32, part: Part) -> Result<(), NoMemory> {
    let Part {
        unit,
        point,
        result,
    } = part;
    let ended = result_word(result);
    write!(
        text,
        "worker {worker} job {job} unit {unit} point {point} {ended}\n"
    )
}

/// The word for how a part ended.
pub fn result_word(ended: PartResult) -> &'static str {
    match ended {
        PartResult::Done => "done",
        PartResult::Failed => "failed",
        PartResult::Looked => "looked",
        PartResult::NoMemory => "no-memory",
        PartResult::Full => "full",
    }
}
