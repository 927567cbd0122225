//! What a record and a run hold as objects of JSON, one a line.

use crate::answer::Answer;
use crate::item::{Item, items};
use crate::lines::{result_word, version_number};
use crate::values::{DataValue, SentObjects, StatusStrings, words_of};
use nvm_audit::{DoneJob, Record};
use nvm_list::RangesText;
use nvm_plan::{Job, Part};
use nvm_record::NoMemory;
use nvm_store::{Act, Entry};
use nvm_text::{RunsText, StatusText};
use std::alloc::Global;
use std::fmt;
use std::fmt::{Display, Formatter};

/// An object of JSON for each answer, one a line.
///
/// It has the command's host, its identifier `cid`, its words as `command`, its `status`, and as `data` what a Read was answered, in
/// runs, or `null`. `NoMemory` is answered where a growth was refused.
pub fn answers_as_objects(alloc: Global, answers: &[Answer<'_>]) -> Result<String, NoMemory> {
    let mut text = String::new(alloc);
    for answer in answers {
        push_answer(&mut text, *answer)?;
    }
    Ok(text)
}

/// Appends the object of an answer.
fn push_answer(text: &mut String, answer: Answer<'_>) -> Result<(), NoMemory> {
    let Answer { host, command, .. } = answer;
    let cid = command.cid;
    let words = words_of(command);
    let status = StatusText(answer.status);
    let read = DataValue(answer.answered);
    write!(
        text,
        "{{\"host\":{host},\"cid\":{cid},\"command\":\"{words}\",\"status\":\"{status}\",\"data\":{read}}}\n"
    )
}

/// The record as objects of JSON, one a line: its head, its jobs, the history of each unit, and what each worker did, by its
/// [`items`].
///
/// The head has the `version` of the record's file, the namespace's numbers, the `limit` of a unit's entries, and how many `workers`,
/// `jobs` and `units` there are. A job has its number as `job`, its `host`, and the commands that were `sent`. An entry has its `unit`,
/// its `place` there, the `worker` and the `job` that made it, and its `deed`, with the blocks, the data or the ranges of that. A job
/// that was done has its `worker`, its number as `job`, its `statuses`, its `parts`, and as `data` what a Read was answered, in runs, or
/// `null`.
///
/// Hosts count from 1; jobs, units, places in histories and workers from 0; NABSN, NAWUN and NACWU are zeroes-based. A unit without
/// entries has no object, nor has a worker that did nothing. The record may be unlawful.
///
/// `NoMemory` is answered where a growth was refused.
pub fn list_as_objects(alloc: Global, run: &Record) -> Result<String, NoMemory> {
    let mut text = String::new(alloc);
    push_head(&mut text, run)?;
    for item in &items(alloc, run)? {
        push_item(&mut text, *item)?;
    }
    Ok(text)
}

/// Appends the object of the record's head.
fn push_head(text: &mut String, run: &Record) -> Result<(), NoMemory> {
    let version = version_number(run.version);
    let nsze = run.geometry.nsze();
    let block = run.geometry.block_size().bytes();
    let nabsn = run.geometry.nabsn();
    let nabo = run.geometry.nabo();
    let nawun = run.geometry.nawun();
    let nacwu = run.geometry.nacwu();
    write!(
        text,
        "{{\"version\":{version},\"nsze\":{nsze},\"block\":{block},\"nabsn\":{nabsn},\"nabo\":{nabo},\"nawun\":{nawun},\"nacwu\":{nacwu},"
    )?;
    let limit = run.limit.entries();
    let workers = run.workers;
    let jobs = run.jobs.len();
    let units = run.units.len();
    write!(
        text,
        "\"limit\":{limit},\"workers\":{workers},\"jobs\":{jobs},\"units\":{units}}}\n"
    )
}

/// Appends the object of an item.
fn push_item(text: &mut String, item: Item<'_>) -> Result<(), NoMemory> {
    match item {
        Item::Job { number, job } => push_job(text, number, job),
        Item::Entry { unit, place, entry } => push_entry(text, unit, place, entry),
        Item::Done { worker, done } => push_done(text, worker, done),
    }
}

/// Appends the object of the job of this number.
fn push_job(text: &mut String, number: usize, job: &Job) -> Result<(), NoMemory> {
    let host = job.host;
    let sent = SentObjects(&job.body);
    write!(
        text,
        "{{\"job\":{number},\"host\":{host},\"sent\":[{sent}]}}\n"
    )
}

/// Appends the object of the entry at this place of a unit's history.
fn push_entry(text: &mut String, unit: usize, place: usize, entry: &Entry) -> Result<(), NoMemory> {
    let worker = entry.pass;
    let job = entry.job;
    let act = ActMembers(&entry.act);
    write!(
        text,
        "{{\"unit\":{unit},\"place\":{place},\"worker\":{worker},\"job\":{job},\"deed\":{act}}}\n"
    )
}

/// What was done, on which blocks or ranges, and with which data: the value of `deed`, and the members after it.
#[derive(Clone, Copy)]
struct ActMembers<'a>(&'a Act);

impl Display for ActMembers<'_> {
    fn fmt<W: fmt::Write>(&self, f: &mut Formatter<W>) -> fmt::Result {
        match self.0 {
            Act::Write {
                first,
                blocks,
                payload,
            } => {
                let written = RunsText(payload.as_slice());
                write!(
                    f,
                    "\"write\",\"lba\":{first},\"blocks\":{blocks},\"data\":\"{written}\""
                )
            }
            Act::Zeroes { first, blocks } => {
                write!(f, "\"zeroes\",\"lba\":{first},\"blocks\":{blocks}")
            }
            Act::Uncorrectable { first, blocks } => {
                write!(f, "\"uncorrectable\",\"lba\":{first},\"blocks\":{blocks}")
            }
            Act::Pair {
                first,
                blocks,
                compare,
                write,
            } => {
                let compare = RunsText(compare.as_slice());
                let write = RunsText(write.as_slice());
                write!(
                    f,
                    "\"pair\",\"lba\":{first},\"blocks\":{blocks},\"compare\":\"{compare}\",\"write\":\"{write}\""
                )
            }
            Act::Deallocate { ranges, .. } => {
                let ranges = RangesText(ranges.as_slice());
                write!(f, "\"deallocate\",\"ranges\":\"{ranges}\"")
            }
        }
    }
}

/// Appends the object of a job that a worker did.
fn push_done(text: &mut String, worker: usize, done: &DoneJob) -> Result<(), NoMemory> {
    let job = done.job;
    let statuses = StatusStrings(done.statuses);
    write!(
        text,
        "{{\"worker\":{worker},\"job\":{job},\"statuses\":[{statuses}],\"parts\":["
    )?;
    let mut comma = "";
    for part in done.parts.as_slice() {
        text.push_str(comma)?;
        push_part(text, *part)?;
        comma = ",";
    }
    let read = DataValue(done.payload.as_ref());
    write!(text, "],\"data\":{read}}}\n")
}

/// Appends the object of one part.
fn push_part(text: &mut String, part: Part) -> Result<(), NoMemory> {
    let Part {
        unit,
        point,
        result,
    } = part;
    let ended = result_word(result);
    write!(
        text,
        "{{\"unit\":{unit},\"point\":{point},\"result\":\"{ended}\"}}"
    )
}
