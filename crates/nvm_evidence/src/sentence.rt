//! What a contradiction comes to, in a sentence for whoever has to mend the device.
use crate::between::came_between;
use crate::blocks::{FoundBlock, Other, found_at, is_before, was_at_first};
use crate::point_name::command_of;
use crate::sources::{Owner, are_torn, parts_of, writers_of};
use nvm_record::NoMemory;
use nvm_standard::{Conclusion, Contradiction, Fact, Found, Points};
use std::alloc::Global;

/// Appends the sentence, without a line feed.
pub(crate) fn push_sentence(
    alloc: Global,
    text: &mut String,
    points: &Points<'_>,
    contradiction: &Contradiction,
) -> Result<(), NoMemory> {
    match contradiction.conclusion {
        Conclusion::Loop => push_loop(text, points, &contradiction.facts),
        Conclusion::Nowhere { reader } => {
            let job = command_of(points, reader);
            write!(
                text,
                "Job {job} failed to compare, though each of its blocks held what it compared."
            )
        }
        Conclusion::Nobody { reader, block } => {
            push_found(alloc, text, points, &contradiction.facts, reader, block)
        }
    }
}

/// A command that was found half done: what it put was in one block, and not in another.
#[derive(Clone, Copy)]
struct HalfDone {
    reader: u32,
    writer: u32,
    done: u32,
    undone: u32,
}

/// The command that was found half done by one of these facts, if there is one.
fn half_done(facts: &[Fact]) -> Option<HalfDone> {
    for fact in facts {
        let found = match *fact {
            Fact::TiedBefore {
                reader,
                block,
                entry,
                by,
            } => HalfDone {
                reader,
                writer: entry,
                done: block,
                undone: by,
            },
            Fact::TiedAfter {
                entry,
                reader,
                block,
                by,
            } => HalfDone {
                reader,
                writer: entry,
                done: by,
                undone: block,
            },
            _ => continue,
        };
        if is_source(facts, found) && is_undone(facts, found) {
            return Some(found);
        }
    }
    None
}

/// Whether one of the facts says that the reader found what the writer put in the block that is done.
fn is_source(facts: &[Fact], found: HalfDone) -> bool {
    facts.contains(&Fact::Source {
        writer: found.writer,
        reader: found.reader,
        block: found.done,
    })
}

/// Whether one of the facts says that the reader found in the block that is undone what was there before the writer.
fn is_undone(facts: &[Fact], found: HalfDone) -> bool {
    facts.iter().any(|fact| match *fact {
        Fact::Over {
            reader,
            writer,
            block,
            ..
        }
        | Fact::First {
            reader,
            writer,
            block,
        } => writer == found.writer && reader == found.reader && block == found.undone,
        _ => false,
    })
}

/// Appends that a command comes before itself.
fn push_loop(text: &mut String, points: &Points<'_>, facts: &[Fact]) -> Result<(), NoMemory> {
    match half_done(facts) {
        Some(found) => {
            let reader = command_of(points, found.reader);
            let writer = command_of(points, found.writer);
            let HalfDone { done, undone, .. } = found;
            write!(
                text,
                "Job {reader} found job {writer} half done: what it put was in LBA {done}, and not in LBA {undone}."
            )
        }
        None => text.push_str("No order of these commands gives what their hosts saw."),
    }
}

/// Appends that the reader found in the block what nobody can have left there.
fn push_found(
    alloc: Global,
    text: &mut String,
    points: &Points<'_>,
    facts: &[Fact],
    reader: u32,
    block: u32,
) -> Result<(), NoMemory> {
    let job = command_of(points, reader);
    let Some(point) = points.points.get(reader as usize) else {
        return push_wrong(text, job, block);
    };
    match (point.found, found_at(points, point, block)) {
        (Found::OtherThan(_), _) => write!(
            text,
            "Job {job} failed to compare, though LBA {block} held what it compared."
        ),
        (Found::AnyBytes, _) => write!(
            text,
            "Job {job} read LBA {block} without an error, though a Write Uncorrectable had marked it."
        ),
        (_, Some(bytes)) => {
            let read = FoundBlock {
                number: reader,
                point,
                block,
                bytes,
            };
            push_read(alloc, text, points, facts, &read)
        }
        _ => push_wrong(text, job, block),
    }
}

/// Appends what is said where nothing more is known.
fn push_wrong(text: &mut String, job: u32, block: u32) -> Result<(), NoMemory> {
    write!(
        text,
        "Job {job} found in LBA {block} what can't have been there then."
    )
}

/// Appends whose data was found in the block, and what should have been there.
fn push_read(
    alloc: Global,
    text: &mut String,
    points: &Points<'_>,
    facts: &[Fact],
    read: &FoundBlock<'_, '_>,
) -> Result<(), NoMemory> {
    let job = read.point.command;
    let block = read.block;
    let writers = writers_of(alloc, points, read.point, block, read.bytes)?;
    if let Some(writer) = writers.first() {
        return push_data(text, points, facts, read, *writer);
    }
    if was_at_first(points, read.bytes) {
        write!(
            text,
            "Job {job} found in LBA {block} the zeroes that were there at first"
        )?;
        return push_since(text, points, facts, read, None);
    }
    let parts = parts_of(alloc, points, read.point, block, read.bytes)?;
    match parts.as_slice() {
        [first, second, ..] if are_torn(&parts) => {
            push_torn(text, job, block, first.owner, second.owner)
        }
        _ => write!(
            text,
            "Job {job} found in LBA {block} bytes that no other command put there."
        ),
    }
}

/// Appends that the data of the writer was found.
fn push_data(
    text: &mut String,
    points: &Points<'_>,
    facts: &[Fact],
    read: &FoundBlock<'_, '_>,
    writer: u32,
) -> Result<(), NoMemory> {
    let job = read.point.command;
    let block = read.block;
    let by = command_of(points, writer);
    if is_before(points, facts, read.number, writer, block) {
        return write!(
            text,
            "Job {job} found in LBA {block} what job {by} put there only later."
        );
    }
    write!(
        text,
        "Job {job} found in LBA {block} what job {by} had left there"
    )?;
    push_since(text, points, facts, read, Some(writer))
}

/// Appends what was there between the writer, if there is one, and the reader, and ends the sentence.
fn push_since(
    text: &mut String,
    points: &Points<'_>,
    facts: &[Fact],
    read: &FoundBlock<'_, '_>,
    writer: Option<u32>,
) -> Result<(), NoMemory> {
    match came_between(points, facts, read, writer) {
        Some(found) => {
            let by = found.job;
            match found.other {
                Other::Put => write!(text, ", though job {by} had put other data there since."),
                Other::Found => write!(text, ", though job {by} had found other data there since."),
            }
        }
        None => text.push_str(", and that can't have been there then."),
    }
}

/// Appends that the block is torn, and whose its first two parts are.
fn push_torn(
    text: &mut String,
    job: u32,
    block: u32,
    first: Owner,
    second: Owner,
) -> Result<(), NoMemory> {
    match (first, second) {
        (Owner::Job(first), Owner::Job(second)) => write!(
            text,
            "Job {job} found LBA {block} torn: one part of it is of job {first}, another of job {second}."
        ),
        (Owner::Job(one), _) | (_, Owner::Job(one)) => write!(
            text,
            "Job {job} found LBA {block} torn: one part of it is of job {one}, another still as it was at first."
        ),
        _ => write!(text, "Job {job} found LBA {block} torn."),
    }
}
