//! A contradiction of a trace in brief: what is wrong, in a sentence, and whose data was found in the place of long data.
use crate::contradicted::{first_line, push_command, push_facts_told};
use crate::named::commands_named;
use crate::sentence::push_sentence;
use crate::sources::source_of;
use crate::verdict::wrong_text;
use nvm_record::NoMemory;
use nvm_standard::{Contradiction, Found, Point, Points, PointsFault, Profile, points_of};
use nvm_trace::Trace;
use std::alloc::{AllocError, Global};

/// A word of a line that is longer isn't shown: it is data.
const LONGEST: usize = 40;
/// Of so many blocks of a command it is told at most whose data was found in them.
const BLOCKS: u32 = 64;

/// The lines of a contradicted trace as [`contradiction_text`](crate::contradiction_text) has them, in brief: behind the first is a sentence
/// that says what is wrong, long data of commands is left out, and below a command whose data is left out is whose data it found.
pub fn contradiction_brief(
    alloc: Global,
    trace: &Trace,
    profile: Profile,
    contradiction: &Contradiction,
) -> Result<String, NoMemory> {
    let points = match points_of(alloc, trace, profile) {
        Ok(points) => points,
        Err(PointsFault::Wrong { command }) => return wrong_text(alloc, trace, command),
        Err(PointsFault::NoMemory) => return Err(AllocError),
    };
    let commands = commands_named(alloc, &points, contradiction)?;
    let mut text = first_line(alloc, profile, commands.len())?;
    push_brief(alloc, &mut text, trace, &points, &commands, contradiction)?;
    Ok(text)
}

/// Appends the sentence, the commands of these numbers in brief, the facts and what they come to.
pub(crate) fn push_brief(
    alloc: Global,
    text: &mut String,
    trace: &Trace,
    points: &Points<'_>,
    commands: &[u32],
    contradiction: &Contradiction,
) -> Result<(), NoMemory> {
    push_sentence(alloc, text, points, contradiction)?;
    text.push_str("\n")?;
    for number in commands {
        push_brief_command(alloc, text, trace, points, *number)?;
    }
    push_facts_told(text, points, contradiction)
}

/// Appends the line of the command of this number in brief, and whose data it found where data was left out, and else in torn blocks alone.
fn push_brief_command(
    alloc: Global,
    text: &mut String,
    trace: &Trace,
    points: &Points<'_>,
    number: u32,
) -> Result<(), NoMemory> {
    let mut line = String::new(alloc);
    push_command(&mut line, trace, number)?;
    let shown = push_words(text, line.as_bytes().trim_ascii_end())?;
    push_found(alloc, text, points, number, shown)
}

/// What of a line's words was shown.
#[derive(Clone, Copy, Debug, PartialEq, Eq)]
enum Shown {
    /// All.
    All,
    /// Not its data.
    NoData,
}

/// Appends the words of a line, those that are too long as `..`.
fn push_words(text: &mut String, line: &[u8]) -> Result<Shown, NoMemory> {
    let mut shown = Shown::All;
    for (place, word) in line.split(|byte| *byte == b' ').enumerate() {
        if place > 0 {
            text.push_str(" ")?;
        }
        if word.len() > LONGEST {
            text.push_str("..")?;
            shown = Shown::NoData;
        } else if let Ok(word) = str::from_utf8(word) {
            text.push_str(word)?;
        }
    }
    text.push_str("\n")?;
    Ok(shown)
}

/// Appends whose data the command of this number found. Where its data is shown only torn blocks are told.
fn push_found(
    alloc: Global,
    text: &mut String,
    points: &Points<'_>,
    job: u32,
    shown: Shown,
) -> Result<(), NoMemory> {
    for point in &points.points {
        if point.command == job {
            if let Found::Bytes(_) = point.found {
                push_point(alloc, text, points, point, shown)?;
            }
        }
    }
    Ok(())
}

/// Appends whose data the point found, a line for each run of blocks.
fn push_point(
    alloc: Global,
    text: &mut String,
    points: &Points<'_>,
    point: &Point<'_>,
    shown: Shown,
) -> Result<(), NoMemory> {
    let count = point.blocks.min(BLOCKS);
    let mut first = point.first;
    let mut before = source_of(alloc, points, point, first)?;
    for place in 1..count {
        let block = point.first.saturating_add(place);
        let source = source_of(alloc, points, point, block)?;
        if source.as_bytes() != before.as_bytes() {
            push_run(text, first, block.saturating_sub(1), before.as_str(), shown)?;
            first = block;
            before = source;
        }
    }
    let last = point.first.saturating_add(count.saturating_sub(1));
    push_run(text, first, last, before.as_str(), shown)?;
    if point.blocks > BLOCKS && shown == Shown::NoData {
        text.push_str("  ..\n")?;
    }
    Ok(())
}

/// Appends whose data was found in these blocks.
fn push_run(
    text: &mut String,
    first: u32,
    last: u32,
    source: &str,
    shown: Shown,
) -> Result<(), NoMemory> {
    if shown == Shown::All && !source.as_bytes().starts_with(b"torn") {
        Ok(())
    } else if first == last {
        write!(text, "  found in LBA {first}: {source}\n")
    } else {
        write!(text, "  found in LBA {first} to {last}: {source}\n")
    }
}
