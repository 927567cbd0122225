//! A contradiction of a trace, for people and for programs.
use crate::command_object::push_command_object;
use crate::fact_line::{push_conclusion, push_fact};
use crate::fact_object::{push_conclusion_object, push_fact_object};
use crate::named::commands_named;
use crate::verdict::{wrong_object, wrong_text};
use crate::words::{deallocated_word, held_word};
use nvm_record::NoMemory;
use nvm_standard::{Contradiction, Points, PointsFault, Profile, points_of};
use nvm_trace::Trace;
use nvm_trace_text::push_job;
use std::alloc::{AllocError, Global};

/// The lines of a contradicted trace, each with its line feed: how many commands the contradiction names, and what the device was held to;
/// these commands, by rising number, each as the trace's text has it; the facts, in their order; and what they come to.
///
/// The contradiction is told, and not judged. Where a reply of the trace is wrong by itself that is told in its place.
pub fn contradiction_text(
    alloc: Global,
    trace: &Trace,
    profile: Profile,
    contradiction: &Contradiction,
) -> Result<String, NoMemory> {
    let points = match points_of(alloc, trace, profile) {
        Ok(points) => points,
        Err(PointsFault::Wrong { command }) => return wrong_text(alloc, trace, command),
        Err(PointsFault::NoMemory) => return Err(AllocError),
    };
    let commands = commands_named(alloc, &points, contradiction)?;
    let mut text = first_line(alloc, profile, commands.len())?;
    for number in &commands {
        push_command(&mut text, trace, *number)?;
    }
    push_facts_told(&mut text, &points, contradiction)?;
    Ok(text)
}

/// The same as an object of JSON, on one line with its line feed. In it a command is named by its number. No string has to be escaped.
pub fn contradiction_object(
    alloc: Global,
    trace: &Trace,
    profile: Profile,
    contradiction: &Contradiction,
) -> Result<String, NoMemory> {
    match points_of(alloc, trace, profile) {
        Ok(points) => object_among(alloc, trace, &points, profile, contradiction),
        Err(PointsFault::Wrong { command }) => wrong_object(alloc, command),
        Err(PointsFault::NoMemory) => Err(AllocError),
    }
}

/// The first line of a contradiction that names so many commands.
pub(crate) fn first_line(
    alloc: Global,
    profile: Profile,
    count: usize,
) -> Result<String, NoMemory> {
    let reads = held_word(profile.held);
    let deallocated = deallocated_word(profile.deallocated);
    format!(in alloc; "contradiction commands {count} reads {reads} deallocated {deallocated}\n")
}

/// Appends the facts and what they come to, a line each.
pub(crate) fn push_facts_told(
    text: &mut String,
    points: &Points<'_>,
    contradiction: &Contradiction,
) -> Result<(), NoMemory> {
    for fact in &contradiction.facts {
        push_fact(text, points, *fact)?;
        text.push_str("\n")?;
    }
    push_conclusion(text, points, &contradiction.facts, contradiction.conclusion)?;
    text.push_str("\n")
}

/// Appends the line of the command of this number, if the trace has it.
pub(crate) fn push_command(text: &mut String, trace: &Trace, number: u32) -> Result<(), NoMemory> {
    match trace.jobs.get(number as usize) {
        Some(job) => {
            write!(text, "job {number} ")?;
            push_job(text, job)
        }
        None => Ok(()),
    }
}

/// The object of a contradiction of these points.
fn object_among(
    alloc: Global,
    trace: &Trace,
    points: &Points<'_>,
    profile: Profile,
    contradiction: &Contradiction,
) -> Result<String, NoMemory> {
    let commands = commands_named(alloc, points, contradiction)?;
    let reads = held_word(profile.held);
    let deallocated = deallocated_word(profile.deallocated);
    let mut text = format!(in alloc;
        "{{\"verdict\":\"contradiction\",\"reads\":\"{reads}\",\"deallocated\":\"{deallocated}\",\"commands\":["
    )?;
    push_commands(&mut text, trace, &commands)?;
    text.push_str("],\"facts\":[")?;
    push_facts(&mut text, points, contradiction)?;
    text.push_str("],\"conclusion\":")?;
    push_conclusion_object(
        &mut text,
        points,
        &contradiction.facts,
        contradiction.conclusion,
    )?;
    text.push_str("}\n")?;
    Ok(text)
}

/// Appends an object for each of the commands.
fn push_commands(text: &mut String, trace: &Trace, commands: &[u32]) -> Result<(), NoMemory> {
    let mut comma = "";
    for number in commands {
        if let Some(job) = trace.jobs.get(*number as usize) {
            text.push_str(comma)?;
            push_command_object(text, *number as usize, job)?;
            comma = ",";
        }
    }
    Ok(())
}

/// Appends an object for each of the facts.
fn push_facts(
    text: &mut String,
    points: &Points<'_>,
    contradiction: &Contradiction,
) -> Result<(), NoMemory> {
    let mut comma = "";
    for fact in &contradiction.facts {
        text.push_str(comma)?;
        push_fact_object(text, points, *fact)?;
        comma = ",";
    }
    Ok(())
}
