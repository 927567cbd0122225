//! The verdict on a trace, where it is explained or nothing is known, and where a reply is wrong by itself.
use crate::contradicted::push_command;
use crate::ordered::OrderNumbers;
use crate::words::{deallocated_word, held_word};
use nvm_judge::Stop;
use nvm_record::NoMemory;
use nvm_standard::Profile;
use nvm_trace::Trace;
use std::alloc::Global;

/// The lines of a trace that an order explains: that of a witness, and how many of its commands were under way together.
pub fn explained_text(
    alloc: Global,
    numbers: OrderNumbers,
    together: usize,
) -> Result<String, NoMemory> {
    let mut text = numbers.line(alloc)?;
    if together > 1 {
        write!(
            text,
            "at most {together} commands were under way together\n"
        )?;
    } else {
        text.push_str("no two commands were under way together\n")?;
    }
    Ok(text)
}

/// The same as an object of JSON, with its line feed.
pub fn explained_object(
    alloc: Global,
    numbers: OrderNumbers,
    together: usize,
) -> Result<String, NoMemory> {
    let OrderNumbers {
        jobs,
        points,
        profile,
    } = numbers;
    let reads = held_word(profile.held);
    let deallocated = deallocated_word(profile.deallocated);
    format!(in alloc;
        "{{\"verdict\":\"explained\",\"jobs\":{jobs},\"points\":{points},\"together\":{together},\"reads\":\"{reads}\",\"deallocated\":\"{deallocated}\"}}\n"
    )
}

/// Why nothing is known, in a word and in words.
fn stop_words(stop: Stop) -> (&'static str, &'static str) {
    match stop {
        Stop::Effort => (
            "effort",
            "neither an order of its points nor a contradiction was found: a higher --effort may find one",
        ),
        Stop::Everything => (
            "everything",
            "no order of its points explains it, but no contradiction by the rules was found",
        ),
    }
}

/// The lines of a trace of which nothing is known, held to this profile, and why the search for an order ended.
pub fn unknown_text(alloc: Global, profile: Profile, stop: Stop) -> Result<String, NoMemory> {
    let (_, why) = stop_words(stop);
    let reads = held_word(profile.held);
    let deallocated = deallocated_word(profile.deallocated);
    format!(in alloc; "unknown reads {reads} deallocated {deallocated}\n{why}\n")
}

/// The same as an object of JSON, with its line feed.
pub fn unknown_object(alloc: Global, profile: Profile, stop: Stop) -> Result<String, NoMemory> {
    let (word, why) = stop_words(stop);
    let reads = held_word(profile.held);
    let deallocated = deallocated_word(profile.deallocated);
    format!(in alloc;
        "{{\"verdict\":\"unknown\",\"reads\":\"{reads}\",\"deallocated\":\"{deallocated}\",\"stop\":\"{word}\",\"why\":\"{why}\"}}\n"
    )
}

/// The lines of a trace in which the reply to the command of this number is wrong by itself.
pub fn wrong_text(alloc: Global, trace: &Trace, command: u32) -> Result<String, NoMemory> {
    let mut text = format!(in alloc; "contradiction job {command}\n")?;
    push_wrong(&mut text, trace, command)?;
    Ok(text)
}

/// Appends the command of this number, and why its reply is wrong by itself.
pub(crate) fn push_wrong(text: &mut String, trace: &Trace, command: u32) -> Result<(), NoMemory> {
    push_command(text, trace, command)?;
    text.push_str(
        "no device may end a pair so: by the one status the comparison held, and by the other it didn't\n",
    )
}

/// The same as an object of JSON, with its line feed.
pub fn wrong_object(alloc: Global, command: u32) -> Result<String, NoMemory> {
    format!(in alloc;
        "{{\"verdict\":\"contradiction\",\"rule\":\"wrong reply\",\"job\":{command}}}\n"
    )
}
