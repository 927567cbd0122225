//! What a contradiction says of a trace.
use crate::brief::push_brief;
use crate::evidence::HeldContradiction;
use crate::named::commands_named;
use crate::refuted::Refuted;
use crate::refuting::refute_contradiction;
use crate::verdict::push_wrong;
use nvm_record::NoMemory;
use nvm_standard::{PointsFault, points_of};
use nvm_trace::Trace;
use std::alloc::{AllocError, Global};

/// What a contradiction comes to against a trace, and, where it is taken, the commands that it names, its facts and what they come to, as
/// [`contradiction_brief`](crate::contradiction_brief) has them. Where a reply of the trace is wrong by itself, its command and why.
pub fn contradiction_story(
    alloc: Global,
    trace: &Trace,
    held: &HeldContradiction,
) -> Result<String, NoMemory> {
    let refuted = refute_contradiction(alloc, trace, held)?;
    let mut text = refuted.line(alloc)?;
    match refuted {
        Refuted::Refuted { .. } => push_taken(alloc, &mut text, trace, held)?,
        Refuted::Wrong { command } => push_wrong(&mut text, trace, command)?,
        Refuted::Unrefuted(_) => {}
    }
    Ok(text)
}

/// Appends what a contradiction says that is taken.
fn push_taken(
    alloc: Global,
    text: &mut String,
    trace: &Trace,
    held: &HeldContradiction,
) -> Result<(), NoMemory> {
    match points_of(alloc, trace, held.profile) {
        Ok(points) => {
            let commands = commands_named(alloc, &points, &held.contradiction)?;
            push_brief(alloc, text, trace, &points, &commands, &held.contradiction)
        }
        Err(PointsFault::Wrong { .. }) => Ok(()),
        Err(PointsFault::NoMemory) => Err(AllocError),
    }
}
