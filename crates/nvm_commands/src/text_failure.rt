//! What helps where lines of a trace's text are wrong.
use crate::failure::line_of;
use crate::front::STANDARD;
use crate::hint::{Wanted, instead};
use crate::list_failure::{TOLD, joined};
use nvm_trace_text::{TextFault, TraceExpected, trace_of_text};
use std::alloc::{AllocError, Global};

/// Of a longer text only the first wrong line is told: for each more it is read once more.
const LONGEST: usize = 1 << 24;

/// What helps where a line is wrong of a text that was read from a path: what the file is instead, or else the line, and the other wrong
/// lines.
pub fn wrong_text(
    alloc: Global,
    path: &str,
    text: &[u8],
    line: u64,
    expected: TraceExpected,
) -> Result<Option<String>, AllocError> {
    if let Some(told) = instead(alloc, path, text, Wanted::TraceText)? {
        return Ok(Some(told));
    }
    let mut lines = Vec::new(alloc);
    let named = if path == STANDARD { None } else { Some(path) };
    if let Some(told) = line_of(alloc, named, text, line)? {
        lines.push(told)?;
    }
    // Without its head no other line can be read.
    let is_head = matches!(expected, TraceExpected::Head | TraceExpected::Geometry(_));
    if text.len() <= LONGEST && !is_head {
        push_others(alloc, &mut lines, text, line)?;
    }
    joined(alloc, &lines)
}

/// Appends what was expected in each wrong line after the first one, or that there are more.
fn push_others(
    alloc: Global,
    lines: &mut Vec<String>,
    text: &[u8],
    first: u64,
) -> Result<(), AllocError> {
    let mut left = Vec::with_capacity(alloc, text.len())?;
    left.extend_from_slice(text)?;
    let mut wrong = first;
    for told in 0..=TOLD {
        comment_out(&mut left, wrong);
        match trace_of_text(alloc, &left) {
            Err(TextFault::Line { .. }) if told == TOLD => {
                lines.push(String::from_str(alloc, "and more")?)?;
            }
            Err(TextFault::Line { line, expected }) => {
                lines.push(format!(in alloc; "line {line}: {expected}")?)?;
                wrong = line;
            }
            Err(TextFault::NoMemory) => return Err(AllocError),
            Ok(_) | Err(TextFault::NoHead) => return Ok(()),
        }
    }
    Ok(())
}

/// Makes the line of this number a comment. Lines count from 1.
fn comment_out(text: &mut Vec<u8>, number: u64) {
    let mut line: u64 = 1;
    for byte in text.iter_mut() {
        if line == number {
            *byte = b'#';
            return;
        }
        if *byte == b'\n' {
            line = line.saturating_add(1);
        }
    }
}
