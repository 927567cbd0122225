//! The failure of a list that has lines which are no commands.
ghost use Rattle.std.specs.Prelude.{◌≡◌};

use crate::failure::{Failure, line_of};
use crate::fault::Fault;
use crate::hint::{Wanted, instead};
use nvm_listing::{WrongLine, wrong_lines};
use nvm_record::BlockSize;
use std::alloc::{AllocError, Global};

/// The most wrong lines that are named after the first.
pub(crate) const TOLD: usize = 20;

/// The failure of a list that was read from a path, whose commands are those of a list without expectations. What helps is what the file is
/// instead, or else the line, and the other lines that are no commands.
pub fn of_commands(
    alloc: Global,
    fault: Fault,
    path: &str,
    list: &[u8],
    commands: &[u8],
    size: BlockSize,
) -> Failure
    ensures { result.fault ≡ fault }
{
    let hint = match fault {
        Fault::Line { line, .. } | Fault::ListLine { line, .. } => {
            wrong_commands(alloc, path, list, line, commands, size)
        }
        _ => Ok(None),
    };
    Failure::hinted(fault, hint)
}

/// What helps where a line of a list is wrong: what the file is instead, or else the line.
pub fn wrong_line(
    alloc: Global,
    path: &str,
    list: &[u8],
    line: u64,
) -> Result<Option<String>, AllocError> {
    match instead(alloc, path, list, Wanted::List)? {
        None => line_of(alloc, None, list, line),
        told => Ok(told),
    }
}

/// What helps where a line is no command: what the file is instead, or else the line, and on further lines what was expected in each of the
/// wrong ones after it, or how many more there are.
fn wrong_commands(
    alloc: Global,
    path: &str,
    list: &[u8],
    line: u64,
    commands: &[u8],
    size: BlockSize,
) -> Result<Option<String>, AllocError> {
    if let Some(told) = instead(alloc, path, list, Wanted::List)? {
        return Ok(Some(told));
    }
    let mut lines = Vec::new(alloc);
    if let Some(first) = line_of(alloc, None, list, line)? {
        lines.push(first)?;
    }
    let wrong = wrong_lines(alloc, commands, size)?;
    for WrongLine { line, expected } in wrong.iter().skip(1).take(TOLD) {
        lines.push(format!(in alloc; "line {line}: {expected}")?)?;
    }
    if wrong.len() > TOLD + 1 {
        let more = wrong.len() - TOLD - 1;
        let noun = if more == 1 { "line" } else { "lines" };
        lines.push(format!(in alloc; "and {more} {noun} more")?)?;
    }
    joined(alloc, &lines)
}

/// The lines, each but the first after a line feed and two spaces; `None` where there are none.
pub(crate) fn joined(alloc: Global, lines: &[String]) -> Result<Option<String>, AllocError> {
    if lines.is_empty() {
        return Ok(None);
    }
    let mut text = String::new(alloc);
    for (number, line) in lines.iter().enumerate() {
        let between = if number == 0 { "" } else { "\n  " };
        write!(text, "{between}{line}")?;
    }
    Ok(Some(text))
}
