//! Failures: a fault, and the hint on the line below it.
ghost use Rattle.std.specs.Prelude.{◌≡◌};
ghost use Rattle.nvm_commands.specs.declared.fault.Fault.TheVariants.{NoMemory};

use crate::fault::Fault;
use crate::hint::{VERSIONS, Wanted, about, instead, no_namespace, other_block};
use crate::text_failure::wrong_text;
use nvm_explain::field_told;
use nvm_record::Payload;
use std::alloc::{AllocError, AllocFailed, Global};
use std::fmt;

/// What helps whoever reads a fault: always the same text, or one that was made for it.
#[derive(Drop)]
pub enum Hint {
    Known(&'static str),
    Made(String),
}

impl fmt::Display for Hint {
    fn fmt<W: fmt::Write>(&self, f: &mut fmt::Formatter<W>) -> fmt::Result {
        match self {
            Hint::Known(text) => f.write_str(text),
            Hint::Made(text) => f.write_str(text.as_str()),
        }
    }
}

/// Why the program writes nothing, and what helps whoever reads it. It prints the fault's line, and the hint on the next line
/// after two spaces.
#[derive(Drop)]
pub struct Failure {
    pub fault: Fault,
    pub hint: Option<Hint>,
}

impl Failure {
    /// A fault, and what helps with it. A hint for which there was no memory is left out.
    pub fn hinted(fault: Fault, hint: Result<Option<String>, AllocError>) -> Failure
        ensures { result.fault ≡ fault }
    {
        let hint = hint.ok().flatten().map(Hint::Made);
        Failure { fault, hint }
    }

    /// A fault, and why it came, where that is known.
    pub fn because(fault: Fault, why: Option<&'static str>) -> Failure
        ensures { result.fault ≡ fault }
    {
        let hint = why.map(Hint::Known);
        Failure { fault, hint }
    }
}

impl fmt::Display for Failure {
    fn fmt<W: fmt::Write>(&self, f: &mut fmt::Formatter<W>) -> fmt::Result {
        match &self.hint {
            Some(hint) => write!(f, "{}\n  {hint}", self.fault),
            None => write!(f, "{}", self.fault),
        }
    }
}

impl From<AllocError> for Failure {
    ghost from_gives = { λ _ failure. failure.fault ≡ NoMemory };

    fn from(_e: AllocError) -> Failure {
        plain(Fault::NoMemory)
    }
}

impl<T: Drop> From<AllocFailed<T>> for Failure {
    ghost from_gives = { λ _ failure. failure.fault ≡ NoMemory };

    fn from(_e: AllocFailed<T>) -> Failure {
        plain(Fault::NoMemory)
    }
}

/// A fault with which nothing helps but its line.
pub fn plain(fault: Fault) -> Failure
    ensures { result.fault ≡ fault }
{
    Failure { fault, hint: None }
}

/// The failure of a run of `count` lists.
pub fn of_run(alloc: Global, fault: Fault, count: usize) -> Failure
    ensures { result.fault ≡ fault }
{
    match &fault {
        Fault::Geometry(cause) => {
            let why = no_namespace(*cause);
            Failure::because(fault, Some(why))
        }
        Fault::TooManyHosts => Failure::hinted(fault, too_many(alloc, count)),
        _ => plain(fault),
    }
}

/// The failure of a file that was read from a path and isn't what was wanted.
pub fn of_file(alloc: Global, fault: Fault, path: &str, file: &Payload, wanted: Wanted) -> Failure
    ensures { result.fault ≡ fault }
{
    let hint = match fault {
        Fault::BadName { .. } => instead(alloc, path, file.as_slice(), wanted),
        Fault::UnknownVersion { .. } => String::from_str(alloc, VERSIONS).map(Some),
        Fault::BadValue { at, .. }
        | Fault::BeganAtZero { at, .. }
        | Fault::EndedBefore { at, .. } => { field_told(alloc, file.as_slice(), at) }
        Fault::Truncated { .. } | Fault::TooMany { .. } => other_block(alloc, file, wanted),
        _ => Ok(None),
    };
    Failure::hinted(fault, hint)
}

/// The failure of a trace's text that was read from a path. What helps is what the file is instead, or else the wrong lines.
pub fn of_text(alloc: Global, fault: Fault, path: &str, text: &[u8]) -> Failure
    ensures { result.fault ≡ fault }
{
    let hint = match fault {
        Fault::TraceLine { line, expected } => wrong_text(alloc, path, text, line, expected),
        Fault::NoHead => about(alloc, path, "has no line with words").map(Some),
        _ => Ok(None),
    };
    Failure::hinted(fault, hint)
}

fn too_many(alloc: Global, count: usize) -> Result<Option<String>, AllocError> {
    Ok(Some(format!(in alloc; "there are {count} lists, and at most 64 can be run")?))
}

/// The front of a line of a text, which is that of a path where one is given. Lines count from 1. `None` where it isn't plain text.
pub fn line_of(
    alloc: Global,
    path: Option<&str>,
    text: &[u8],
    number: u64,
) -> Result<Option<String>, AllocError> {
    let Some(shown) = shown_line(text, number) else {
        return Ok(None);
    };
    let told = match path {
        Some(path) => format!(in alloc; "the line of {path} is: {shown}"),
        None => format!(in alloc; "the line is: {shown}"),
    };
    told.map(Some)
}

/// The front of a text's line as it is shown, from the first that is no blank.
fn shown_line(text: &[u8], number: u64) -> Option<&str> {
    let line = text
        .split(|byte| *byte == b'\n')
        .nth(number.saturating_sub(1) as usize)?;
    match str::from_utf8(line.trim_ascii()) {
        Ok(line) if !line.is_empty() && !line.chars().any(|letter| letter.is_control()) => {
            Some(front_of(line))
        }
        _ => None,
    }
}

/// So many bytes of a line are shown at most.
const SHOWN: usize = 100;

/// As much of a line as is shown, whole characters.
fn front_of(line: &str) -> &str {
    for less in 0..4 {
        if let Some(front) = line.get(..SHOWN - less) {
            return front;
        }
    }
    line
}
