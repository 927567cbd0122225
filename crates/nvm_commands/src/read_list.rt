//! Command lists as they are read, without what they expect, and that.
ghost use Rattle.std.specs.Prelude.{◌≡◌, ◌⊎◌, IfOk, IfErr, Ok, map, string_bytes};
ghost use Rattle.nvm_listing.specs.Expectations as spec;
ghost use Rattle.nvm_commands.specs.Expecting.{IsExpectationFault, IsExpectingFault};
ghost use Rattle.nvm_commands.specs.Files.{IsReadingFault};

use crate::failure::Failure;
use crate::fault::Fault;
use crate::files::bytes_of;
use crate::front::{InputKind, Progress};
use crate::list_failure::wrong_line;
use nvm_listing::{ExpectationFault, expectations, without_expectations};
use nvm_record::Status;
use std::alloc::{AllocError, Global};
use std::rt::Files;

/// A list as it was read.
#[derive(Drop)]
pub struct ReadList<'a> {
    pub path: &'a str,
    /// The list without its expectations.
    pub text: Vec<u8>,
    /// What each command expects, in their order.
    pub expectations: Vec<Option<Status>>,
}

/// The lists at the paths, in their order. The first that can't be read, or has a wrong expectation, is the fault.
pub fn read_lists<'a, R: AllocGlobal + Files + Input + Eprint>(
    rt: &R,
    paths: &'a [String],
    progress: &Progress<'_, R>,
) -> Result<Vec<ReadList<'a>>, Failure>
    ensures paths { IfOk result (λ lists. map (λ list. list.path.now) lists.items
        ≡ map (λ path. string_bytes path) paths.now) }
    ensures fault { IfErr result (λ failure. IsReadingFault (map (λ path. string_bytes path) paths.now) failure.fault
        ⊎ IsExpectingFault (map (λ path. string_bytes path) paths.now) failure.fault) }
{
    let mut lists = Vec::with_capacity(rt.alloc(), paths.len())?;
    for path in paths {
        let path = path.as_str();
        let bytes = bytes_of(rt, InputKind::Text, path, progress)?;
        let split = split_list(rt.alloc(), path, &bytes)?;
        lists.push(split)?;
    }
    Ok(lists)
}

/// The texts of lists, as borrowed bytes.
pub fn texts_of<'a>(alloc: Global, lists: &'a [ReadList<'_>]) -> Result<Vec<&'a [u8]>, AllocError> {
    let mut texts = Vec::with_capacity(alloc, lists.len())?;
    for list in lists {
        texts.push(list.text.as_slice())?;
    }
    Ok(texts)
}

/// The list that was read from a path, without its expectations, and these. The first wrong one is the fault, and what helps is
/// said of it.
pub fn split_list<'a>(alloc: Global, path: &'a str, list: &[u8]) -> Result<ReadList<'a>, Failure>
    ensures path { IfOk result (λ read. read.path.now ≡ path.now) }
    ensures text { IfOk result (λ read. read.text.items ≡ spec.without_expectations list.now) }
    ensures expectations { IfOk result (λ read. spec.expectations list.now ≡ Ok read.expectations.items) }
    ensures fault { IfErr result (λ failure. IsExpectationFault path.now list.now failure.fault) }
{
    match expectations(alloc, list) {
        Ok(expectations) => Ok(ReadList {
            path,
            text: without_expectations(alloc, list)?,
            expectations,
        }),
        Err(ExpectationFault::Line { line, expected }) => {
            let fault = Fault::Expectation {
                path: String::from_str(alloc, path)?,
                line,
                expected,
            };
            Err(Failure::hinted(fault, wrong_line(alloc, path, list, line)))
        }
        Err(ExpectationFault::NoMemory) => Err(Failure::from(AllocError)),
    }
}
