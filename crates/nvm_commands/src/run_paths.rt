//! The paths that the words of `nvq run` name, before a file is read or written.
ghost use Rattle.std.specs.Prelude.{◌≡◌, IfOk, IfErr, string_bytes};
ghost use Rattle.std.specs.List.{count_by};
ghost use Rattle.nvm_commands.specs.Standard.{names_input};
ghost use Rattle.nvm_commands.specs.RunFaults.{FitNames, IsKeepingFault, IsNamesFault};

use crate::failure::{Failure, plain};
use crate::fault::Fault;
use crate::front::{STANDARD, is_input};
use crate::running_words::RunWords;
use crate::written_files::check_place;
use std::rt::Files;

/// Standard input is named at most once, and standard output isn't the record's.
pub fn names_fit(words: &RunWords) -> Result<(), Failure>
    ensures fit { IfOk result (λ _. FitNames words.now.lists.items words.now.«record») }
    ensures fault { IfErr result (λ failure. IsNamesFault words.now.lists.items words.now.«record» failure.fault) }
{
    if inputs_of(words.lists.as_slice()) > 1 {
        return Err(plain(Fault::InputTwice));
    }
    match &words.record {
        Some(path) if path.as_str() == STANDARD => Err(plain(Fault::RecordAmongLines)),
        _ => Ok(()),
    }
}

/// How many of the paths name standard input.
fn inputs_of(paths: &[String]) -> usize
    ensures { result ≡ count_by (λ path. names_input (string_bytes path)) paths.now }
{
    let mut count = 0;
    for path in paths {
        if is_input(path.as_str()) {
            count += 1;
        }
    }
    count
}

/// The record's path is none of the lists', and not that of standard output.
pub fn check_record<R: Files + AllocGlobal>(rt: &R, words: &RunWords) -> Result<(), Failure>
    ensures { IfErr result (λ failure. IsKeepingFault words.now.«record» failure.fault) }
{
    match &words.record {
        Some(record) => check_place(
            rt,
            record.as_str(),
            words.lists.as_slice(),
            "it is the list",
        ),
        None => Ok(()),
    }
}
