//! The kinds of arguments that commands take beside numbers.
ghost use Rattle.std.specs.Prelude.{◌≤◌, IfOk, length};

use crate::front::words::WordFault;
use clap::{Arg, ArgAction, ArgMatches};
use std::alloc::{AllocError, Global};

/// An option without a value.
pub fn flag<'a>(alloc: Global, name: &'a str, help: &'a str) -> Arg<'a> {
    Arg::new(alloc, name)
        .long(name)
        .action(ArgAction::SetTrue)
        .help(help)
}

/// An option that names a file. Help calls the file `value`.
pub fn path_option<'a>(alloc: Global, name: &'a str, value: &'a str, help: &'a str) -> Arg<'a> {
    Arg::new(alloc, name)
        .long(name)
        .value_name(value)
        .help(help)
}

/// A file that has to be named.
pub fn file_argument<'a>(alloc: Global, id: &'a str, value: &'a str, help: &'a str) -> Arg<'a> {
    Arg::new(alloc, id)
        .required(true)
        .value_name(value)
        .help(help)
}

/// Files of which at least one has to be named.
pub fn file_arguments<'a>(alloc: Global, id: &'a str, value: &'a str, help: &'a str) -> Arg<'a> {
    file_argument(alloc, id, value, help)
        .num_args(1..)
        .action(ArgAction::Append)
}

/// The path of an argument that has to be given.
pub fn path_named(alloc: Global, words: &ArgMatches<'_>, id: &str) -> Result<String, WordFault> {
    match words.get_str(id) {
        Some(path) => Ok(String::from_str(alloc, path)?),
        None => Err(WordFault::Missing),
    }
}

/// The paths of an argument that has to be given, at least one.
pub fn paths_named(
    alloc: Global,
    words: &ArgMatches<'_>,
    id: &str,
) -> Result<Vec<String>, WordFault>
    ensures { IfOk result (λ paths. 1 ≤ length paths.items) }
{
    let Some(texts) = words.get_strs(id) else {
        return Err(WordFault::Missing);
    };
    if texts.is_empty() {
        return Err(WordFault::Missing);
    }
    let mut strings = Vec::with_capacity(alloc, texts.len())?;
    for text in texts {
        strings.push(String::from_str(alloc, text)?)?;
    }
    Ok(strings)
}

/// The path that an argument names, or `None` where it isn't given.
pub fn path_given(
    alloc: Global,
    words: &ArgMatches<'_>,
    id: &str,
) -> Result<Option<String>, AllocError> {
    match words.get_str(id) {
        Some(path) => Ok(Some(String::from_str(alloc, path)?)),
        None => Ok(None),
    }
}
