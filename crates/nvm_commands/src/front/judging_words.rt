//! The words of `audit` and `witness`, which both programs have, and what other commands that judge have of them.
use crate::front::arguments::{file_argument, flag, path_named};
use crate::front::words::WordFault;
use clap::{Arg, ArgMatches, Command, Error};
use nvm_trace::Judging;
use std::alloc::Global;

/// How a verdict is printed.
#[derive(Clone, Copy)]
pub enum Telling {
    /// As lines for people.
    Lines,
    /// As one object of JSON.
    Object,
}

/// What the words of `audit` say.
#[derive(Drop)]
pub struct AuditWords {
    pub telling: Telling,
    pub record: String,
}

/// What the words of `witness` say.
#[derive(Drop)]
pub struct WitnessWords {
    pub judging: Judging,
    pub trace: String,
    pub record: String,
}

/// What the words of `audit` say.
pub fn read_audit(alloc: Global, words: &ArgMatches<'_>) -> Result<AuditWords, WordFault> {
    Ok(AuditWords {
        telling: telling_of(words),
        record: path_named(alloc, words, "record")?,
    })
}

/// How a verdict is to be printed.
pub fn telling_of(words: &ArgMatches<'_>) -> Telling {
    if words.get_flag("json") {
        Telling::Object
    } else {
        Telling::Lines
    }
}

/// The option that has a verdict printed as an object.
pub fn json<'a>(alloc: Global) -> Arg<'a> {
    flag(
        alloc,
        "json",
        "Prints the verdict as one object of JSON on a line, for programs",
    )
}

/// What the words of `witness` say.
pub fn read_witness(alloc: Global, words: &ArgMatches<'_>) -> Result<WitnessWords, WordFault> {
    Ok(WitnessWords {
        judging: judging_of(words),
        trace: path_named(alloc, words, "trace")?,
        record: path_named(alloc, words, "record")?,
    })
}

/// By what a trace is to be judged.
pub fn judging_of(words: &ArgMatches<'_>) -> Judging {
    if words.get_flag("strict") {
        Judging::Strict
    } else {
        Judging::Standard
    }
}

/// The option that has a trace judged strictly.
pub fn strict<'a>(alloc: Global) -> Arg<'a> {
    flag(
        alloc,
        "strict",
        "Takes each command as one step in an atomic unit, however many blocks it has",
    )
}

/// The trace that is judged.
pub fn trace<'a>(alloc: Global) -> Arg<'a> {
    file_argument(
        alloc,
        "trace",
        "TRACE",
        "What the hosts of a device saw, or - for standard input",
    )
}

/// The command `audit`.
pub fn audit_command<'a>(alloc: Global) -> Result<Command<'a>, Error> {
    let record = file_argument(
        alloc,
        "record",
        "REC",
        "The record of a run, or - for standard input",
    );
    let command = Command::new(alloc, "audit").about(
        "Says whether a record is lawful, and if not, what is its first fault",
    );
    Ok(command.arg(json(alloc))?.arg(record)?)
}

/// The command `witness`.
pub fn witness_command<'a>(alloc: Global) -> Result<Command<'a>, Error> {
    let record = file_argument(
        alloc,
        "record",
        "REC",
        "The record or the order that is to explain it, or - for standard input",
    );
    let command = Command::new(alloc, "witness").about(
        "Says whether a record or an order explains a trace, and if not, what is the first fault",
    );
    Ok(command.arg(strict(alloc))?.arg(trace(alloc))?.arg(record)?)
}
