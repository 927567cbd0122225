//! The words of `nvq explain`.
use crate::front::{WordFault, file_argument, judging_of, path_given, path_named, strict};
use clap::{Arg, ArgMatches, Command, Error};
use nvm_trace::Judging;
use std::alloc::Global;

/// What `nvq explain` is to explain.
#[derive(Drop)]
pub enum ExplainWords {
    /// A record by itself.
    Record {
        record: String,
    },
    /// What a record, an order or a contradiction says of a trace.
    Trace {
        judging: Judging,
        trace: String,
        evidence: String,
    },
}

/// What the words say. One path is a record's; of two the first is a trace's.
pub fn read_explain(alloc: Global, words: &ArgMatches<'_>) -> Result<ExplainWords, WordFault> {
    let file = path_named(alloc, words, "file")?;
    let Some(evidence) = path_given(alloc, words, "evidence")? else {
        return Ok(ExplainWords::Record { record: file });
    };
    Ok(ExplainWords::Trace {
        judging: judging_of(words),
        trace: file,
        evidence,
    })
}

/// `nvq explain`.
pub fn explain_command<'a>(alloc: Global) -> Result<Command<'a>, Error> {
    let strict = strict(alloc).requires_arg("evidence")?;
    let file = file_argument(
        alloc,
        "file",
        "FILE",
        "The record, or the trace where evidence follows, or - for standard input",
    );
    let evidence = Arg::new(alloc, "evidence").value_name("EVIDENCE").help(
        "What speaks of the trace: a record, an order or a contradiction, or - for standard input",
    );
    let command = Command::new(alloc, "explain").about(
        "Explains what is wrong with a record or what there is in a lawful one, or what evidence says of a trace",
    );
    Ok(command.arg(strict)?.arg(file)?.arg(evidence)?)
}
