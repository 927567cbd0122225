//! The words of `nvq certify`.
ghost use Rattle.std.specs.Prelude.{◌≡◌};
ghost use Rattle.nvm_commands.specs.Asked.{profile_asked};

use crate::front::{
    Telling, WordFault, flag, json, number_of_32_bits, number_option, path_given, path_named,
    path_option, telling_of, trace,
};
use clap::{Arg, ArgMatches, Command, Error};
use nvm_judge::profile_of;
use nvm_standard::{Deallocated, Held, Profile};
use nvm_trace::Trace;
use std::alloc::Global;

/// What the words of `nvq certify` say.
#[derive(Drop)]
pub struct CertifyWords {
    pub telling: Telling,
    /// Whether lines of a contradiction have the data of its commands, and not whose that is.
    pub data: bool,
    /// How much the searches may try.
    pub effort: u32,
    /// What the device is to hold Reads to, where that isn't what the trace says.
    pub reads: Option<Held>,
    /// What a deallocated block may read as, where that isn't what the trace says.
    pub deallocated: Option<Deallocated>,
    /// Where the order that explains the trace goes, or the contradiction that nothing does, if it is kept.
    pub evidence: Option<String>,
    pub trace: String,
}

impl CertifyWords {
    /// What the device of the trace is held to.
    pub fn profile(&self, trace: &Trace) -> Profile
        ensures { result ≡ profile_asked self.now «trace».now }
    {
        let said = profile_of(trace);
        let held = match self.reads {
            Some(held) => held,
            None => said.held,
        };
        let deallocated = match self.deallocated {
            Some(deallocated) => deallocated,
            None => said.deallocated,
        };
        Profile { held, deallocated }
    }
}

/// What the words say.
pub fn read_certify(alloc: Global, words: &ArgMatches<'_>) -> Result<CertifyWords, WordFault> {
    let effort = number_of_32_bits(alloc, words, "effort")?;
    Ok(CertifyWords {
        telling: telling_of(words),
        data: words.get_flag("data"),
        effort,
        reads: reads_of(words),
        deallocated: deallocated_of(words),
        evidence: path_given(alloc, words, "evidence")?,
        trace: path_named(alloc, words, "trace")?,
    })
}

/// What the device is to hold Reads to, if the words say so.
fn reads_of(words: &ArgMatches<'_>) -> Option<Held> {
    match words.get_str("reads") {
        Some("atomic") => Some(Held::Atomic),
        Some("atomic-all") => Some(Held::AtomicAll),
        Some("whole") => Some(Held::Whole),
        Some("by-blocks") => Some(Held::ByBlocks),
        _ => None,
    }
}

/// What a deallocated block may read as, if the words say so.
fn deallocated_of(words: &ArgMatches<'_>) -> Option<Deallocated> {
    match words.get_str("deallocated") {
        Some("zeroes") => Some(Deallocated::Zeroes),
        Some("ones") => Some(Deallocated::Ones),
        Some("either") => Some(Deallocated::Either),
        _ => None,
    }
}

/// An option that takes one of these words.
fn word_option<'a>(alloc: Global, name: &'a str, words: &'a [&'a str], help: &'a str) -> Arg<'a> {
    Arg::new(alloc, name)
        .long(name)
        .value_name("WORD")
        .value_parser(words)
        .help(help)
}

/// `nvq certify`.
pub fn certify_command<'a>(alloc: Global) -> Result<Command<'a>, Error> {
    let evidence = path_option(
        alloc,
        "evidence",
        "FILE",
        "Where the order that explains the trace goes, or the contradiction that nothing does",
    );
    let effort = number_option(alloc, "effort", "How much the searches may try").default_value(
        "200000",
    );
    let reads = word_option(
        alloc,
        "reads",
        ["atomic", "atomic-all", "whole", "by-blocks"].as_slice(),
        "What Reads are held to, if not to what the trace says",
    );
    let deallocated = word_option(
        alloc,
        "deallocated",
        ["zeroes", "ones", "either"].as_slice(),
        "What a deallocated block may read as, if not what the trace says",
    );
    let data = flag(
        alloc,
        "data",
        "Prints a contradiction's commands with all their data, and not whose it is",
    );
    let command = Command::new(alloc, "certify")
        .about(
            "Says whether a device may answer as in a trace: an order of points explains it, or a contradiction shows that nothing does",
        )
        .after_help(
            "TRACE is a trace's file or its text. Orders and contradictions hold a device to what the standard promises, and to nothing more. Each is checked before it is told.",
        );
    Ok(
        command
            .arg(evidence)?
            .arg(effort)?
            .arg(reads)?
            .arg(deallocated)?
            .arg(data)?
            .arg(json(alloc))?
            .arg(trace(alloc))?,
    )
}
