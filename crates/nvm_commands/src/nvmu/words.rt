//! The words of `nvmu`.
ghost use Rattle.std.specs.Prelude.{IfOk};
ghost use Rattle.nvm_commands.specs.Nvmu.Words.{IsAsked};

use crate::front::{
    AuditWords, VERSION, WitnessWords, WordFault, audit_command, file_argument, file_arguments,
    limit, limit_given, nabo, nabsn, nsze, number_of_16_bits, number_of_32_bits, number_of_64_bits,
    number_option, path_named, path_option, paths_named, read_audit, read_witness, trace,
    witness_command, words_given, workers_given,
};
use clap::{Arg, ArgMatches, Command, Error};
use nvm_engine::Settings;
use std::alloc::Global;
use std::rt::Env;

/// What the words of the command line ask for.
#[derive(Drop)]
pub enum Asked {
    /// `nvmu run`: do the commands of the host files, host 1 first.
    Run {
        settings: Settings,
        /// Where the record goes.
        out: String,
        /// The host files, at least one.
        files: Vec<String>,
    },
    /// `nvmu audit`: say whether the record in the file is lawful.
    Audit(AuditWords),
    /// `nvmu witness`: say whether a record explains a trace.
    Witness(WitnessWords),
    /// `nvmu refute`: say whether a contradiction is one of a trace.
    Refute {
        trace: String,
        contradiction: String,
    },
}

/// Reads the words after the program's name.
///
/// Every option of `run` is given once. `--workers` takes 1 to 64, `--limit` 1 to 4,194,304, and one host file or more is named.
/// `audit` names one record, `witness` a trace and a record, and `refute` a trace and a contradiction.
pub fn read_words<R: AllocGlobal + Env>(rt: &R) -> Result<Asked, WordFault>
    ensures { IfOk result IsAsked }
{
    let words = words_given(rt)?;
    let mut command = program(rt.alloc())?;
    let matches = command.try_get_matches_from_mut(words.as_slice())?;
    asked_of(rt.alloc(), &matches)
}

/// What the matches ask for.
fn asked_of(alloc: Global, matches: &ArgMatches<'_>) -> Result<Asked, WordFault>
    ensures { IfOk result IsAsked }
{
    match matches.subcommand() {
        Some(("run", words)) => Ok(Asked::Run {
            settings: settings_of(alloc, words)?,
            out: path_named(alloc, words, "out")?,
            files: paths_named(alloc, words, "file")?,
        }),
        Some(("audit", words)) => Ok(Asked::Audit(read_audit(alloc, words)?)),
        Some(("witness", words)) => Ok(Asked::Witness(read_witness(alloc, words)?)),
        Some(("refute", words)) => Ok(Asked::Refute {
            trace: path_named(alloc, words, "trace")?,
            contradiction: path_named(alloc, words, "contradiction")?,
        }),
        _ => Err(WordFault::Missing),
    }
}

/// The options that are numbers.
fn settings_of(alloc: Global, run: &ArgMatches<'_>) -> Result<Settings, WordFault> {
    Ok(Settings {
        nsze: number_of_64_bits(alloc, run, "nsze")?,
        block: number_of_32_bits(alloc, run, "block")?,
        nabsn: number_of_16_bits(alloc, run, "nabsn")?,
        nabo: number_of_16_bits(alloc, run, "nabo")?,
        nawun: number_of_16_bits(alloc, run, "nawun")?,
        nacwu: number_of_16_bits(alloc, run, "nacwu")?,
        workers: workers_given(alloc, run)?.ok_or(WordFault::Missing)?,
        limit: limit_given(alloc, run)?.ok_or(WordFault::Missing)?,
    })
}

/// The command line of the program.
fn program<'a>(alloc: Global) -> Result<Command<'a>, Error> {
    Ok(
        Command::new(alloc, "nvmu")
            .bin_name("nvmu")?
            .version(VERSION)
            .about(
                "Executes the NVM commands of hosts on one namespace in memory, and judges records and traces",
            )
            .no_binary_name(true)
            .subcommand_required(true)
            .subcommand(run_command(alloc)?)?
            .subcommand(audit_command(alloc)?)?
            .subcommand(witness_command(alloc)?)?
            .subcommand(refute_command(alloc)?)?,
    )
}

/// `nvmu run`.
fn run_command<'a>(alloc: Global) -> Result<Command<'a>, Error> {
    let command = Command::new(alloc, "run")
        .about(
            "Does the commands of the hosts' files, writes a record of that, and prints a line for each",
        )
        .arg(nsze(alloc).required(true))?
        .arg(number(
            alloc,
            "block",
            "Size of a logical block in bytes: 512 or 4096",
        ))?
        .arg(nabsn(alloc).required(true))?
        .arg(nabo(alloc).required(true))?
        .arg(number(alloc, "nawun", "Atomic write unit, zeroes-based"))?
        .arg(number(
            alloc,
            "nacwu",
            "Atomic compare and write unit, zeroes-based",
        ))?
        .arg(number(
            alloc,
            "workers",
            "Number of threads that do the commands, 1 to 64",
        ))?
        .arg(limit(alloc).required(true))?;
    let out = path_option(alloc, "out", "REC", "Where the record goes").required(true);
    let out = out.visible_alias("record")?;
    let files = file_arguments(
        alloc,
        "file",
        "FILE",
        "The host files, host 1 first; one may be - for standard input",
    );
    Ok(command.arg(out)?.arg(files)?)
}

/// `nvmu refute`.
fn refute_command<'a>(alloc: Global) -> Result<Command<'a>, Error> {
    let contradiction = file_argument(
        alloc,
        "contradiction",
        "CONTRADICTION",
        "The contradiction that shows so, or - for standard input",
    );
    let command = Command::new(alloc, "refute").about(
        "Says whether a contradiction shows that no device may answer as in a trace, and if not, why",
    );
    Ok(command.arg(trace(alloc))?.arg(contradiction)?)
}

/// An option that has to be given a number.
fn number<'a>(alloc: Global, name: &'a str, help: &'a str) -> Arg<'a> {
    number_option(alloc, name, help).required(true)
}
