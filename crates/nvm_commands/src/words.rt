//! The words of `nvq`.
ghost use Rattle.std.specs.Prelude.{IfOk};
ghost use Rattle.nvm_commands.specs.Words.{IsAsked};

use crate::certifying_words::{CertifyWords, certify_command, read_certify};
use crate::conversion_words::{assemble_command, list_asked, list_command, trace_command};
use crate::explaining_words::{ExplainWords, explain_command, read_explain};
use crate::front::{
    AuditWords, VERSION, WitnessWords, WordFault, audit_command, flag, path_named, read_audit,
    read_witness, size_given, witness_command, words_given,
};
use crate::generating_words::{GenerateWords, generate_command, read_generate};
use crate::running_words::{RunWords, read_run, run_command};
use clap::{ArgMatches, Command, Error};
use nvm_record::BlockSize;
use std::alloc::Global;
use std::rt::Env;

/// What the words of the command line ask for.
#[derive(Drop)]
pub enum Asked {
    /// `nvq assemble`: make a list into a host file.
    Assemble {
        size: BlockSize,
        list: String,
        out: String,
    },
    /// `nvq trace`: make the text of a trace into its file.
    Trace {
        text: String,
        out: String,
    },
    /// `nvq list`: list a host file, a record or a trace.
    List {
        size: BlockSize,
        file: String,
    },
    /// `nvq list --json`: list the record at a path as objects.
    ListObjects(String),
    /// `nvq run`: do the commands of lists, host 1's first.
    Run(RunWords),
    /// `nvq generate`: write the lists of a load.
    Generate(GenerateWords),
    /// `nvq audit`: say whether a record is lawful.
    Audit(AuditWords),
    /// `nvq audit --all`: say whether it is, or all that is wrong in it.
    AuditAll(AuditWords),
    /// `nvq witness`: say whether a record explains a trace.
    Witness(WitnessWords),
    /// `nvq certify`: say whether an order explains a trace, or that nothing does.
    Certify(CertifyWords),
    /// `nvq explain`: explain a record, or what evidence says of a trace.
    Explain(ExplainWords),
}

/// Reads the words after the program's name. A block has 512 bytes where no size is given, and a run and a load have one list or more.
pub fn read_words<R: AllocGlobal + Env>(rt: &R) -> Result<Asked, WordFault>
    ensures { IfOk result IsAsked }
{
    let words = words_given(rt)?;
    let mut command = program(rt.alloc())?;
    let matches = command.try_get_matches_from_mut(words.as_slice())?;
    asked_of(rt.alloc(), &matches)
}

/// What the matches ask for.
fn asked_of(alloc: Global, matches: &ArgMatches<'_>) -> Result<Asked, WordFault>
    ensures { IfOk result IsAsked }
{
    match matches.subcommand() {
        Some(("assemble", words)) => Ok(Asked::Assemble {
            size: size_given(alloc, words)?,
            list: path_named(alloc, words, "list")?,
            out: path_named(alloc, words, "out")?,
        }),
        Some(("trace", words)) => Ok(Asked::Trace {
            text: path_named(alloc, words, "text")?,
            out: path_named(alloc, words, "out")?,
        }),
        Some(("list", words)) => list_asked(alloc, words),
        Some(("run", words)) => Ok(Asked::Run(read_run(alloc, words)?)),
        Some(("generate", words)) => Ok(Asked::Generate(read_generate(alloc, words)?)),
        Some(("audit", words)) if words.get_flag("all") => {
            Ok(Asked::AuditAll(read_audit(alloc, words)?))
        }
        Some(("audit", words)) => Ok(Asked::Audit(read_audit(alloc, words)?)),
        Some(("witness", words)) => Ok(Asked::Witness(read_witness(alloc, words)?)),
        Some(("certify", words)) => Ok(Asked::Certify(read_certify(alloc, words)?)),
        Some(("explain", words)) => Ok(Asked::Explain(read_explain(alloc, words)?)),
        _ => Err(WordFault::Missing),
    }
}

/// `nvq audit`: the words that both programs have, and `--all`.
fn auditing_command<'a>(alloc: Global) -> Result<Command<'a>, Error> {
    let all = flag(
        alloc,
        "all",
        "Prints the first fault of each unit that has one, and how many these are",
    )
    .conflicts_with("json")?;
    Ok(audit_command(alloc)?.arg(all)?)
}

/// The command line of the program.
fn program<'a>(alloc: Global) -> Result<Command<'a>, Error> {
    let program = Command::new(alloc, "nvq")
        .bin_name("nvq")?
        .version(VERSION)
        .about(
            "Runs lists of NVM commands, generates such lists, makes them into host files, lists those, records and traces, and judges and explains records and traces",
        )
        .no_binary_name(true)
        .subcommand_required(true);
    with_judges(alloc, with_makers(alloc, program)?)
}

/// With the commands that do, make and list.
fn with_makers<'a>(alloc: Global, program: Command<'a>) -> Result<Command<'a>, Error> {
    Ok(
        program
            .subcommand(run_command(alloc)?)?
            .subcommand(generate_command(alloc)?)?
            .subcommand(assemble_command(alloc)?)?
            .subcommand(trace_command(alloc)?)?
            .subcommand(list_command(alloc)?)?,
    )
}

/// With the commands that judge and explain.
fn with_judges<'a>(alloc: Global, program: Command<'a>) -> Result<Command<'a>, Error> {
    Ok(
        program
            .subcommand(auditing_command(alloc)?)?
            .subcommand(witness_command(alloc)?)?
            .subcommand(certify_command(alloc)?)?
            .subcommand(explain_command(alloc)?)?,
    )
}
