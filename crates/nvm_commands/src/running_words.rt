//! The words of `nvq run`.
ghost use Rattle.std.specs.Prelude.{◌≤◌, IfOk, length};

use crate::front::{
    Telling, WordFault, file_arguments, flag, limit, limit_given, number_option, path_given,
    path_option, paths_named, telling_of, workers_given,
};
use crate::namespace_words::{NamespaceWords, read_namespace, with_namespace};
use clap::{ArgMatches, Command, Error};
use nvm_engine::Workers;
use nvm_store::Limit;
use std::alloc::Global;

/// What the words of `nvq run` say: what the namespace is like, the numbers of the run, and the names of files.
#[derive(Drop)]
pub struct RunWords {
    pub namespace: NamespaceWords,
    /// As many as there are processors, where it isn't given.
    pub workers: Option<Workers>,
    pub limit: Limit,
    /// Where the record goes, if it is kept.
    pub record: Option<String>,
    /// Whether what the lists expect is checked.
    pub check: bool,
    /// Whether the run is printed as lines, or as objects of JSON.
    pub telling: Telling,
    /// The lists, host 1's first, at least one.
    pub lists: Vec<String>,
}

/// What the words say.
pub fn read_run(alloc: Global, words: &ArgMatches<'_>) -> Result<RunWords, WordFault>
    ensures { IfOk result (λ run. 1 ≤ length run.lists.items) }
{
    let namespace = read_namespace(alloc, words)?;
    let limit = limit_given(alloc, words)?.ok_or(WordFault::Missing)?;
    Ok(RunWords {
        namespace,
        workers: workers_given(alloc, words)?,
        limit,
        record: path_given(alloc, words, "record")?,
        check: words.get_flag("check"),
        telling: telling_of(words),
        lists: paths_named(alloc, words, "list")?,
    })
}

/// `nvq run`.
pub fn run_command<'a>(alloc: Global) -> Result<Command<'a>, Error> {
    let command = Command::new(alloc, "run").about(
        "Does the commands of lists, and prints two lines for each",
    );
    let workers = number_option(
        alloc,
        "workers",
        "Number of threads that do the commands, 1 to 64 [default: the processors]",
    );
    let record = path_option(alloc, "record", "REC", "Where the record of the run goes");
    let check = flag(
        alloc,
        "check",
        "Checks what the lists expect, and ends with status 2 where that isn't met",
    );
    let json = flag(
        alloc,
        "json",
        "Prints an object of JSON for each command and for the verdict, one a line, for programs",
    )
    .conflicts_with("check")?;
    let lists = file_arguments(
        alloc,
        "list",
        "LIST",
        "The command lists, host 1's first; one may be - for standard input",
    );
    Ok(
        with_namespace(alloc, command, "32768")?
            .arg(workers)?
            .arg(limit(alloc).default_value("4194304"))?
            .arg(record)?
            .arg(check)?
            .arg(json)?
            .arg(lists)?,
    )
}
