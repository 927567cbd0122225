//! The words of the commands that convert a file: `nvq assemble`, `nvq trace` and `nvq list`.
ghost use Rattle.std.specs.Prelude.{IfOk};
ghost use Rattle.nvm_commands.specs.Words.{IsAsked};

use crate::front::{WordFault, file_argument, flag, path_named, size_given};
use crate::namespace_words::block;
use crate::words::Asked;
use clap::{ArgMatches, Command, Error};
use std::alloc::Global;

/// What `nvq list` is asked.
pub fn list_asked(alloc: Global, words: &ArgMatches<'_>) -> Result<Asked, WordFault>
    ensures { IfOk result IsAsked }
{
    let size = size_given(alloc, words)?;
    let file = path_named(alloc, words, "file")?;
    if words.get_flag("json") {
        Ok(Asked::ListObjects(file))
    } else {
        Ok(Asked::List { size, file })
    }
}

/// `nvq assemble`.
pub fn assemble_command<'a>(alloc: Global) -> Result<Command<'a>, Error> {
    let command = Command::new(alloc, "assemble").about("Makes a list into a host file");
    let list = file_argument(alloc, "list", "LIST", "The list, or - for standard input");
    let out = file_argument(
        alloc,
        "out",
        "OUT",
        "The host file, or - for standard output",
    );
    Ok(command.arg(block(alloc))?.arg(list)?.arg(out)?)
}

/// `nvq trace`.
pub fn trace_command<'a>(alloc: Global) -> Result<Command<'a>, Error> {
    let command = Command::new(alloc, "trace").about("Makes the text of a trace into its file");
    let text = file_argument(alloc, "text", "TEXT", "The text, or - for standard input");
    let out = file_argument(
        alloc,
        "out",
        "OUT",
        "The trace's file, or - for standard output",
    );
    Ok(command.arg(text)?.arg(out)?)
}

/// `nvq list`.
pub fn list_command<'a>(alloc: Global) -> Result<Command<'a>, Error> {
    let command = Command::new(alloc, "list").about(
        "Lists the commands of a host file, a record, or a trace",
    );
    let json = flag(
        alloc,
        "json",
        "Prints a record as objects of JSON, one a line, for programs",
    );
    let file = file_argument(
        alloc,
        "file",
        "FILE",
        "The host file, record or trace, or - for standard input",
    );
    Ok(command.arg(block(alloc))?.arg(json)?.arg(file)?)
}
