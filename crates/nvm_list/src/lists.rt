ghost use Rattle.std.specs.Prelude.{◌≡◌, ◌⊎◌, ◌+◌, ◌≤◌, List, IfOk, IfErr, Ok, Err, length, All};
ghost use Rattle.nvm_record.specs.Entry.{IsWhole};
ghost use Rattle.nvm_record.specs.HostFile.{IsHostFile, most_commands};
ghost use Rattle.nvm_record.specs.declared.command.Command.{Command as Listed};
ghost use Rattle.nvm_list.specs.Words.{words, words_in};
ghost use Rattle.nvm_list.specs.Answers.{Gives};
ghost use Rattle.nvm_list.specs.Lines as lines;
ghost use Rattle.nvm_list.specs.Lists as spec;
ghost use Rattle.nvm_list.specs.Lists.{assembled};
ghost use Rattle.nvm_list.specs.declared.fault.ListFault.TheVariants.{NoMemory};

use crate::command_line::command;
use crate::expected::Expected;
use crate::fault::{LineFault, ListFault};
use crate::line_cut::{cut, first_word, without_comment};
use nvm_record::laws::{opcodes_are_proper, ranges_are_read_back};
use nvm_record::{BlockSize, Command, MOST_COMMANDS, host_bytes};
use std::alloc::Global;

/// The bytes of the host file that holds the commands of a list, every unnamed bit being 0.
///
/// The first line that is no command is answered in place of them, or `NoMemory` where a growth was
/// refused before it.
pub fn assemble(alloc: Global, text: &[u8], size: BlockSize) -> Result<Vec<u8>, ListFault>
    ensures file { IfOk result (λ file. assembled size text.now ≡ Ok file.items) }
    // The file is read as exactly the commands of the list.
    ensures commands { IfOk result (λ file. (cs : List Listed)
        × (spec.commands size text.now ≡ Ok cs) × IsHostFile size file.items cs) }
    ensures fault { IfErr result (λ e. (spec.commands size text.now ≡ Err e) ⊎ (e ≡ NoMemory)) }
{
    let commands = read_list(alloc, text, size)?;
    Ok(host_bytes(alloc, &commands)?)
}

/// The commands of a list.
///
/// The first line that is no command is answered in place of them, or `NoMemory` where a growth was
/// refused before it.
pub fn read_list(alloc: Global, text: &[u8], size: BlockSize) -> Result<Vec<Command>, ListFault>
    ensures commands { IfOk result (λ v. spec.commands size text.now ≡ Ok v.items) }
    // Each command has exactly the data that it calls for and a proper opcode, and they aren't too many.
    ensures whole { IfOk result (λ v. All (IsWhole size) v.items) }
    ensures few { IfOk result (λ v. length v.items ≤ most_commands) }
    ensures fault { IfErr result (λ e. (spec.commands size text.now ≡ Err e) ⊎ (e ≡ NoMemory)) }
{
    opcodes_are_proper();
    ranges_are_read_back();
    commands_of(alloc, text, size)
}

/// The command that words say at a place of their list, where the first command is at place 1. Its CID is the place modulo
/// 65,536, if no word says another.
pub fn command_of_words(
    alloc: Global,
    words: &[u8],
    place: u64,
    size: BlockSize,
) -> Result<Command, LineFault>
    ensures { Gives (λ c. c) result (lines.command size place (words_in words.now)) }
{
    command(alloc, words, place, size)
}

/// The commands of a list, line by line.
fn commands_of(alloc: Global, text: &[u8], size: BlockSize) -> Result<Vec<Command>, ListFault>
    ensures commands { IfOk result (λ v. spec.commands size text.now ≡ Ok v.items) }
    ensures fault { IfErr result (λ e. (spec.commands size text.now ≡ Err e) ⊎ (e ≡ NoMemory)) }
{
    let mut commands = Vec::new(alloc);
    let mut line = 0;
    let mut rest = Some(text);
    while let Some(bytes) = rest {
        let (text, after) = cut(bytes, b'\n');
        line += 1;
        if let Some(command) = command_on(alloc, text, commands.len(), line, size)? {
            commands.push(command)?;
        }
        rest = after;
    }
    Ok(commands)
}

/// The command of a line, or `None` where the line has no words, after `before` commands.
fn command_on(
    alloc: Global,
    text: &[u8],
    before: usize,
    line: u64,
    size: BlockSize,
) -> Result<Option<Command>, ListFault>
    ensures command { IfOk result
        (λ c. spec.on_line size line (before + 1) (words text.now) ≡ Ok c) }
    ensures fault { IfErr result
        (λ e. (spec.on_line size line (before + 1) (words text.now) ≡ Err e) ⊎ (e ≡ NoMemory)) }
{
    let words = without_comment(text);
    let (word, _) = first_word(words);
    if word.is_empty() {
        return Ok(None);
    }
    match command_at(alloc, words, before, size) {
        Ok(command) => Ok(Some(command)),
        Err(LineFault::Expected(expected)) => Err(ListFault::Line { line, expected }),
        Err(LineFault::NoMemory) => Err(ListFault::NoMemory),
    }
}

/// The command that words say after `before` commands.
fn command_at(
    alloc: Global,
    words: &[u8],
    before: usize,
    size: BlockSize,
) -> Result<Command, LineFault>
    ensures { Gives (λ c. c) result (spec.command_at size (before + 1) (words_in words.now)) }
{
    if before >= MOST_COMMANDS {
        return Err(LineFault::Expected(Expected::NoMoreCommands));
    }
    command(alloc, words, before as u64 + 1, size)
}
