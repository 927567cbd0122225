ghost use Rattle.std.specs.Prelude.{◌≡◌, ◌+◌, List, [], IfOk, Ok, Err};
ghost use Rattle.nvm_record.specs.declared.command.Command.{Command as Listed};
ghost use Rattle.nvm_list.specs.Lists.{commands};
ghost use Rattle.nvm_list.specs.Words.{words};
ghost use Rattle.nvm_list.specs.declared.fault.ListFault.{ListFault};
ghost use Rattle.nvm_list.specs.declared.fault.ListFault.TheVariants.{Line};
ghost use Rattle.nvm_listing.specs.WrongLines as spec;

use nvm_list::{Expected, LineFault, command_of_words, cut, first_word, without_comment};
use nvm_record::{BlockSize, MOST_COMMANDS, NoMemory};
use std::alloc::{AllocError, Global};

/// A line of a list that is no command.
#[derive(Clone, Copy, Debug, PartialEq, Eq)]
pub struct WrongLine {
    /// The number of the line, from 1.
    pub line: u64,
    /// What was expected in it.
    pub expected: Expected,
}

/// All lines of a list that are no commands, in their order. There are none exactly where the list is read, and else the first is the one
/// that [`nvm_list::read_list`] answers. A line costs what it holds. `NoMemory` is answered where a growth was refused.
pub fn wrong_lines(alloc: Global, text: &[u8], size: BlockSize) -> Result<Vec<WrongLine>, NoMemory>
    ensures lines { IfOk result (λ wrong. wrong.items ≡ spec.wrong_lines size text.now) }
    ensures none { (cs : List Listed) → commands size text.now ≡ Ok cs → IfOk result (λ wrong. wrong.items ≡ []) }
    ensures first { (fault : ListFault) → commands size text.now ≡ Err fault → IfOk result (λ wrong. spec.BeginWith fault wrong.items) }
{
    wrong_from(alloc, text, size)
}

/// The wrong lines, line by line.
fn wrong_from(alloc: Global, text: &[u8], size: BlockSize) -> Result<Vec<WrongLine>, NoMemory>
    ensures { IfOk result (λ wrong. wrong.items ≡ spec.wrong_lines size text.now) }
{
    let mut wrong = Vec::new(alloc);
    let mut before = 0;
    let mut line: u64 = 0;
    let mut rest = Some(text);
    while let Some(bytes) = rest {
        let (text, after) = cut(bytes, b'\n');
        line += 1;
        match said_on(alloc, text, before, size)? {
            SaidLine::Nothing => {}
            SaidLine::Command => before += 1,
            SaidLine::Wrong(expected) => wrong.push(WrongLine { line, expected })?,
        }
        rest = after;
    }
    Ok(wrong)
}

/// What a line of a list says.
#[derive(Clone, Copy)]
pub(crate) enum SaidLine {
    /// It has no words.
    Nothing,
    /// It is a command.
    Command,
    /// It is none, since this was expected.
    Wrong(Expected),
}

/// What a line says after `before` commands.
fn said_on(alloc: Global, text: &[u8], before: usize, size: BlockSize) -> Result<SaidLine, NoMemory>
    ensures { IfOk result (λ said. said ≡ spec.said_on size (before + 1) (words text.now)) }
{
    let words = without_comment(text);
    let (word, _) = first_word(words);
    if word.is_empty() {
        return Ok(SaidLine::Nothing);
    }
    if before >= MOST_COMMANDS {
        return Ok(SaidLine::Wrong(Expected::NoMoreCommands));
    }
    match command_of_words(alloc, words, before as u64 + 1, size) {
        Ok(_) => Ok(SaidLine::Command),
        Err(LineFault::Expected(expected)) => Ok(SaidLine::Wrong(expected)),
        Err(LineFault::NoMemory) => Err(AllocError),
    }
}
