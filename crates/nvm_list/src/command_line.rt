ghost use Rattle.std.specs.Prelude.{◌≡◌};
ghost use Rattle.nvm_list.specs.Words.{words_in};
ghost use Rattle.nvm_list.specs.Lines as spec;
ghost use Rattle.nvm_list.specs.Answers.{Gives};

use crate::fault::LineFault;
use crate::line_cut::first_word;
use crate::name_word::operation;
use crate::operands::{Operands, read_operands};
use crate::option_words::{Options, read_options};
use nvm_record::{BlockSize, Command, Fuse, Op};
use std::alloc::Global;

/// The command that words say at a place of their list, where the first command is at place 1.
#[tactic(auto, unfolding(crate::specs::Lines::command))]
pub fn command(
    alloc: Global,
    words: &[u8],
    place: u64,
    size: BlockSize,
) -> Result<Command, LineFault>
    ensures { Gives (λ c. c) result (spec.command size place (words_in words.now)) }
{
    let (word, rest) = first_word(words);
    let op = operation(word)?;
    let (operands, rest) = read_operands(alloc, rest, op, size)?;
    let options = read_options(rest, op.carries_ranges())?;
    Ok(command_of(place, op, operands, options))
}

/// The command, with what stands for the options that aren't given.
fn command_of(place: u64, op: Op, operands: Operands, options: Options) -> Command
    ensures { result ≡ spec.command_of place op operands options }
{
    Command {
        cid: options.cid.unwrap_or((place % 65_536) as u16),
        nsid: options.nsid.unwrap_or(1),
        fuse: options.fuse.unwrap_or(Fuse::Normal),
        op: with_bit(op, options.deallocate),
        slba: operands.slba,
        nlb: operands.nlb,
        payload: operands.payload,
    }
}

/// The operation with its Deallocate bit, where it has one.
fn with_bit(op: Op, deallocate: bool) -> Op
    ensures { result ≡ spec.with_bit deallocate op }
{
    if op.carries_ranges() {
        Op::Dataset { deallocate }
    } else {
        op
    }
}
