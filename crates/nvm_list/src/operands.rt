ghost use Rattle.std.specs.Prelude.{◌≡◌};
ghost use Rattle.nvm_list.specs.Words.{words_in};
ghost use Rattle.nvm_list.specs.Lines as spec;
ghost use Rattle.nvm_list.specs.Answers.{Gives};

use crate::data_word::payload;
use crate::expected::Expected;
use crate::fault::LineFault;
use crate::line_cut::first_word;
use crate::number_word::number;
use crate::range_word::ranges;
use nvm_record::{BlockSize, Op, Payload, ranges_data};
use std::alloc::Global;

/// What a command is on: blocks, with their data where it carries some, or ranges.
#[derive(Drop)]
pub struct Operands {
    /// The starting LBA.
    pub slba: u64,
    /// The number of logical blocks, zeroes-based.
    pub nlb: u16,
    /// The data of the blocks, or the ranges.
    pub payload: Payload,
}

/// What a command that asks for `op` is on, and what comes after it.
pub fn read_operands(
    alloc: Global,
    words: &[u8],
    op: Op,
    size: BlockSize,
) -> Result<(Operands, &[u8]), LineFault>
    ensures { Gives (λ x. (x.0, words_in x.1.now)) result
        (spec.operands size op (words_in words.now)) }
{
    if op.carries_ranges() {
        on_ranges(alloc, words)
    } else {
        on_blocks(alloc, words, op, size)
    }
}

/// The ranges that the first word says, and what comes after it.
fn on_ranges(alloc: Global, words: &[u8]) -> Result<(Operands, &[u8]), LineFault>
    ensures { Gives (λ x. (x.0, words_in x.1.now)) result (spec.on_ranges (words_in words.now)) }
{
    let (word, rest) = first_word(words);
    let ranges = ranges(alloc, word)?;
    let payload = ranges_data(alloc, &ranges)?;
    let operands = Operands {
        slba: 0,
        nlb: 0,
        payload,
    };
    Ok((operands, rest))
}

/// The blocks that two words say, with the data that the next says where the operation carries some, and
/// what comes after them.
fn on_blocks(
    alloc: Global,
    words: &[u8],
    op: Op,
    size: BlockSize,
) -> Result<(Operands, &[u8]), LineFault>
    ensures { Gives (λ x. (x.0, words_in x.1.now)) result
        (spec.on_blocks size op (words_in words.now)) }
{
    let (word, rest) = first_word(words);
    let slba = lba(word)?;
    let (word, rest) = first_word(rest);
    let nlb = nlb(word)?;
    let (payload, rest) = carried(alloc, rest, op, nlb, size)?;
    Ok((Operands { slba, nlb, payload }, rest))
}

/// The LBA that a word says.
fn lba(word: &[u8]) -> Result<u64, Expected>
    ensures { result ≡ spec.lba word.now }
{
    match number(word, u64::MAX) {
        Some(lba) => Ok(lba),
        None => Err(Expected::Lba),
    }
}

/// The number of blocks that a word says, zeroes-based.
fn nlb(word: &[u8]) -> Result<u16, Expected>
    ensures { result ≡ spec.nlb word.now }
{
    match number(word, 65_536) {
        None | Some(0) => Err(Expected::Blocks),
        Some(blocks) => Ok((blocks - 1) as u16),
    }
}

/// The data that the first word says where the operation carries some, and what comes after it.
fn carried(
    alloc: Global,
    words: &[u8],
    op: Op,
    nlb: u16,
    size: BlockSize,
) -> Result<(Payload, &[u8]), LineFault>
    ensures { Gives (λ x. (x.0, words_in x.1.now)) result
        (spec.carried size op nlb (words_in words.now)) }
{
    if !op.carries_blocks() {
        return Ok((Payload::empty(), words));
    }
    let (word, rest) = first_word(words);
    let wanted = (u64::from(nlb) + 1) * u64::from(size.bytes());
    let payload = payload(alloc, word, wanted)?;
    Ok((payload, rest))
}
