ghost use Rattle.std.specs.Prelude.{◌≡◌};
ghost use Rattle.nvm_list.specs.Words.{words_in};
ghost use Rattle.nvm_trace_text.specs.Head as spec;
ghost use Rattle.nvm_trace_text.specs.Inside.Answers.{AnswersWith};

use crate::expected::TraceExpected;
use crate::fields::{behind_key, is_end, keyed, keyed_or_zero};
use nvm_list::first_word;
use nvm_trace::{Deallocated, Reads, Start};

/// What the head of a text says.
#[derive(Clone, Copy)]
pub(crate) struct Head {
    pub(crate) numbers: Numbers,
    pub(crate) first: u64,
    pub(crate) start: Start,
    pub(crate) reads: Reads,
    pub(crate) deallocated: Deallocated,
}

/// Six numbers, which may be a namespace's.
#[derive(Clone, Copy)]
pub(crate) struct Numbers {
    pub(crate) nsze: u64,
    pub(crate) block: u32,
    pub(crate) nabsn: u16,
    pub(crate) nabo: u16,
    pub(crate) nawun: u16,
    pub(crate) nacwu: u16,
}

/// The head that the words of a line say.
pub(crate) fn read_head(words: &[u8]) -> Result<Head, TraceExpected>
    ensures { result ≡ spec.head (words_in words.now) }
{
    let rest = behind_key(words, b"trace")?;
    let (numbers, rest) = numbers_of(rest)?;
    head_with(numbers, rest)
}

/// The head of these numbers, and of the words behind them.
#[tactic(auto, unfolding(crate::specs::Head::head_with))]
fn head_with(numbers: Numbers, words: &[u8]) -> Result<Head, TraceExpected>
    ensures { result ≡ spec.head_with numbers (words_in words.now) }
{
    let (first, rest) = keyed(words, b"first", u64::MAX)?;
    let (start, rest) = start_of(rest)?;
    let (reads, rest) = reads_of(rest)?;
    let (deallocated, rest) = deallocated_of(rest)?;
    if !is_end(rest) {
        return Err(TraceExpected::Head);
    }
    Ok(Head {
        numbers,
        first,
        start,
        reads,
        deallocated,
    })
}

/// The numbers of a namespace, and what stands after them.
#[tactic(auto, unfolding(crate::specs::Head::numbers_of))]
fn numbers_of(words: &[u8]) -> Result<(Numbers, &[u8]), TraceExpected>
    ensures { AnswersWith (λ x. (x.0, words_in x.1.now)) result (spec.numbers_of (words_in words.now)) }
{
    let (nsze, rest) = keyed(words, b"nsze", u64::MAX)?;
    let (block, rest) = keyed(rest, b"block", u64::from(u32::MAX))?;
    let (nabsn, rest) = keyed(rest, b"nabsn", u64::from(u16::MAX))?;
    let (nabo, rest) = keyed(rest, b"nabo", u64::from(u16::MAX))?;
    let (nawun, rest) = keyed(rest, b"nawun", u64::from(u16::MAX))?;
    let (nacwu, rest) = keyed(rest, b"nacwu", u64::from(u16::MAX))?;
    let (awun, rest) = keyed_or_zero(rest, b"awun", u64::from(u16::MAX))?;
    let (acwu, rest) = keyed_or_zero(rest, b"acwu", u64::from(u16::MAX))?;
    let numbers = Numbers {
        nsze,
        block: block as u32,
        nabsn: nabsn as u16,
        nabo: nabo as u16,
        nawun: limit_of(nabsn as u16, nawun as u16, awun as u16),
        nacwu: limit_of(nabsn as u16, nacwu as u16, acwu as u16),
    };
    Ok((numbers, rest))
}

/// A limit of the namespace, or the controller's where it is 0, and no more than a boundary leaves.
fn limit_of(nabsn: u16, own: u16, controllers: u16) -> u16
    ensures { result ≡ spec.limit_of nabsn own controllers }
{
    let limit = if own == 0 { controllers } else { own };
    if nabsn > 0 && limit > nabsn {
        nabsn
    } else {
        limit
    }
}

/// What was known of the blocks, and what stands after it.
fn start_of(words: &[u8]) -> Result<(Start, &[u8]), TraceExpected>
    ensures { AnswersWith (λ x. (x.0, words_in x.1.now)) result (spec.start_of (words_in words.now)) }
{
    let (word, rest) = first_word(behind_key(words, b"start")?);
    if word == b"zeroes".as_slice() {
        Ok((Start::Zeroes, rest))
    } else if word == b"unknown".as_slice() {
        Ok((Start::Unknown, rest))
    } else {
        Err(TraceExpected::Head)
    }
}

/// What Reads are held to, and what stands after it.
fn reads_of(words: &[u8]) -> Result<(Reads, &[u8]), TraceExpected>
    ensures { AnswersWith (λ x. (x.0, words_in x.1.now)) result (spec.reads_of (words_in words.now)) }
{
    let (word, rest) = first_word(behind_key(words, b"reads")?);
    if word == b"atomic".as_slice() {
        Ok((Reads::Atomic, rest))
    } else if word == b"whole".as_slice() {
        Ok((Reads::Whole, rest))
    } else if word == b"by-blocks".as_slice() {
        Ok((Reads::ByBlocks, rest))
    } else {
        Err(TraceExpected::Head)
    }
}

/// What a deallocated block may read as, where words stand here that say it, and what stands after them.
fn deallocated_of(words: &[u8]) -> Result<(Deallocated, &[u8]), TraceExpected>
    ensures { AnswersWith (λ x. (x.0, words_in x.1.now)) result (spec.deallocated_of (words_in words.now)) }
{
    if is_end(words) {
        return Ok((Deallocated::Either, words));
    }
    let (word, rest) = first_word(behind_key(words, b"deallocated")?);
    if word == b"zeroes".as_slice() {
        Ok((Deallocated::Zeroes, rest))
    } else if word == b"ones".as_slice() {
        Ok((Deallocated::Ones, rest))
    } else if word == b"either".as_slice() {
        Ok((Deallocated::Either, rest))
    } else {
        Err(TraceExpected::Head)
    }
}
