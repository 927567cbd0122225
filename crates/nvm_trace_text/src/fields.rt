//! Single words and numbers of a line.
ghost use Rattle.std.specs.Prelude.{◌≡◌};
ghost use Rattle.nvm_list.specs.Words.{words_in};
ghost use Rattle.nvm_trace_text.specs.Head as head;
ghost use Rattle.nvm_trace_text.specs.Inside.Answers.{AnswersWith};
ghost use Rattle.nvm_trace_text.specs.Lines as spec;

use crate::expected::TraceExpected;
use nvm_list::{first_word, number};

/// The number from `least` to `most` that the first word says, and what stands after it.
pub(crate) fn field(
    words: &[u8],
    least: u64,
    most: u64,
    expected: TraceExpected,
) -> Result<(u64, &[u8]), TraceExpected>
    ensures { AnswersWith (λ x. (x.0, words_in x.1.now)) result (spec.field least most expected (words_in words.now)) }
{
    let (word, rest) = first_word(words);
    match number(word, most) {
        Some(number) if number >= least => Ok((number, rest)),
        _ => Err(expected),
    }
}

/// The time at which something ended, or `None` for `-`, and what stands after it. The last number of 64 bits is no such time, since in a
/// file it stands for no end.
pub(crate) fn end_time(words: &[u8]) -> Result<(Option<u64>, &[u8]), TraceExpected>
    ensures { AnswersWith (λ x. (x.0, words_in x.1.now)) result (spec.end_time (words_in words.now)) }
{
    let (word, rest) = first_word(words);
    if word == b"-".as_slice() {
        return Ok((None, rest));
    }
    let (time, rest) = field(words, 0, u64::MAX - 1, TraceExpected::Ended)?;
    Ok((Some(time), rest))
}

/// What stands after this word.
pub(crate) fn behind_key<'a>(words: &'a [u8], key: &[u8]) -> Result<&'a [u8], TraceExpected>
    ensures { AnswersWith (λ rest. words_in rest.now) result (head.behind_key key.now (words_in words.now)) }
{
    let (word, rest) = first_word(words);
    if word == key {
        Ok(rest)
    } else {
        Err(TraceExpected::Head)
    }
}

/// The number up to `most` behind this word, and what stands after it.
pub(crate) fn keyed<'a>(
    words: &'a [u8],
    key: &[u8],
    most: u64,
) -> Result<(u64, &'a [u8]), TraceExpected>
    ensures { AnswersWith (λ x. (x.0, words_in x.1.now)) result (head.keyed key.now most (words_in words.now)) }
{
    let rest = behind_key(words, key)?;
    let (word, rest) = first_word(rest);
    match number(word, most) {
        Some(number) => Ok((number, rest)),
        None => Err(TraceExpected::Head),
    }
}

/// The same, or 0 where another word stands here.
pub(crate) fn keyed_or_zero<'a>(
    words: &'a [u8],
    key: &[u8],
    most: u64,
) -> Result<(u64, &'a [u8]), TraceExpected>
    ensures { AnswersWith (λ x. (x.0, words_in x.1.now)) result (head.keyed_or_zero key.now most (words_in words.now)) }
{
    let (word, _) = first_word(words);
    if word == key {
        keyed(words, key, most)
    } else {
        Ok((0, words))
    }
}

/// Whether no word stands here.
pub(crate) fn is_end(words: &[u8]) -> bool
    ensures { result ≡ head.is_end (words_in words.now) }
{
    let (word, _) = first_word(words);
    word.is_empty()
}
