ghost use Rattle.std.specs.Prelude.{◌≡◌};
ghost use Rattle.nvm_list.specs.Words.{words_in};
ghost use Rattle.nvm_trace_text.specs.Inside.Answers.{Gives, now_if_any};
ghost use Rattle.nvm_trace_text.specs.Lines as spec;

use crate::expected::TraceExpected;
use crate::fault::LineFault;
use crate::fields::is_end;
use nvm_list::{first_word, hex_byte, number, payload, place_of};
use nvm_plan::Body;
use nvm_record::{BlockSize, ReadData, Status, Statuses};
use nvm_trace::Ending;
use std::alloc::Global;

/// How a job ended, which `=` tells just where it did.
pub(crate) fn ending(
    alloc: Global,
    body: &Body,
    ended: Option<u64>,
    told: Option<&[u8]>,
    size: BlockSize,
) -> Result<Option<Ending>, LineFault>
    ensures { Gives (λ e. e) result (spec.ending size body.now ended (now_if_any told.entry)) }
{
    match (ended, told) {
        (None, None) => Ok(None),
        (None, Some(_)) => Err(LineFault::Expected(TraceExpected::NoReply)),
        (Some(_), None) => Err(LineFault::Expected(TraceExpected::Reply)),
        (Some(time), Some(words)) => {
            let (statuses, payload) = reply(alloc, body, words, size)?;
            Ok(Some(Ending {
                time,
                statuses,
                payload,
            }))
        }
    }
}

/// A status for each command, and data if it stands behind that of one command.
fn reply(
    alloc: Global,
    body: &Body,
    words: &[u8],
    size: BlockSize,
) -> Result<(Statuses, Option<ReadData>), LineFault>
    ensures { Gives (λ r. r) result (spec.reply size body.now (words_in words.now)) }
{
    let (word, rest) = first_word(words);
    let first = status(word)?;
    match body {
        Body::Single(command) => {
            let wanted = (u64::from(command.nlb) + 1) * u64::from(size.bytes());
            Ok((Statuses::One(first), read_data(alloc, rest, wanted)?))
        }
        Body::Pair(_, _) => {
            let (word, rest) = first_word(rest);
            let second = status(word)?;
            if !is_end(rest) {
                return Err(LineFault::Expected(TraceExpected::End));
            }
            Ok((Statuses::Two(first, second), None))
        }
    }
}

/// The `wanted` bytes of data that a word says, if there is one.
fn read_data(alloc: Global, words: &[u8], wanted: u64) -> Result<Option<ReadData>, LineFault>
    ensures { Gives (λ d. d) result (spec.read_data wanted (words_in words.now)) }
{
    let (word, rest) = first_word(words);
    if word.is_empty() {
        return Ok(None);
    }
    let payload = payload(alloc, word, wanted)?;
    if !is_end(rest) {
        return Err(LineFault::Expected(TraceExpected::End));
    }
    Ok(Some(ReadData::shared(payload)))
}

/// The status that `2/85` writes.
fn status(word: &[u8]) -> Result<Status, TraceExpected>
    ensures { result ≡ spec.status word.now }
{
    let place = place_of(word, b'/');
    if place == word.len() {
        return Err(TraceExpected::Status);
    }
    match (number(&word[..place], 255), hex_byte(&word[place + 1..])) {
        (Some(sct), Some(sc)) => Ok(Status { sct: sct as u8, sc }),
        _ => Err(TraceExpected::Status),
    }
}
