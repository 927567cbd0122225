//! A line of a list: what is before its word `expect`, and what it expects.
ghost use Rattle.std.specs.Prelude.{◌≡◌, ◌+◌, ◌≤◌, ◌∷◌, IfSome, length};
ghost use Rattle.std.specs.List.{slice_split};
ghost use Rattle.nvm_list.specs.Rest.{bytes_left, parts_left};
ghost use Rattle.nvm_list.specs.Words.{is_blank as parts_words};
ghost use Rattle.nvm_listing.specs.Expectation as spec;

use crate::expectation_fault::Expected;
use crate::status_word::status;
use nvm_list::{first_word, is_blank, without_comment};
use nvm_record::Status;

/// The word between a command and its status.
const EXPECT: &[u8] = b"expect";

/// The line before its word `expect`, or the line if it has none.
pub(crate) fn front(line: &[u8]) -> &[u8]
    ensures { result.now ≡ spec.front line.now }
{
    match expect_place(without_comment(line)) {
        Some(place) => &line[..place],
        None => line,
    }
}

/// The status that the line expects, if it has the word `expect`.
pub(crate) fn expectation(line: &[u8]) -> Result<Option<Status>, Expected>
    ensures { result ≡ spec.expectation line.now }
{
    let text = without_comment(line);
    let Some(place) = expect_place(text) else {
        return Ok(None);
    };
    let (command, _) = first_word(&text[..place]);
    if command.is_empty() {
        return Err(Expected::Command);
    }
    let (word, rest) = first_word(&text[place + EXPECT.len()..]);
    let Some(status) = status(word) else {
        return Err(Expected::Status);
    };
    let (more, _) = first_word(rest);
    if more.is_empty() {
        Ok(Some(status))
    } else {
        Err(Expected::End)
    }
}

/// Where the first word `expect` begins in a text without a comment.
fn expect_place(text: &[u8]) -> Option<usize>
    ensures place { result ≡ spec.place_among (slice_split parts_words text.now) }
    ensures within { IfSome result (λ place. place + 6 ≤ length text.now) }
{
    let mut place = 0;
    let mut rest = Some(text);
    while let Some(bytes) = rest {
        let (piece, after) = cut_at_blank(bytes);
        if piece == EXPECT {
            return Some(place);
        }
        place += piece.len() + 1;
        rest = after;
    }
    None
}

/// The bytes before the first blank, and those after it, where there is one.
fn cut_at_blank(bytes: &[u8]) -> (&[u8], Option<&[u8]>)
    ensures pieces { slice_split parts_words bytes.now ≡ result.0.now ∷ parts_left parts_words result.1 }
    ensures whole { length result.0.now + bytes_left result.1 ≡ length bytes.now }
{
    let mut place = 0;
    while place < bytes.len() && !is_blank(bytes[place]) {
        place += 1;
    }
    if place < bytes.len() {
        (&bytes[..place], Some(&bytes[place + 1..]))
    } else {
        (bytes, None)
    }
}
