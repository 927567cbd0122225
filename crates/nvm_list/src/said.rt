//! What the lines of a list say, as it is written there.
ghost use Rattle.std.specs.Prelude.{◌≡◌, ◌≤◌, length};
ghost use Rattle.nvm_list.specs.Words.{first, others};
ghost use Rattle.nvm_list.specs.Said as spec;
ghost use Rattle.nvm_list.specs.Rest.{bytes_left};

use crate::line_cut::{cut, is_blank, without_comment};

/// What the next line of a list that has words says, and what comes after that line. A line says what comes before its
/// comment, without the blanks round it. Where no line has words, both are empty.
///
/// It looks no further than that line's end, so a list is gone through line by line in one pass.
pub fn next_said(text: &[u8]) -> (&[u8], &[u8])
    ensures said { result.0.now ≡ first (spec.said_lines text.now) }
    ensures rest { spec.said_lines result.1.now ≡ others (spec.said_lines text.now) }
{
    let mut rest = Some(text);
    while let Some(bytes) = rest {
        let (line, after) = cut(bytes, b'\n');
        let said = said(line);
        if !said.is_empty() {
            return (said, after.unwrap_or(&[]));
        }
        rest = after;
    }
    (&[], &[])
}

/// What a line says.
fn said(line: &[u8]) -> &[u8]
    ensures { result.now ≡ spec.said line.now }
{
    without_blanks_behind(without_blanks_before(without_comment(line)))
}

/// The bytes from the first on that isn't blank.
fn without_blanks_before(bytes: &[u8]) -> &[u8]
    ensures { result.now ≡ spec.without_blanks_before bytes.now }
{
    let mut start = 0;
    while start < bytes.len() && is_blank(bytes[start]) {
        start += 1;
    }
    &bytes[start..]
}

/// The bytes up to the last that isn't blank.
fn without_blanks_behind(bytes: &[u8]) -> &[u8]
    ensures { result.now ≡ spec.without_blanks_behind bytes.now }
{
    let mut end = bytes.len();
    while end > 0 && is_blank(bytes[end - 1]) {
        end -= 1;
    }
    &bytes[..end]
}
