ghost use Rattle.std.specs.Prelude.{◌≡◌, ◌+◌, ◌<◌, ◌≤◌, length};
ghost use Rattle.nvm_trace_text.specs.Inside.Answers.{now_if_any};
ghost use Rattle.nvm_trace_text.specs.Marks as spec;
ghost use Rattle.nvm_trace_text.specs.Marks.{before_mark, behind_mark};

use nvm_list::is_blank;

/// What stands before the first place where this byte is a word behind another, and what stands behind it, if there is one.
pub(crate) fn cut_at_mark(bytes: &[u8], mark: u8) -> (&[u8], Option<&[u8]>)
    ensures before { result.0.now ≡ before_mark mark bytes.now }
    ensures behind { now_if_any result.1 ≡ behind_mark mark bytes.now }
{
    let place = mark_place(bytes, mark);
    if place < bytes.len() {
        (&bytes[..place], Some(&bytes[place + 2..]))
    } else {
        (bytes, None)
    }
}

/// How many bytes stand before that place.
fn mark_place(bytes: &[u8], mark: u8) -> usize
    ensures place { result ≡ spec.mark_place mark bytes.now }
    ensures within { result ≤ length bytes.now }
    ensures room { result < length bytes.now → result + 2 ≤ length bytes.now }
{
    let mut place = 0;
    while place < bytes.len() && !is_mark(&bytes[place..], mark) {
        place += 1;
    }
    place
}

/// Whether a blank, the byte, and a blank or the end come next.
fn is_mark(bytes: &[u8], mark: u8) -> bool
    ensures { result ≡ spec.is_mark mark bytes.now }
{
    bytes.len() > 1
        && is_blank(bytes[0])
        && bytes[1] == mark
        && (bytes.len() == 2 || is_blank(bytes[2]))
}
