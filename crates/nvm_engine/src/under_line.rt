//! What is under the line of a command in the long form: what its list says of it, and the name and the number of its status.
ghost use Rattle.std.specs.Prelude.{◌≡◌, ◌≤◌, ◌+◌, ◌*◌, ◌++◌, OnErr, OnOk, drop, false};
ghost use Rattle.std.specs.Fmt.{digits};
ghost use Rattle.std.specs.Io.KnownBytes.{Appends};
ghost use Rattle.nvm_text.specs.Handed.{TakesFront};
ghost use Rattle.nvm_text.specs.Lines.{hex2};
ghost use Rattle.nvm_engine.specs.StatusNames.{status_digits};
ghost use Rattle.nvm_engine.specs.UnderLine.{after_next, lists_say, named_text, next_of, number_text, under};

use crate::form::Form;
use crate::status_names::status_name;
use nvm_list::next_said;
use nvm_record::Status;
use nvm_text::{Piece, hand};
use std::io;
use std::io::Write;

/// What the list of a host says of its next command. The list goes on after that.
pub(crate) fn take_said<'a>(lists: &mut [&'a [u8]], host: u16) -> &'a [u8]
    ensures said { result.now ≡ next_of (lists_say lists.old) host }
    ensures left { lists_say lists.new ≡ after_next (lists_say lists.old) host }
{
    let place = usize::from(host).saturating_sub(1);
    if place >= lists.len() {
        return &[];
    }
    let (said, rest) = next_said(lists[place]);
    lists[place] = rest;
    said
}

/// Writes what is under the line of a command in this form.
pub(crate) fn write_under<W: Write>(
    writer: &mut W,
    form: Form,
    said: &[u8],
    status: Status,
) -> io::Result<()>
    ensures whole { OnOk result (Appends (W.contents writer.old) (W.contents writer.new) (under form said.now status)) }
    ensures front { OnErr result (TakesFront (W.contents writer.old) (W.contents writer.new) (under form said.now status)) }
{
    match form {
        Form::Short => Ok(()),
        Form::Long => {
            write_named(writer, said, status)?;
            write_number(writer, status)
        }
    }
}

/// Writes what is said of a command, and the name of its status.
#[tactic(auto, unfolding(crate::specs::UnderLine::named_text))]
fn write_named<W: Write>(writer: &mut W, said: &[u8], status: Status) -> io::Result<()>
    ensures whole { OnOk result (Appends (W.contents writer.old) (W.contents writer.new) (named_text said.now status)) }
    ensures front { OnErr result (TakesFront (W.contents writer.old) (W.contents writer.new) (named_text said.now status)) }
{
    hand(writer, b"  ")?;
    hand(writer, said)?;
    hand(writer, b": ")?;
    hand(writer, status_name(status))
}

/// Writes the number of a status in parentheses, and the end of the line.
#[tactic(auto, unfolding(crate::specs::UnderLine::number_text))]
fn write_number<W: Write>(writer: &mut W, status: Status) -> io::Result<()>
    ensures whole { OnOk result (Appends (W.contents writer.old) (W.contents writer.new) (number_text status)) }
    ensures front { OnErr result (TakesFront (W.contents writer.old) (W.contents writer.new) (number_text status)) }
{
    hand(writer, b" (0x")?;
    write_digits(writer, status)?;
    hand(writer, b")\n")
}

/// Writes the digits of the number of a status: type * 256 + code, in hexadecimal digits without leading zeroes.
#[tactic(auto, unfolding(crate::specs::StatusNames::status_digits))]
fn write_digits<W: Write>(writer: &mut W, status: Status) -> io::Result<()>
    ensures whole { OnOk result (Appends (W.contents writer.old) (W.contents writer.new) (status_digits status)) }
    ensures front { OnErr result (TakesFront (W.contents writer.old) (W.contents writer.new) (status_digits status)) }
{
    let mut digits = Piece::new();
    digits.put_hex2(status.sc);
    digits.put_hex2(status.sct);
    hand(
        writer,
        &digits.as_slice()[leading_zeroes(status.sct, status.sc)..],
    )
}

/// How many of the four digits are leading zeroes.
fn leading_zeroes(sct: u8, sc: u8) -> usize
    ensures others { digits 16 false (sct * 256 + sc) ≡ drop result (hex2 sct ++ hex2 sc) }
    ensures few { result ≤ 3 }
{
    let number = u16::from(sct) * 256 + u16::from(sc);
    if number < 0x10 {
        3
    } else if number < 0x100 {
        2
    } else if number < 0x1000 {
        1
    } else {
        0
    }
}
