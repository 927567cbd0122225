ghost use Rattle.std.specs.Prelude.{OnErr, OnOk, decimal};
ghost use Rattle.std.specs.Io.KnownBytes.{Appends};
ghost use Rattle.nvm_text.specs.Handed.{TakesFront};

use crate::handing::hand;
use crate::piece::Piece;
use std::io;
use std::io::Write;

/// Writes a number in decimal digits.
pub fn write_decimal<W: Write>(writer: &mut W, number: u64) -> io::Result<()>
    ensures whole { OnOk result (Appends (W.contents writer.old) (W.contents writer.new) (decimal number)) }
    ensures front { OnErr result (TakesFront (W.contents writer.old) (W.contents writer.new) (decimal number)) }
{
    let mut digits = Piece::new();
    digits.put_decimal(number);
    hand(writer, digits.as_slice())
}
