ghost use Rattle.std.specs.Prelude.{◌≡◌, ◌≢◌, ◌<◌, ◌≤◌, ◌++◌, ℕ, List, IfOk, OnOk, OnErr, Some, length, slice_index};
ghost use Rattle.std.specs.Fmt.{HasWritten, IsPlainFormatter};
ghost use Rattle.std.specs.Io.KnownBytes.{Appends};
ghost use Rattle.nvm_text.specs.Handed.{TakesFront};
ghost use Rattle.nvm_text.specs.Runs.{runs, run_of};
ghost use Rattle.nvm_text.specs.Lines.{comma_before, runs_text, run_text};

use crate::handing::hand;
use crate::hex_byte::HexByte;
use crate::piece::Piece;
use std::fmt::{Display, Formatter};
use std::io::Write;
use std::{fmt, io};

/// The number of bytes of the chunks in which bytes are compared.
const CHUNK: usize = 64;

/// Writes the longest runs of equal bytes, `<count>*<byte>` each, joined by commas. Nothing is
/// written for no bytes.
pub fn write_runs<W: Write>(writer: &mut W, bytes: &[u8]) -> io::Result<()>
    ensures whole { OnOk result
        (Appends (W.contents writer.old) (W.contents writer.new) (runs_text (runs bytes.now))) }
    ensures front { OnErr result
        (TakesFront (W.contents writer.old) (W.contents writer.new) (runs_text (runs bytes.now))) }
{
    let mut rest = bytes;
    while !rest.is_empty() {
        rest = write_first_run(writer, rest)?;
    }
    Ok(())
}

/// Writes the first run, and gives the bytes after it. Where there are any, a comma follows the run.
fn write_first_run<'a, W: Write>(writer: &mut W, bytes: &'a [u8]) -> io::Result<&'a [u8]>
    requires { 0 < length bytes.now }
    ensures whole { IfOk result (λ rest. (length rest.now < length bytes.now) × (text : List ℕ)
        × (runs_text (runs bytes.now) ≡ text ++ runs_text (runs rest.now))
        × Appends (W.contents writer.old) (W.contents writer.new) text) }
    ensures front { OnErr result
        (TakesFront (W.contents writer.old) (W.contents writer.new) (runs_text (runs bytes.now))) }
{
    let count = run_length(bytes);
    let rest = &bytes[count..];
    hand(
        writer,
        run_piece(count, bytes[0], comma_before(rest)).as_slice(),
    )?;
    Ok(rest)
}

/// The text of one run, and what is between it and the bytes after it.
fn run_piece(count: usize, byte: u8, comma: &str) -> Piece
    requires { length comma.now ≤ 1 }
    ensures { result ≡ run_text (run_of count byte) ++ comma.now }
{
    let mut piece = Piece::new();
    piece.put(comma.as_bytes());
    piece.put_hex2(byte);
    piece.put_byte(b'*');
    piece.put_decimal(count as u64);
    piece
}

/// What is between a run and the bytes after it: a comma, where there are any.
fn comma_before(rest: &[u8]) -> &'static str
    ensures text { result.now ≡ comma_before rest.now }
    ensures short { length result.now ≤ 1 }
{
    if rest.is_empty() { "" } else { "," }
}

/// The longest runs of equal bytes, `<count>*<byte>` each, joined by commas. It is empty for no bytes.
#[derive(Clone, Copy)]
pub struct RunsText<'a>(pub &'a [u8]);

impl Display for RunsText<'_> {
    ghost output = { λ text. Some (runs_text (runs text.0.now)) };

    fn fmt<W: fmt::Write>(&self, f: &mut Formatter<W>) -> fmt::Result {
        let mut rest = self.0;
        while !rest.is_empty() {
            rest = show_first_run(f, rest)?;
        }
        Ok(())
    }
}

/// Shows the first run, and gives the bytes after it. Where there are any, a comma follows the run.
fn show_first_run<'a, W: fmt::Write>(
    f: &mut Formatter<W>,
    bytes: &'a [u8],
) -> Result<&'a [u8], fmt::Error>
    requires { 0 < length bytes.now }
    ensures fewer { IfOk result (λ rest. length rest.now < length bytes.now) }
    ensures shown { IsPlainFormatter f.old → IfOk result (λ rest. (text : List ℕ)
        × (runs_text (runs bytes.now) ≡ text ++ runs_text (runs rest.now))
        × HasWritten W.write_str_gives f.old text f.new) }
{
    let count = run_length(bytes);
    let rest = &bytes[count..];
    let comma = comma_before(rest);
    write!(f, "{count}*{}{comma}", HexByte(bytes[0]))?;
    Ok(rest)
}

/// How many bytes at the front are equal.
fn run_length(bytes: &[u8]) -> usize
    requires { 0 < length bytes.now }
    ensures some { 0 < result }
    ensures within { result ≤ length bytes.now }
    ensures equal { (k : ℕ) → k < result → slice_index bytes.now k ≡ slice_index bytes.now 0 }
    ensures longest { result < length bytes.now
        → slice_index bytes.now result ≢ slice_index bytes.now 0 }
{
    // Mostly all of them are, and then they equal themselves a byte on.
    let last = bytes.len() - 1;
    if bytes[1..] == bytes[..last] {
        return bytes.len();
    }
    let first = bytes[0];
    let mut count = equal_chunks(bytes);
    while count < bytes.len() && bytes[count] == first {
        count += 1;
    }
    count
}

/// How many bytes at the front are equal, as far as whole chunks tell: a chunk that equals the one a
/// byte before it goes on with the same byte.
fn equal_chunks(bytes: &[u8]) -> usize
    requires { 0 < length bytes.now }
    ensures some { 0 < result }
    ensures within { result ≤ length bytes.now }
    ensures equal { (k : ℕ) → k < result → slice_index bytes.now k ≡ slice_index bytes.now 0 }
{
    let mut count = 1;
    while bytes.len() - count >= CHUNK
        && bytes[count..count + CHUNK] == bytes[count - 1..count - 1 + CHUNK]
    {
        count += CHUNK;
    }
    count
}
