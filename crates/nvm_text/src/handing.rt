//! Bytes to a writer, of which it is known how many it took where it fails.
ghost use Rattle.std.specs.Prelude.{OnErr, OnOk};
ghost use Rattle.std.specs.Io.KnownBytes.{Appends};
ghost use Rattle.nvm_text.specs.Handed.{TakesFront};

use std::io;
use std::io::{Error, ErrorKind, Write};

/// The error of a writer, once it has failed.
pub type Noted = Option<Error>;

/// The writer failed, and its error is noted.
#[derive(Clone, Copy, Debug, PartialEq, Eq)]
pub struct Failed;

/// Writes all of the bytes, in as many calls as the writer wants. A call that was interrupted is made again.
///
/// Where the writer fails, its error is answered, or `WriteZero` where it takes no more bytes. It has taken a front of the bytes
/// then, and nothing else.
#[inline(always)]
pub fn hand<W: Write>(writer: &mut W, bytes: &[u8]) -> io::Result<()>
    ensures whole { OnOk result (Appends (W.contents writer.old) (W.contents writer.new) bytes.now) }
    ensures front { OnErr result (TakesFront (W.contents writer.old) (W.contents writer.new) bytes.now) }
{
    let mut noted = None;
    match hand_noting(writer, &mut noted, bytes) {
        Ok(()) => Ok(()),
        Err(Failed) => Err(noted_error(noted)),
    }
}

/// Does what [`hand`] does, and notes the error where the writer fails. That is for many short pieces: an `io::Result` has 96 bytes, and a call
/// that answers one clears and copies them, which takes more instructions than most pieces do.
///
/// Where the first call takes all of them, as a buffer with room does, it costs no more than that call.
#[inline(always)]
pub fn hand_noting<W: Write>(writer: &mut W, noted: &mut Noted, bytes: &[u8]) -> Result<(), Failed>
    ensures whole { OnOk result (Appends (W.contents writer.old) (W.contents writer.new) bytes.now) }
    ensures front { OnErr result (TakesFront (W.contents writer.old) (W.contents writer.new) bytes.now) }
{
    match writer.write(bytes) {
        Ok(count) if count == bytes.len() => Ok(()),
        Ok(0) => Err(note(noted, taken_none())),
        Ok(count) => hand_rest(writer, noted, &bytes[count..]),
        Err(error) if error.kind() == ErrorKind::Interrupted => hand_rest(writer, noted, bytes),
        Err(error) => Err(note(noted, error)),
    }
}

/// Writes all of the bytes, call by call.
#[cold]
#[inline(never)]
fn hand_rest<W: Write>(writer: &mut W, noted: &mut Noted, bytes: &[u8]) -> Result<(), Failed>
    ensures whole { OnOk result (Appends (W.contents writer.old) (W.contents writer.new) bytes.now) }
    ensures front { OnErr result (TakesFront (W.contents writer.old) (W.contents writer.new) bytes.now) }
{
    let mut rest = bytes;
    for _ in 0..u64::MAX {
        if rest.is_empty() {
            return Ok(());
        }
        match writer.write(rest) {
            Ok(0) => return Err(note(noted, taken_none())),
            Ok(count) => rest = &rest[count..],
            Err(error) => {
                if error.kind() != ErrorKind::Interrupted {
                    return Err(note(noted, error));
                }
            }
        }
    }
    Err(note(noted, taken_none()))
}

/// Notes the error.
#[cold]
#[inline(never)]
fn note(noted: &mut Noted, error: Error) -> Failed {
    *noted = Some(error);
    Failed
}

/// The error that was noted.
#[cold]
pub fn noted_error(noted: Noted) -> Error {
    noted.unwrap_or_else(taken_none)
}

/// What is answered where the writer takes no more.
fn taken_none() -> Error {
    Error::new(
        ErrorKind::WriteZero,
        "failed to write the whole of the bytes",
    )
}
