//! A line of text, in the room that C has for it.
ghost use Rattle.std.specs.Prelude.{IfErr, OnOk};
ghost use Rattle.nvm_c.specs.Inside.Line.{IsNotInRoom};
ghost use Rattle.nvm_c.specs.LineRoom.{IsInRoom};

use crate::telling::overwrite;

/// Why a line isn't in its room.
#[derive(Clone, Copy, Debug, PartialEq, Eq)]
pub enum LineFault {
    /// Memory was refused.
    NoMemory,
    /// The line with its byte of 0 is longer than its room.
    ShortRoom,
}

/// Writes the line into the front of its room, with a byte of 0 after it. Nothing is written where the room is too short.
pub(crate) fn put_line(mut line: Vec<u8>, room: &mut [u8]) -> Result<(), LineFault>
    ensures written { OnOk result (IsInRoom line.items room.old room.new) }
    ensures kept { IfErr result (λ fault. IsNotInRoom fault line.items room.old room.new) }
{
    if line.push(0).is_err() {
        return Err(LineFault::NoMemory);
    }
    if room.len() < line.len() {
        return Err(LineFault::ShortRoom);
    }
    overwrite(room, &line);
    Ok(())
}
