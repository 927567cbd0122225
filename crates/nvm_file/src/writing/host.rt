ghost use Rattle.std.specs.Prelude.{OnErr, OnOk};
ghost use Rattle.std.specs.Io.KnownBytes.{Appends};
ghost use Rattle.nvm_record.specs.HostFile.{file_of};
ghost use Rattle.nvm_text.specs.Handed.{TakesFront};

use super::jobs::write_command;
use nvm_record::Command;
use nvm_text::{Failed, Noted, hand_noting, noted_error};
use std::io;
use std::io::Write;

/// What a host file begins with.
const NAME: [u8; 4] = *b"NVQ1";

/// Writes the host file of commands, piece by piece, every unnamed bit being 0. It takes no memory of its own, however much data they
/// have. It doesn't flush.
///
/// Where the writer fails, its error is answered, and it has taken a front of the file.
pub fn write_host<W: Write>(writer: &mut W, commands: &[Command]) -> io::Result<()>
    ensures whole { OnOk result (Appends (W.contents writer.old) (W.contents writer.new) (file_of commands.now)) }
    ensures front { OnErr result (TakesFront (W.contents writer.old) (W.contents writer.new) (file_of commands.now)) }
{
    let mut noted = None;
    match write_commands(writer, &mut noted, commands) {
        Ok(()) => Ok(()),
        Err(Failed) => Err(noted_error(noted)),
    }
}

fn write_commands<W: Write>(
    writer: &mut W,
    noted: &mut Noted,
    commands: &[Command],
) -> Result<(), Failed>
    ensures whole { OnOk result (Appends (W.contents writer.old) (W.contents writer.new) (file_of commands.now)) }
    ensures front { OnErr result (TakesFront (W.contents writer.old) (W.contents writer.new) (file_of commands.now)) }
{
    hand_noting(writer, noted, &NAME)?;
    for command in commands {
        write_command(writer, noted, command)?;
    }
    Ok(())
}
