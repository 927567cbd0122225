ghost use Rattle.std.specs.Prelude.{OnErr, OnOk};
ghost use Rattle.std.specs.Io.KnownBytes.{Appends};
ghost use Rattle.nvm_text.specs.Handed.{TakesFront};
ghost use Rattle.nvm_text.specs.Lines as spec;

use crate::front::front_of;
use crate::handing::hand;
use crate::run::write_runs;
use nvm_record::{Op, ReadData, Status};
use std::io;
use std::io::Write;

/// Writes the line of a command that asked for `op`, by the parts of its completion: `<host> <cid> <name> <type>/<code>`, and where
/// there is data, a space and the data as runs.
pub fn write_line<W: Write>(
    writer: &mut W,
    op: Op,
    host: u16,
    cid: u16,
    status: Status,
    payload: &Option<ReadData>,
) -> io::Result<()>
    ensures whole { OnOk result (Appends (W.contents writer.old) (W.contents writer.new)
        (spec.line op (record { host = host; cid = cid; status = status; payload = payload.now }))) }
    ensures front { OnErr result (TakesFront (W.contents writer.old) (W.contents writer.new)
        (spec.line op (record { host = host; cid = cid; status = status; payload = payload.now }))) }
{
    match payload {
        None => hand(writer, front_of(op, host, cid, status, b'\n').as_slice()),
        Some(data) => {
            hand(writer, front_of(op, host, cid, status, b' ').as_slice())?;
            write_runs(writer, data.as_slice())?;
            hand(writer, b"\n")
        }
    }
}
