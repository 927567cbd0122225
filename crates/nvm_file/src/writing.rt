ghost use Rattle.std.specs.Prelude.{OnErr, OnOk};
ghost use Rattle.std.specs.Io.KnownBytes.{Appends};
ghost use Rattle.nvm_text.specs.Handed.{TakesFront};
ghost use Rattle.nvm_file.specs.Fits.{FitsItsFields};
ghost use Rattle.nvm_file.specs.RecordFile.{IsRecordFile};
ghost use Rattle.nvm_file.specs.Spelling.{record_bytes};

use crate::laws::spellings_are_files;
use nvm_audit::Record;
use nvm_text::{Failed, Noted, noted_error};
use std::io;
use std::io::Write;

mod bytes;
mod done_jobs;
mod entries;
mod head;
mod host;
mod jobs;
mod traces;

use done_jobs::write_workers;
use entries::write_units;
use head::write_head;
pub use host::write_host;
use jobs::write_jobs;
pub use traces::write_trace;

/// Writes the record as a file of its version, piece by piece. It takes no memory of its own, however large the record is. Most
/// pieces are short, so hand it a [`BufWriter`](std::io::BufWriter) where each write costs. It doesn't flush.
///
/// What was handed over whole is a file of the record, by [`spellings_are_files`]: it is read as just that record.
///
/// Where the writer fails, its error is answered, and it has taken a front of the file. A `Vec` is a writer too, which fails
/// where memory is refused.
pub fn write_record<W: Write>(writer: &mut W, run: &Record) -> io::Result<()>
    ensures whole { OnOk result (Appends (W.contents writer.old) (W.contents writer.new) (record_bytes run.now)) }
    ensures front { OnErr result (TakesFront (W.contents writer.old) (W.contents writer.new) (record_bytes run.now)) }
    ensures fits { OnOk result (FitsItsFields run.now) }
    ensures file { OnOk result (IsRecordFile (record_bytes run.now) run.now) }
{
    let mut noted = None;
    match write_pieces(writer, &mut noted, run) {
        Ok(()) => Ok(()),
        Err(Failed) => Err(noted_error(noted)),
    }
}

/// Writes the parts of the file, one after the other.
fn write_pieces<W: Write>(writer: &mut W, noted: &mut Noted, run: &Record) -> Result<(), Failed>
    ensures whole { OnOk result (Appends (W.contents writer.old) (W.contents writer.new) (record_bytes run.now)) }
    ensures front { OnErr result (TakesFront (W.contents writer.old) (W.contents writer.new) (record_bytes run.now)) }
    ensures fits { OnOk result (FitsItsFields run.now) }
    ensures file { OnOk result (IsRecordFile (record_bytes run.now) run.now) }
{
    spellings_are_files();
    write_head(writer, noted, run)?;
    write_jobs(writer, noted, &run.jobs)?;
    write_units(writer, noted, &run.units)?;
    write_workers(writer, noted, &run.done)
}
