ghost use Rattle.std.specs.Prelude.{◌≡◌, ◌∷◌, ◌++◌, ◌<◌, ◌^◌, All, OnErr, OnOk, length};
ghost use Rattle.std.specs.Io.KnownBytes.{Appends};
ghost use Rattle.byteorder.specs.Endian.{little_bytes};
ghost use Rattle.nvm_record.specs.Entry.{HasFieldsInRange, entry_of, spelling_of};
ghost use Rattle.nvm_text.specs.Handed.{TakesFront};
ghost use Rattle.nvm_file.specs.Counted.{counted};
ghost use Rattle.nvm_file.specs.Fits.{JobFits};
ghost use Rattle.nvm_file.specs.JobSpelling.{job_bytes};

use super::bytes::count_bytes;
use byteorder::{ByteOrder, LittleEndian};
use nvm_plan::{Body, Job};
use nvm_record::{Command, command_bytes};
use nvm_text::{Failed, Noted, hand_noting};
use std::io::Write;

/// Writes how many jobs there are, and each of them.
pub fn write_jobs<W: Write>(writer: &mut W, noted: &mut Noted, jobs: &[Job]) -> Result<(), Failed>
    requires { length jobs.now < 2 ^ 32 }
    ensures whole { OnOk result (Appends (W.contents writer.old) (W.contents writer.new) (counted job_bytes jobs.now)) }
    ensures front { OnErr result (TakesFront (W.contents writer.old) (W.contents writer.new) (counted job_bytes jobs.now)) }
    ensures fit { OnOk result (All JobFits jobs.now) }
{
    hand_noting(writer, noted, &count_bytes(jobs.len()))?;
    for job in jobs {
        write_job(writer, noted, job)?;
    }
    Ok(())
}

/// Writes a job.
pub fn write_job<W: Write>(writer: &mut W, noted: &mut Noted, job: &Job) -> Result<(), Failed>
    ensures whole { OnOk result (Appends (W.contents writer.old) (W.contents writer.new) (job_bytes job.now)) }
    ensures front { OnErr result (TakesFront (W.contents writer.old) (W.contents writer.new) (job_bytes job.now)) }
    ensures fits { OnOk result (JobFits job.now) }
{
    match &job.body {
        Body::Single(command) => write_first(writer, noted, job.host, 0, command),
        Body::Pair(first, second) => {
            write_first(writer, noted, job.host, 1, first)?;
            write_command(writer, noted, second)
        }
    }
}

/// Writes what a job begins with: the number of its host, its kind, which is 0 for a command by itself and 1 for a pair, and its first command.
/// All before the command's data is handed over at once.
#[inline(always)]
fn write_first<W: Write>(
    writer: &mut W,
    noted: &mut Noted,
    host: u16,
    kind: u8,
    command: &Command,
) -> Result<(), Failed>
    ensures whole { OnOk result (Appends (W.contents writer.old) (W.contents writer.new)
        (little_bytes 2 host ++ (kind ∷ spelling_of command.now))) }
    ensures front { OnErr result (TakesFront (W.contents writer.old) (W.contents writer.new)
        (little_bytes 2 host ++ (kind ∷ spelling_of command.now))) }
    ensures fits { HasFieldsInRange command.now }
{
    hand_noting(writer, noted, &first_piece(host, kind, command))?;
    hand_noting(writer, noted, command.payload.as_slice())
}

/// The number of the host, the kind, and the command's submission entry.
fn first_piece(host: u16, kind: u8, command: &Command) -> [u8; 67]
    ensures bytes { result ≡ little_bytes 2 host ++ (kind ∷ entry_of command.now) }
    ensures fits { HasFieldsInRange command.now }
{
    let mut piece = [0; 67];
    LittleEndian::write_u16(&mut piece, host);
    piece[2] = kind;
    piece[3..].copy_from_slice(&command_bytes(command));
    piece
}

/// Writes a command's submission entry, and its data.
pub fn write_command<W: Write>(
    writer: &mut W,
    noted: &mut Noted,
    command: &Command,
) -> Result<(), Failed>
    ensures whole { OnOk result (Appends (W.contents writer.old) (W.contents writer.new) (spelling_of command.now)) }
    ensures front { OnErr result (TakesFront (W.contents writer.old) (W.contents writer.new) (spelling_of command.now)) }
    ensures fits { HasFieldsInRange command.now }
{
    hand_noting(writer, noted, &command_bytes(command))?;
    hand_noting(writer, noted, command.payload.as_slice())
}
