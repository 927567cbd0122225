ghost use Rattle.std.specs.Prelude.{◌≡◌, ◌∷◌, [], ◌++◌, All, OnErr, OnOk, map};
ghost use Rattle.std.specs.Io.KnownBytes.{Appends};
ghost use Rattle.std.specs.List.{flat_map};
ghost use Rattle.byteorder.specs.Endian.{little_bytes};
ghost use Rattle.nvm_record.specs.declared.status.Statuses.TheVariants.{One};
ghost use Rattle.nvm_text.specs.Handed.{TakesFront};
ghost use Rattle.nvm_file.specs.Fits.{DoneFits, PartFits, StatusesFit};
ghost use Rattle.nvm_file.specs.Inside.Short.{IsShortDone, IsShortWork};
ghost use Rattle.nvm_file.specs.WorkSpelling as spec;
ghost use Rattle.nvm_file.specs.WorkSpelling.{done_bytes, payload_bytes, result_byte, statuses_bytes, work_bytes};

use super::bytes::count_bytes;
use byteorder::{ByteOrder, LittleEndian};
use nvm_audit::DoneJob;
use nvm_plan::{Part, PartResult};
use nvm_record::{ReadData, Status, Statuses};
use nvm_text::{Failed, Noted, hand_noting};
use std::io::Write;

/// Writes what each worker did.
pub fn write_workers<W: Write>(
    writer: &mut W,
    noted: &mut Noted,
    workers: &[Vec<DoneJob>],
) -> Result<(), Failed>
    requires { All (λ work. IsShortWork work.items) workers.now }
    ensures whole { OnOk result (Appends (W.contents writer.old) (W.contents writer.new)
        (flat_map work_bytes (map (λ work. work.items) workers.now))) }
    ensures front { OnErr result (TakesFront (W.contents writer.old) (W.contents writer.new)
        (flat_map work_bytes (map (λ work. work.items) workers.now))) }
    ensures fit { OnOk result (All (λ work. All DoneFits work.items) workers.now) }
{
    for work in workers {
        write_work(writer, noted, work)?;
    }
    Ok(())
}

/// Writes how many jobs the worker did, and each of them.
fn write_work<W: Write>(writer: &mut W, noted: &mut Noted, work: &[DoneJob]) -> Result<(), Failed>
    requires { IsShortWork work.now }
    ensures whole { OnOk result (Appends (W.contents writer.old) (W.contents writer.new) (work_bytes work.now)) }
    ensures front { OnErr result (TakesFront (W.contents writer.old) (W.contents writer.new) (work_bytes work.now)) }
    ensures fit { OnOk result (All DoneFits work.now) }
{
    hand_noting(writer, noted, &count_bytes(work.len()))?;
    for done in work {
        write_done(writer, noted, done)?;
    }
    Ok(())
}

fn write_done<W: Write>(writer: &mut W, noted: &mut Noted, done: &DoneJob) -> Result<(), Failed>
    requires { IsShortDone done.now }
    ensures whole { OnOk result (Appends (W.contents writer.old) (W.contents writer.new) (done_bytes done.now)) }
    ensures front { OnErr result (TakesFront (W.contents writer.old) (W.contents writer.new) (done_bytes done.now)) }
    ensures fits { OnOk result (DoneFits done.now) }
{
    let parts = done.parts.as_slice();
    if let Statuses::One(status) = done.statuses {
        if parts.len() == 1 {
            return write_one_part(writer, noted, done.job, parts[0], status, &done.payload);
        }
    }
    hand_noting(writer, noted, &done_front(done))?;
    write_parts(writer, noted, parts)?;
    write_statuses(writer, noted, done.statuses)?;
    write_payload(writer, noted, &done.payload)
}

/// Writes a done job of one command and one part, as most are. All before the data is handed over at once.
fn write_one_part<W: Write>(
    writer: &mut W,
    noted: &mut Noted,
    job: u32,
    part: Part,
    status: Status,
    payload: &Option<ReadData>,
) -> Result<(), Failed>
    ensures whole { OnOk result (Appends (W.contents writer.old) (W.contents writer.new)
        (done_bytes (record { job = job; parts = part ∷ []; statuses = One status; payload = payload.now }))) }
    ensures front { OnErr result (TakesFront (W.contents writer.old) (W.contents writer.new)
        (done_bytes (record { job = job; parts = part ∷ []; statuses = One status; payload = payload.now }))) }
    ensures fits { OnOk result (DoneFits (record { job = job; parts = part ∷ []; statuses = One status; payload = payload.now })) }
{
    match payload {
        None => hand_noting(writer, noted, &one_part_front(job, part, status, 0)),
        Some(payload) => {
            hand_noting(writer, noted, &one_part_front(job, part, status, 1))?;
            hand_noting(writer, noted, payload.as_slice())
        }
    }
}

/// What stands before the data: the job's number, a count of one part, the part, the status, and a flag, which is 1 where data follows.
fn one_part_front(job: u32, part: Part, status: Status, flag: u8) -> [u8; 16]
    ensures bytes { result ≡ little_bytes 4 job ++ (little_bytes 2 1 ++ (spec.part_bytes part ++ (status.sct ∷ status.sc ∷ flag ∷ []))) }
    ensures fits { PartFits part }
{
    let mut piece = [0; 16];
    LittleEndian::write_u32(&mut piece, job);
    LittleEndian::write_u16(&mut piece[4..], 1);
    LittleEndian::write_u16(&mut piece[6..], part.unit);
    LittleEndian::write_u32(&mut piece[8..], part.point);
    piece[12] = result_code(part.result);
    piece[13] = status.sct;
    piece[14] = status.sc;
    piece[15] = flag;
    piece
}

/// The job's number, and how many parts there are.
fn done_front(done: &DoneJob) -> [u8; 6]
    requires { IsShortDone done.now }
    ensures { result ≡ spec.done_front done.now }
{
    let mut front = [0; 6];
    LittleEndian::write_u32(&mut front, done.job);
    LittleEndian::write_u16(&mut front[4..], done.parts.len() as u16);
    front
}

fn write_parts<W: Write>(writer: &mut W, noted: &mut Noted, parts: &[Part]) -> Result<(), Failed>
    ensures whole { OnOk result (Appends (W.contents writer.old) (W.contents writer.new) (flat_map spec.part_bytes parts.now)) }
    ensures front { OnErr result (TakesFront (W.contents writer.old) (W.contents writer.new)
        (flat_map spec.part_bytes parts.now)) }
    ensures fit { OnOk result (All PartFits parts.now) }
{
    for part in parts {
        hand_noting(writer, noted, &part_bytes(*part))?;
    }
    Ok(())
}

/// The unit's number, the point, and how the part ended.
fn part_bytes(part: Part) -> [u8; 7]
    ensures bytes { result ≡ spec.part_bytes part }
    ensures fits { PartFits part }
{
    let mut bytes = [0; 7];
    LittleEndian::write_u16(&mut bytes, part.unit);
    LittleEndian::write_u32(&mut bytes[2..], part.point);
    bytes[6] = result_code(part.result);
    bytes
}

fn result_code(end: PartResult) -> u8
    ensures { result ≡ result_byte end }
{
    match end {
        PartResult::Done => 1,
        PartResult::Failed => 2,
        PartResult::Looked => 3,
        PartResult::NoMemory => 4,
        PartResult::Full => 5,
    }
}

/// Writes the status of each command.
pub fn write_statuses<W: Write>(
    writer: &mut W,
    noted: &mut Noted,
    statuses: Statuses,
) -> Result<(), Failed>
    ensures whole { OnOk result (Appends (W.contents writer.old) (W.contents writer.new) (statuses_bytes statuses)) }
    ensures front { OnErr result (TakesFront (W.contents writer.old) (W.contents writer.new) (statuses_bytes statuses)) }
    ensures fit { StatusesFit statuses }
{
    match statuses {
        Statuses::One(status) => hand_noting(writer, noted, &[status.sct, status.sc]),
        Statuses::Two(first, second) => {
            hand_noting(writer, noted, &[first.sct, first.sc, second.sct, second.sc])
        }
    }
}

/// Writes whether there is data, and the data.
pub fn write_payload<W: Write>(
    writer: &mut W,
    noted: &mut Noted,
    payload: &Option<ReadData>,
) -> Result<(), Failed>
    ensures whole { OnOk result (Appends (W.contents writer.old) (W.contents writer.new) (payload_bytes payload.now)) }
    ensures front { OnErr result (TakesFront (W.contents writer.old) (W.contents writer.new) (payload_bytes payload.now)) }
{
    match payload {
        None => hand_noting(writer, noted, &[0]),
        Some(payload) => {
            hand_noting(writer, noted, &[1])?;
            hand_noting(writer, noted, payload.as_slice())
        }
    }
}
