//! The verdict on a record that C has as the bytes of its file.
ghost use Rattle.std.specs.Prelude.{◌≡◌, ◌≢◌, ◌++◌, IfOk, OnOk, decimal};
ghost use Rattle.nvm_file.specs.declared.record_fault.RecordFault.TheVariants.{NoMemory as NoMemoryFault};
ghost use Rattle.nvm_c.specs.Audited as spec;
ghost use Rattle.nvm_c.specs.Audited.{IsAudited, IsFound, IsRuling};
ghost use Rattle.nvm_c.specs.UnreadLine as unread;

use crate::audit_code::AuditCode;
use crate::line::{LineFault, put_line};
use nvm_audit::Record;
use nvm_engine::{Judged, judge_alone};
use nvm_file::{RecordFault, read_record};
use nvm_record::{NoMemory, Payload};
use nvm_text::write_decimal;
use std::alloc::{AllocError, Global};

/// What is found in the bytes of a file, and its line.
#[derive(Drop)]
pub(crate) struct Found {
    code: AuditCode,
    line: Vec<u8>,
}

/// Audits the record that the bytes are a file of, and writes its line with a byte of 0 after it. Nothing is written where
/// the room is too short.
pub(crate) fn audited(alloc: Global, bytes: &[u8], room: &mut [u8]) -> AuditCode
    ensures { IsAudited bytes.now result room.old room.new }
{
    let Ok(found) = finding_in(alloc, bytes) else {
        return AuditCode::NoMemory;
    };
    let Found { code, line } = found;
    match put_line(line, room) {
        Ok(()) => code,
        Err(LineFault::NoMemory) => AuditCode::NoMemory,
        Err(LineFault::ShortRoom) => AuditCode::ShortRoom,
    }
}

/// What is found in the bytes.
fn finding_in(alloc: Global, bytes: &[u8]) -> Result<Found, NoMemory>
    ensures { IfOk result (λ found. IsFound bytes.now found.code found.line.items) }
{
    let file = Payload::copy_of(alloc, bytes)?;
    match read_record(alloc, &file) {
        Ok(record) => ruling(alloc, &record),
        Err(fault) => Ok(Found {
            code: AuditCode::BadRecord,
            line: unread_line(alloc, fault)?,
        }),
    }
}

/// What is found of a record.
fn ruling(alloc: Global, record: &Record) -> Result<Found, NoMemory>
    ensures { IfOk result (λ found. IsRuling «record».now found.code found.line.items) }
{
    let judged = judge_alone(alloc, record)?;
    let mut line = Vec::new(alloc);
    match judged.write_line(&mut line) {
        Ok(()) => Ok(Found {
            code: code_of(&judged),
            line,
        }),
        Err(_) => Err(AllocError),
    }
}

/// The code of what an audit answered.
fn code_of(judged: &Judged) -> AuditCode
    ensures { result ≡ spec.code_of judged.now }
{
    if judged.status() == 0 {
        AuditCode::Lawful
    } else {
        AuditCode::Unlawful
    }
}

/// The line of bytes that are no record's file. Want of memory is no fault of theirs: it is answered.
pub(crate) fn unread_line(alloc: Global, fault: RecordFault) -> Result<Vec<u8>, NoMemory>
    ensures known { OnOk result (fault ≢ NoMemoryFault) }
    ensures line { IfOk result (λ line. line.items ≡ unread.unread_line fault) }
{
    let mut line = Vec::new(alloc);
    line.extend_from_slice(b"record: ")?;
    push_fault(&mut line, fault)?;
    line.push(b'\n')?;
    Ok(line)
}

/// Appends the fault in words.
fn push_fault(line: &mut Vec<u8>, fault: RecordFault) -> Result<(), NoMemory>
    ensures known { OnOk result (fault ≢ NoMemoryFault) }
    ensures words { OnOk result (line.new.items ≡ line.old.items ++ unread.unread_text fault) }
{
    match fault {
        RecordFault::BadName => line.extend_from_slice(b"bad name"),
        RecordFault::Version => line.extend_from_slice(b"unknown version"),
        RecordFault::Truncated { at } => push_offset(line, b"truncated at ", at),
        RecordFault::Trailing { at } => push_offset(line, b"trailing at ", at),
        RecordFault::BadValue { at } => push_offset(line, b"bad value at ", at),
        RecordFault::NoMemory => Err(AllocError),
    }
}

/// Appends the words, and the offset after them.
fn push_offset(line: &mut Vec<u8>, words: &[u8], at: u64) -> Result<(), NoMemory>
    ensures { OnOk result (line.new.items ≡ line.old.items ++ (words.now ++ decimal at)) }
{
    line.extend_from_slice(words)?;
    match write_decimal(line, at) {
        Ok(()) => Ok(()),
        Err(_) => Err(AllocError),
    }
}
