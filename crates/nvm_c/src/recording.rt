//! The record of what the ports of a namespace did, as the bytes of its file.
ghost use Rattle.std.specs.Prelude.{◌≡◌, ◌<◌, ◌≤◌, ℕ, List, Option, IfErr, IfOk, OnOk, length, map};
ghost use Rattle.nvm_audit.specs.LawfulRecord.{IsLawfulRecord};
ghost use Rattle.nvm_file.specs.RecordFile.{IsRecordFile};
ghost use Rattle.nvm_file.specs.Spelling.{record_bytes};
ghost use Rattle.nvm_c.specs.Inside.Gathering.{IsLate};
ghost use Rattle.nvm_c.specs.Inside.Window.{IsHanded, IsHandedFile};
ghost use Rattle.nvm_c.specs.Opening.{engines_of};
ghost use Rattle.nvm_c.specs.Recorded.{AllHaveWorked, IsReason, IsRecordOf, IsRecorded, IsRecordedPart};
ghost use Rattle.nvm_c.specs.declared.engine.Engine.{Engine as Inside};

use crate::gather_fault::GatherFault;
use crate::gathering::record_of;
use crate::handle::Handle;
use crate::record_code::RecordCode;
use crate::telling::overwrite;
use crate::window::Window;
use crate::work::{Work, work_of};
use nvm_audit::{AuditFault, Record, audit_alone};
use nvm_file::write_record;
use std::alloc::Global;

/// Writes the file of the record of what the ports did, which are all those of a namespace. The record is audited before. How long the
/// file is, is told where it is written or longer than its room. The ports stay as they are.
pub(crate) fn record_ports(
    alloc: Global,
    ports: &mut [Handle],
    bytes: &mut [u8],
    size: &mut usize,
) -> RecordCode
    ensures same { engines_of ports.new ≡ engines_of ports.old }
    ensures recorded { IsRecorded result (engines_of ports.old) (record { bytes = bytes.old; size = size.old })
        (record { bytes = bytes.new; size = size.new }) }
{
    match file_of_ports(alloc, ports, 0, bytes.len()) {
        Ok(window) => put(&window, bytes, size),
        Err(code) => code,
    }
}

/// Writes the piece of that file that begins at a place, as far as the room reaches, and tells how long the file is.
pub(crate) fn record_part(
    alloc: Global,
    ports: &mut [Handle],
    from: usize,
    bytes: &mut [u8],
    size: &mut usize,
) -> RecordCode
    ensures same { engines_of ports.new ≡ engines_of ports.old }
    ensures recorded { IsRecordedPart result (engines_of ports.old) from (record { bytes = bytes.old; size = size.old })
        (record { bytes = bytes.new; size = size.new }) }
{
    match file_of_ports(alloc, ports, from, bytes.len()) {
        Ok(window) => put_part(&window, bytes, size),
        Err(code) => code,
    }
}

/// A window that was handed the file.
fn file_of_ports(
    alloc: Global,
    ports: &mut [Handle],
    from: usize,
    most: usize,
) -> Result<Window, RecordCode>
    ensures same { engines_of ports.new ≡ engines_of ports.old }
    ensures file { IfOk result (λ window. IsHandedFile (engines_of ports.old) window from most) }
    ensures refused { IfErr result (λ code. IsReason code (engines_of ports.old)) }
{
    match work_of(alloc, ports) {
        Ok(work) => file_of_work(alloc, work, from, most),
        Err(code) => Err(code),
    }
}

/// A window that was handed the file of the record of this work.
fn file_of_work(alloc: Global, work: Work, from: usize, most: usize) -> Result<Window, RecordCode>
    requires some { 0 < length work.done.items }
    requires few { length work.done.items ≤ 64 }
    ensures file { (held : List (Option Inside)) → AllHaveWorked work.geometry work.limit held (map (λ own. own.items) work.jobs.items)
        (map (λ did. did.items) work.done.items) → IfOk result (λ window. IsHandedFile held window from most) }
    ensures late { IfErr result IsLate }
{
    match record_of(alloc, work) {
        Ok(whole) => lawful_file(alloc, &whole, from, most),
        Err(fault) => Err(code_of(fault)),
    }
}

/// A window that was handed the file of the record, if the record is lawful.
fn lawful_file(
    alloc: Global,
    record: &Record,
    from: usize,
    most: usize,
) -> Result<Window, RecordCode>
    ensures lawful { OnOk result (IsLawfulRecord «record».now) }
    ensures file { OnOk result (IsRecordFile (record_bytes «record».now) «record».now) }
    ensures bytes { IfOk result (λ window. IsHanded window from most (record_bytes «record».now)) }
    ensures late { IfErr result IsLate }
{
    match audit_alone(alloc, record) {
        Ok(_) => {}
        Err(AuditFault::NoMemory) => return Err(RecordCode::NoMemory),
        Err(_) => return Err(RecordCode::Unlawful),
    }
    let mut window = Window::new(alloc, from, most);
    match write_record(&mut window, record) {
        Ok(()) => Ok(window),
        Err(_) => Err(RecordCode::NoMemory),
    }
}

/// Writes the file, if it fits.
fn put(window: &Window, bytes: &mut [u8], size: &mut usize) -> RecordCode
    ensures { (held : List (Option Inside)) → IsHandedFile held window.now 0 (length bytes.old)
        → IsRecorded result held (record { bytes = bytes.old; size = size.old }) (record { bytes = bytes.new; size = size.new }) }
{
    let count = window.count();
    *size = count;
    if bytes.len() < count {
        return RecordCode::ShortRoom;
    }
    overwrite(bytes, window.piece());
    RecordCode::Done
}

/// Writes the piece.
fn put_part(window: &Window, bytes: &mut [u8], size: &mut usize) -> RecordCode
    ensures { (held : List (Option Inside)) (from : ℕ) → IsHandedFile held window.now from (length bytes.old)
        → IsRecordedPart result held from (record { bytes = bytes.old; size = size.old }) (record { bytes = bytes.new; size = size.new }) }
{
    *size = window.count();
    overwrite(bytes, window.piece());
    RecordCode::Done
}

/// The code of what goes wrong while the record is gathered.
fn code_of(fault: GatherFault) -> RecordCode
    ensures { IsLate result }
{
    match fault {
        GatherFault::NoMemory => RecordCode::NoMemory,
        GatherFault::Unlawful => RecordCode::Unlawful,
    }
}
