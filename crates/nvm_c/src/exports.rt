//! What C calls. Each export has the name and the number that C sees, and hands the call on; those on one port, to `port_calls.rt`.
ghost use Rattle.std.specs.Prelude.{◌≡◌, ◌++◌};
ghost use Rattle.nvm_c.specs.AuditCodes.{audit_number};
ghost use Rattle.nvm_c.specs.Audited.{IsAudited};
ghost use Rattle.nvm_record.specs.BlockSize.{IsBlockSize};
ghost use Rattle.nvm_c.specs.Carried.{IsCarried, no_length};
ghost use Rattle.nvm_c.specs.Codes.{number_of};
ghost use Rattle.nvm_c.specs.Exports.{Closes, PollsAt, SubmitsAt};
ghost use Rattle.nvm_c.specs.Identify.{IdentifiesAt, IdentifiesNumbers};
ghost use Rattle.nvm_c.specs.Opening.{Opens, engines_of, numbers_of};
ghost use Rattle.nvm_c.specs.ReadNow.{ReadsAt};
ghost use Rattle.nvm_c.specs.declared.audit_code.AuditCode.{AuditCode as AuditAnswer};
ghost use Rattle.nvm_c.specs.RecordCodes.{record_number};
ghost use Rattle.nvm_c.specs.Recorded.{IsRecorded, IsRecordedPart};
ghost use Rattle.nvm_c.specs.Refuted.{IsRefuted};
ghost use Rattle.nvm_c.specs.TraceAnswer as spec;
ghost use Rattle.nvm_c.specs.TraceAnswer.{IsAnswer, judging_of};
ghost use Rattle.nvm_c.specs.TraceCodes.{trace_number};
ghost use Rattle.nvm_c.specs.Witnessed.{IsWitnessed};
ghost use Rattle.nvm_c.specs.declared.code.Code.{Code as Answer};
ghost use Rattle.nvm_c.specs.declared.record_code.RecordCode.{RecordCode as Recording};
ghost use Rattle.nvm_c.specs.declared.trace_code.TraceCode.{TraceCode as TraceAnswer};

use crate::auditing::audited;
use crate::carried::carried;
use crate::handle::Handle;
use crate::identify::identify_numbers;
use crate::opening::{Numbers, open_ports};
use crate::port_calls::{closed, identified, polled, read_now, submitted, submitted_in_pieces};
use crate::reading::ReadStatus;
use crate::recording::{record_part, record_ports};
use crate::refuting::refuted;
use crate::witnessing::witnessed;
use nvm_trace::Judging;
use std::alloc::Global;

/// The version of the header that goes with this library.
const VERSION: u32 = 7;

/// The version of the header that goes with this library.
#[unsafe(no_mangle)]
pub extern "C" fn zk_version() -> u32
    ensures { result ≡ VERSION }
{
    VERSION
}

/// Opens each port of the array on a port of a new namespace, whose blocks are zero bytes. With a limit it is recorded.
#[unsafe(no_mangle)]
pub extern "C" fn zk_open(
    alloc: Global,
    ports: &mut [Handle],
    namespace: &Numbers,
    limit: u32,
    versions: bool,
) -> i32
    ensures { (code : Answer) × (result ≡ number_of code)
        × Opens code (numbers_of namespace.now) limit versions ports.old ports.new }
{
    open_ports(alloc, ports, namespace, limit, versions).number()
}

/// Closes the port. The namespace goes with its last port.
#[unsafe(no_mangle)]
pub extern "C" fn zk_close(alloc: Global, port: &mut Handle) -> i32
    ensures { (code : Answer) × (result ≡ number_of code) × Closes code port.old.held.engine port.new.held.engine }
{
    closed(alloc, port).number()
}

/// Begins the job of one submission queue entry of 64 bytes, or of a fused pair of two, and goes on with it.
#[unsafe(no_mangle)]
pub extern "C" fn zk_submit(
    alloc: Global,
    port: &mut Handle,
    entries: &[u8],
    data: &mut [u8],
    completions: &mut [u8],
) -> i32
    ensures { (code : Answer) × (result ≡ number_of code)
        × SubmitsAt code port.old.held.engine port.new.held.engine entries.now
        (record { bytes = data.old; posted = completions.old }) (record { bytes = data.new; posted = completions.new }) }
{
    submitted(alloc, port, entries, data, completions).number()
}

/// As `zk_submit` with a fused pair, whose data comes in two pieces: that of the Compare, and that of the Write.
#[unsafe(no_mangle)]
pub extern "C" fn zk_submit_pair(
    alloc: Global,
    port: &mut Handle,
    entries: &[u8],
    compared: &[u8],
    written: &[u8],
    completions: &mut [u8],
) -> i32
    ensures { (code : Answer) × (result ≡ number_of code)
        × SubmitsAt code port.old.held.engine port.new.held.engine entries.now
        (record { bytes = compared.now ++ written.now; posted = completions.old }) (record { bytes = compared.now ++ written.now; posted = completions.new }) }
{
    submitted_in_pieces(alloc, port, entries, compared, written, completions).number()
}

/// Goes on with the job that is pending in the port.
#[unsafe(no_mangle)]
pub extern "C" fn zk_poll(
    alloc: Global,
    port: &mut Handle,
    data: &mut [u8],
    completions: &mut [u8],
) -> i32
    ensures { (code : Answer) × (result ≡ number_of code)
        × PollsAt code port.old.held.engine port.new.held.engine
        (record { bytes = data.old; posted = completions.old }) (record { bytes = data.new; posted = completions.new }) }
{
    polled(alloc, port, data, completions).number()
}

/// How many bytes of data `zk_submit` takes with one entry, or with two that are a fused pair, in a namespace whose blocks have so many.
/// 2^64 - 1 is answered where it takes none of any length: where there is no namespace of such blocks, or another number of entries.
#[unsafe(no_mangle)]
pub extern "C" fn zk_data_length(entries: &[[u8; 64]], block_size: u32) -> usize
    ensures length { IsBlockSize block_size → IsCarried block_size entries.now result }
    ensures none { ¬ (IsBlockSize block_size) → result ≡ no_length }
{
    carried(entries, block_size)
}

/// Answers a Read of `nlb + 1` blocks without a wait, from what the port keeps.
#[unsafe(no_mangle)]
pub extern "C" fn zk_read_now(
    alloc: Global,
    port: &mut Handle,
    slba: u64,
    nlb: u16,
    buffer: &mut [u8],
    status: &mut ReadStatus,
) -> i32
    ensures { (code : Answer) × (result ≡ number_of code)
        × ReadsAt code port.old.held.engine port.new.held.engine slba nlb
        (record { bytes = buffer.old; status = status.old }) (record { bytes = buffer.new; status = status.new }) }
{
    read_now(alloc, port, slba, nlb, buffer, status).number()
}

/// Writes the Identify Namespace data structure of the port's namespace, 4,096 bytes.
#[unsafe(no_mangle)]
pub extern "C" fn zk_identify(alloc: Global, port: &mut Handle, buffer: &mut [u8]) -> i32
    ensures { (code : Answer) × (result ≡ number_of code)
        × IdentifiesAt code port.old.held.engine port.new.held.engine buffer.old buffer.new }
{
    identified(alloc, port, buffer).number()
}

/// Writes the same structure of the namespace that is opened with these numbers, without a port.
#[unsafe(no_mangle)]
pub extern "C" fn zk_identify_namespace(namespace: &Numbers, buffer: &mut [u8]) -> i32
    ensures { (code : Answer) × (result ≡ number_of code)
        × IdentifiesNumbers code (numbers_of namespace.now) buffer.old buffer.new }
{
    identify_numbers(namespace, buffer).number()
}

/// Audits the record that the bytes are a file of, and writes its line with a byte of 0 after it. Answers 0 where the record is
/// lawful, 16 where it isn't, and 17 where the bytes are no record's file. Nothing is written with 18, where the line with its byte of
/// 0 is longer than the room, and with 4, where memory was refused.
#[unsafe(no_mangle)]
pub extern "C" fn zk_audit(alloc: Global, bytes: &[u8], line: &mut [u8]) -> i32
    ensures { (code : AuditAnswer) × (result ≡ audit_number code) × IsAudited bytes.now code line.old line.new }
{
    audited(alloc, bytes, line).number()
}

/// Judges the trace that the one file has by the record or the order that the other has, and writes the line of that with a byte of 0 after it.
/// Answers 0 where it explains the trace, 22 where it doesn't, 24 where the bytes are no trace's file, and 17 where they are no
/// record's and no order's. With `strict` no order is taken.
/// Nothing is written with 18, where the line with its byte of 0 is longer than the room, and with 4, where memory was refused.
#[unsafe(no_mangle)]
pub extern "C" fn zk_witness(
    alloc: Global,
    trace: &[u8],
    evidence: &[u8],
    strict: bool,
    line: &mut [u8],
) -> i32
    ensures { (code : TraceAnswer) × (result ≡ trace_number code)
        × IsAnswer (IsWitnessed (judging_of strict) trace.now evidence.now) code line.old line.new }
{
    witnessed(alloc, judging_of(strict), trace, evidence, line).number()
}

/// Judges the trace that the one file has by the contradiction that the other has, and writes the line of that with a byte of 0 after it.
/// Answers 0 where no order of points explains the trace, held to what the line says, 23 where the contradiction doesn't show that, 24 where
/// the bytes are no trace's file, and 25 where they are no contradiction's. Nothing is written with 18 and 4, as by `zk_witness`.
#[unsafe(no_mangle)]
pub extern "C" fn zk_refute(
    alloc: Global,
    trace: &[u8],
    contradiction: &[u8],
    line: &mut [u8],
) -> i32
    ensures { (code : TraceAnswer) × (result ≡ trace_number code) × IsAnswer (IsRefuted trace.now contradiction.now) code line.old line.new }
{
    refuted(alloc, trace, contradiction, line).number()
}

/// What the device is held to.
fn judging_of(strict: bool) -> Judging
    ensures { result ≡ spec.judging_of strict }
{
    if strict {
        Judging::Strict
    } else {
        Judging::Standard
    }
}

/// Writes the file of the record of what all ports of a namespace did, and its length. Any other answer than 0 leaves the bytes as
/// they were; with 18 the length is the one that the room must have.
#[unsafe(no_mangle)]
pub extern "C" fn zk_record(
    alloc: Global,
    ports: &mut [Handle],
    bytes: &mut [u8],
    size: &mut usize,
) -> i32
    ensures { (code : Recording) × (result ≡ record_number code) × (engines_of ports.new ≡ engines_of ports.old)
        × IsRecorded code (engines_of ports.old) (record { bytes = bytes.old; size = size.old })
        (record { bytes = bytes.new; size = size.new }) }
{
    record_ports(alloc, ports, bytes, size).number()
}

/// Writes a piece of that file: what stands in it from a place on, as far as the room reaches. It tells the length of the whole
/// file. Any other answer than 0 leaves the bytes as they were.
#[unsafe(no_mangle)]
pub extern "C" fn zk_record_part(
    alloc: Global,
    ports: &mut [Handle],
    from: u64,
    bytes: &mut [u8],
    size: &mut usize,
) -> i32
    ensures { (code : Recording) × (result ≡ record_number code) × (engines_of ports.new ≡ engines_of ports.old)
        × IsRecordedPart code (engines_of ports.old) from (record { bytes = bytes.old; size = size.old })
        (record { bytes = bytes.new; size = size.new }) }
{
    record_part(alloc, ports, from as usize, bytes, size).number()
}
