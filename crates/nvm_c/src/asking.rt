//! The job for which C's entries ask.
ghost use Rattle.std.specs.Prelude.{◌≡◌, ◌⊎◌, ◌++◌, ◌+◌, ◌*◌, ◌^◌, ◌<◌, ◌≤◌, ℕ, List, IfOk, IfErr, drop, false, if◌then◌else◌, length};
ghost use Rattle.byteorder.specs.Endian.{little_number};
ghost use Rattle.std.specs.Bool.{OnTrue};
ghost use Rattle.nvm_geometry.specs.Namespace.{Namespace};
ghost use Rattle.nvm_record.specs.Entry.{IsSpelling, IsWhole, called_for, data_length};
ghost use Rattle.nvm_record.specs.Op.{carries_ranges};
ghost use Rattle.nvm_plan.specs.OnlyPart.{command_lent};
ghost use Rattle.nvm_plan.specs.Fits.{FitsNamespace};
ghost use Rattle.nvm_c.specs.Asked as spec;
ghost use Rattle.nvm_c.specs.Asked.{IsAsked, IsAskedAlone};
ghost use Rattle.nvm_c.specs.Refused.{IsRefusal};
ghost use Rattle.nvm_c.specs.Told.{posted_length};

use crate::code::Code;
use nvm_geometry::LargeGeometry;
use nvm_plan::{Body, Job, fits};
use nvm_record::{
    BlockSize, Command, CommandFault, EntryFields, NoMemory, Op, Payload, entry_fields,
    read_command,
};
use std::alloc::Global;

/// The job of one entry.
pub(crate) fn asked_job(
    alloc: Global,
    geometry: &LargeGeometry,
    host: u16,
    entries: &[u8],
    buffer: &[u8],
) -> Result<Job, Code>
    ensures asked { IfOk result (λ job. IsAsked geometry.now.block_size host entries.now buffer.now job) }
    ensures fits { IfOk result (λ job. FitsNamespace geometry.now job) }
    ensures refused { IfErr result IsRefusal }
{
    if entries.len() != 64 {
        return Err(Code::BadLength);
    }
    let command = asked_alone(alloc, geometry.block_size(), entries, buffer)?;
    let job = Job {
        host,
        body: Body::Single(command),
    };
    if !fits(geometry, &job) {
        return Err(Code::NoPair);
    }
    Ok(job)
}

/// The job of two entries, with the data of the first and that of the second.
pub(crate) fn asked_pair(
    alloc: Global,
    geometry: &LargeGeometry,
    host: u16,
    entries: &[u8],
    compared: &[u8],
    written: &[u8],
) -> Result<Job, Code>
    requires { length entries.now ≡ 128 }
    ensures asked { IfOk result (λ job. IsAsked geometry.now.block_size host entries.now (compared.now ++ written.now) job) }
    ensures two { IfOk result (λ job. posted_length job.body ≡ 32) }
    ensures fits { IfOk result (λ job. FitsNamespace geometry.now job) }
    ensures refused { IfErr result IsRefusal }
{
    let size = geometry.block_size();
    let (first, second) = entries.split_at(64);
    if compared.len() != called(size, first) {
        return Err(Code::BadLength);
    }
    let compare = command_of(alloc, size, first, compared)?;
    let write = command_of(alloc, size, second, written)?;
    let job = Job {
        host,
        body: Body::Pair(compare, write),
    };
    if !fits(geometry, &job) {
        return Err(Code::NoPair);
    }
    Ok(job)
}

/// Whether it is one entry, of a command without ranges.
pub(crate) fn is_plain(entries: &[u8]) -> bool
    ensures one { OnTrue result (length entries.now ≡ 64) }
    ensures plain { OnTrue result (carries_ranges (spec.op_in entries.now) ≡ false) }
{
    entries.len() == 64 && !entry_fields(entries).op.carries_ranges()
}

/// The fields of the entry of a command without ranges. The entry, with data as long as it calls for, spells the command.
#[inline(always)]
pub(crate) fn plain_fields(entry: &[u8]) -> EntryFields
    requires { length entry.now ≡ 64 }
    ensures op { result.op ≡ spec.op_in entry.now }
    ensures nlb { carries_ranges result.op ≡ false → result.nlb ≡ little_number 2 (drop 48 entry.now) }
    ensures spelled { (size : ℕ) (bytes : List ℕ) → carries_ranges result.op ≡ false
        → length bytes ≡ data_length size result.op result.nlb result.nr → IsSpelling size (entry.now ++ bytes) (command_lent result bytes) }
    ensures called { (size : ℕ) → carries_ranges result.op ≡ false
        → data_length size result.op result.nlb result.nr ≡ called_for size entry.now }
    ensures whole { (size : ℕ) (bytes : List ℕ) → carries_ranges result.op ≡ false
        → length bytes ≡ data_length size result.op result.nlb result.nr → IsWhole size (command_lent result bytes) }
{
    entry_fields(entry)
}

/// The command of an entry by itself. The buffer is room for what a Read reads, and data of any other.
fn asked_alone(alloc: Global, size: BlockSize, entry: &[u8], buffer: &[u8]) -> Result<Command, Code>
    requires { length entry.now ≡ 64 }
    ensures asked { IfOk result (λ c. IsAskedAlone size entry.now buffer.now c) }
    ensures whole { IfOk result (λ c. IsWhole size c) }
    ensures refused { IfErr result IsRefusal }
{
    let fields = entry_fields(entry);
    if reads(fields.op) && buffer.len() != room(fields.op, fields.nlb, size) {
        return Err(Code::BadLength);
    }
    command_of(alloc, size, entry, sent_with(fields.op, buffer))
}

/// What of the buffer goes with a command: nothing with a Read.
fn sent_with(op: Op, buffer: &[u8]) -> &[u8]
    ensures { result.now ≡ spec.sent_with op buffer.now }
{
    if reads(op) { &[] } else { buffer }
}

/// Whether it is a Read, for which the buffer is room.
pub(crate) fn reads(op: Op) -> bool
    ensures { result ≡ spec.reads op }
{
    matches!(op, Op::Read)
}

/// How many bytes a command reads, if it succeeds.
#[inline(always)]
pub(crate) fn room(op: Op, nlb: u16, size: BlockSize) -> usize
    ensures { result ≡ (if spec.reads op then (nlb + 1) * size else 0) }
{
    if reads(op) {
        (usize::from(nlb) + 1) * size.bytes() as usize
    } else {
        0
    }
}

/// How many bytes of data an entry calls for.
pub(crate) fn called(size: BlockSize, entry: &[u8]) -> usize
    requires { length entry.now ≡ 64 }
    ensures value { result ≡ called_for size entry.now }
    ensures few { result ≤ 2 ^ 28 }
{
    let fields = entry_fields(entry);
    fields.op.data_length(fields.nlb, fields.nr, size)
}

/// The command of the entry and this data, which has to be as long as it calls for. Data that isn't a list of ranges is copied as it is.
fn command_of(alloc: Global, size: BlockSize, entry: &[u8], data: &[u8]) -> Result<Command, Code>
    requires { length entry.now ≡ 64 }
    ensures spelled { IfOk result (λ c. IsSpelling size (entry.now ++ data.now) c) }
    ensures whole { IfOk result (λ c. IsWhole size c) }
    ensures refused { IfErr result IsRefusal }
{
    let fields = plain_fields(entry);
    if fields.op.carries_ranges() {
        return command_of_ranges(alloc, size, entry, data);
    }
    if data.len() != fields.op.data_length(fields.nlb, fields.nr, size) {
        return Err(Code::BadLength);
    }
    match Payload::copy_of(alloc, data) {
        Ok(payload) => Ok(command_with(&fields, payload)),
        Err(_) => Err(Code::NoMemory),
    }
}

/// The command of an entry with these fields, and of this data.
fn command_with(fields: &EntryFields, payload: Payload) -> Command
    ensures { result ≡ command_lent fields.now payload }
{
    Command {
        cid: fields.cid,
        nsid: fields.nsid,
        fuse: fields.fuse,
        op: fields.op,
        slba: fields.slba,
        nlb: fields.nlb,
        payload,
    }
}

/// The command of the entry of a Dataset Management and these ranges.
fn command_of_ranges(
    alloc: Global,
    size: BlockSize,
    entry: &[u8],
    ranges: &[u8],
) -> Result<Command, Code>
    requires { length entry.now ≡ 64 }
    ensures spelled { IfOk result (λ c. IsSpelling size (entry.now ++ ranges.now) c) }
    ensures whole { IfOk result (λ c. IsWhole size c) }
    ensures refused { IfErr result IsRefusal }
{
    let Ok(bytes) = joined(alloc, entry, ranges) else {
        return Err(Code::NoMemory);
    };
    match read_command(alloc, &bytes, size) {
        Ok((command, rest)) => {
            if rest.is_empty() {
                Ok(command)
            } else {
                Err(Code::BadLength)
            }
        }
        Err(CommandFault::NoMemory) => Err(Code::NoMemory),
        Err(_) => Err(Code::BadLength),
    }
}

/// The entry, and the ranges after it.
fn joined(alloc: Global, entry: &[u8], data: &[u8]) -> Result<Payload, NoMemory>
    ensures { IfOk result (λ p. p ≡ entry.now ++ data.now) }
{
    let mut bytes = Vec::with_capacity(alloc, entry.len().saturating_add(data.len()))?;
    bytes.extend_from_slice(entry)?;
    bytes.extend_from_slice(data)?;
    Payload::new(alloc, bytes)
}
