ghost use Rattle.std.specs.Prelude.{◌≡◌, ◌<◌, ◌≤◌, ◌++◌, ℕ, IfOk, IfErr, OnOk, OnErr, drop, length, slice_range};
ghost use Rattle.nvm_record.specs.Entry.{BeginsWith, IsCommandFault, IsSpelling, IsWhole, data_kept, spelling_of};
ghost use Rattle.nvm_record.specs.Ranges.{ranges_of};

use crate::NoMemory;
use crate::block_size::BlockSize;
use crate::command::Command;
use crate::command_fault::CommandFault;
use crate::entry::{ENTRY_BYTES, command_bytes, entry_fields};
use crate::op::Op;
use crate::payload::Payload;
use crate::range_attributes::without_attributes;
use std::alloc::Global;

/// Reads the command at the front of the bytes: its submission entry of 64 bytes and, after that of a
/// Write or a Compare, its data of `nlb + 1` blocks of `size`, or, after that of a Dataset Management, its
/// `nr + 1` ranges of 16 bytes. What follows is given back.
///
/// The data and what follows are parts of the bytes, so nothing is copied, but for ranges: they are copied,
/// with context attributes of 0.
///
/// The first fault is answered, or `NoMemory` where memory for ranges is refused, or 2^63 - 1 payloads share the
/// bytes already.
pub fn read_command(
    alloc: Global,
    bytes: &Payload,
    size: BlockSize,
) -> Result<(Command, Payload), CommandFault>
    ensures command { IfOk result (λ read. BeginsWith size bytes.now read.0 read.1) }
    ensures whole { IfOk result (λ read. IsWhole size read.0) }
    ensures fault { IfErr result (IsCommandFault size bytes.now) }
{
    let (command, end) = read_command_at(alloc, bytes, 0, size)?;
    let rest = bytes.part(end, bytes.len())?;
    Ok((command, rest))
}

/// Reads the command that begins at place `from`, as [`read_command`] does at the front, and gives the place where it ends.
pub(crate) fn read_command_at(
    alloc: Global,
    bytes: &Payload,
    from: usize,
    size: BlockSize,
) -> Result<(Command, usize), CommandFault>
    requires { from ≤ length bytes.now }
    ensures command { IfOk result (λ read. BeginsWith size (drop from bytes.now) read.0 (drop read.1 bytes.now)) }
    ensures end { IfOk result (λ read. (from < read.1) × (read.1 ≤ length bytes.now)) }
    ensures whole { IfOk result (λ read. IsWhole size read.0) }
    ensures fault { IfErr result (IsCommandFault size (drop from bytes.now)) }
{
    let left = &bytes.as_slice()[from..];
    if left.len() < ENTRY_BYTES {
        return Err(CommandFault::CutEntry);
    }
    let (entry, after) = left.split_at(ENTRY_BYTES);
    let fields = entry_fields(entry);
    let wanted = fields.op.data_length(fields.nlb, fields.nr, size);
    if after.len() < wanted {
        return Err(CommandFault::CutData);
    }
    let end = from + ENTRY_BYTES + wanted;
    let payload = kept(alloc, fields.op, bytes, from + ENTRY_BYTES, end)?;
    let command = Command {
        cid: fields.cid,
        nsid: fields.nsid,
        fuse: fields.fuse,
        op: fields.op,
        slba: fields.slba,
        nlb: fields.nlb,
        payload,
    };
    Ok((command, end))
}

/// What a command keeps of its data, which goes from place `from` up to place `to`: all of it, but for the
/// context attributes of ranges.
fn kept(alloc: Global, op: Op, bytes: &Payload, from: usize, to: usize) -> Result<Payload, NoMemory>
    requires ordered { from ≤ to }
    requires within { to ≤ length bytes.now }
    ensures bytes { IfOk result (λ p. p ≡ data_kept op (slice_range bytes.now from to)) }
    ensures again { IfOk result (λ p. ranges_of p ≡ ranges_of (slice_range bytes.now from to)) }
{
    if op.carries_ranges() {
        without_attributes(alloc, &bytes.as_slice()[from..to])
    } else {
        bytes.part(from, to)
    }
}

/// Appends the command's submission entry, every unnamed bit being 0, and its data. Where memory is
/// refused, nothing is appended.
///
/// What is appended is a spelling of the command, where the command is whole.
pub fn push_spelling(out: &mut Vec<u8>, command: &Command) -> Result<(), NoMemory>
    ensures bytes { OnOk result (out.new.items ≡ out.old.items ++ spelling_of command.now) }
    ensures unchanged { OnErr result (out.new.items ≡ out.old.items) }
    ensures spelling { (size : ℕ) → IsWhole size command.now
        → IsSpelling size (spelling_of command.now) command.now }
{
    let entry = command_bytes(command);
    let payload = command.payload.as_slice();
    out.reserve(payload.len().saturating_add(ENTRY_BYTES))?;
    out.extend_from_slice(&entry)?;
    out.extend_from_slice(payload)?;
    Ok(())
}
