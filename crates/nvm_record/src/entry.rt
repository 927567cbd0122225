ghost use Rattle.std.specs.Prelude.{◌≡◌, ◌<◌, ◌^◌, ◌%◌, ℕ, length, drop, slice_index, ◌++◌, if◌then◌else◌};
ghost use Rattle.byteorder.specs.Endian.{little_number};
ghost use Rattle.nvm_record.specs.Entry as entry;
ghost use Rattle.nvm_record.specs.Entry.{entry_of, place_bytes, count_bytes, HasFieldsInRange, IsWhole, IsSpelling};
ghost use Rattle.nvm_record.specs.Op.{op_of, deallocate_of, fuse_of, carries_ranges};

use crate::command::Command;
use crate::lba_range::range_count;
use crate::op::{Fuse, Op, has_deallocate};
use byteorder::{ByteOrder, LittleEndian};

/// The number of bytes of a submission entry.
pub const ENTRY_BYTES: usize = 64;

/// What a submission entry says of its command, which is all but the data.
#[derive(Clone, Copy, Debug, PartialEq, Eq)]
pub struct EntryFields {
    /// The command identifier.
    pub cid: u16,
    /// The namespace identifier.
    pub nsid: u32,
    /// The command's place in a fused operation.
    pub fuse: Fuse,
    /// The opcode.
    pub op: Op,
    /// The starting LBA, which is 0 for a Dataset Management.
    pub slba: u64,
    /// The number of logical blocks, zeroes-based, which is 0 for a Dataset Management.
    pub nlb: u16,
    /// The number of a Dataset Management's ranges, zeroes-based. It is 0 for the rest.
    pub nr: u8,
}

/// The fields of an entry of 64 bytes. All other bits may be anything.
pub fn entry_fields(entry: &[u8]) -> EntryFields
    requires { length entry.now ≡ 64 }
    ensures op { result.op ≡ op_of (slice_index entry.now 0) (deallocate_of (slice_index entry.now 44)) }
    ensures fuse { result.fuse ≡ fuse_of (slice_index entry.now 1 % 4) }
    ensures cid { result.cid ≡ little_number 2 (drop 2 entry.now) }
    ensures nsid { result.nsid ≡ little_number 4 (drop 4 entry.now) }
    ensures slba { result.slba ≡ (if carries_ranges result.op then 0 else little_number 8 (drop 40 entry.now)) }
    ensures nlb { result.nlb ≡ (if carries_ranges result.op then 0 else little_number 2 (drop 48 entry.now)) }
    ensures nr { result.nr ≡ (if carries_ranges result.op then slice_index entry.now 40 else 0) }
{
    let op = Op::of_opcode(entry[0], has_deallocate(entry[44]));
    let ranges = op.carries_ranges();
    EntryFields {
        cid: LittleEndian::read_u16(&entry[2..]),
        nsid: LittleEndian::read_u32(&entry[4..]),
        fuse: Fuse::of_bits(entry[1] % 4),
        op,
        slba: if ranges {
            0
        } else {
            LittleEndian::read_u64(&entry[40..])
        },
        nlb: if ranges {
            0
        } else {
            LittleEndian::read_u16(&entry[48..])
        },
        nr: if ranges { entry[40] } else { 0 },
    }
}

/// The command's submission entry, every bit that no field of `Command` names being 0 (Base
/// Specification, "Common Command Format"). A Dataset Management's number of ranges is that of its data,
/// and its LBA and NLB aren't written. It takes no memory.
///
/// With the data after it, it is a spelling of the command, where the command is whole.
pub fn command_bytes(command: &Command) -> [u8; 64]
    ensures entry { result ≡ entry_of command.now }
    ensures fields { HasFieldsInRange command.now }
    ensures spelling { (size : ℕ) → IsWhole size command.now
        → IsSpelling size (result ++ command.now.payload) command.now }
{
    encoded(command)
}

/// The entry, field by field.
fn encoded(command: &Command) -> [u8; 64]
    ensures entry { result ≡ entry_of command.now }
    ensures fields { HasFieldsInRange command.now }
{
    let cid = command.cid;
    let nsid = command.nsid;
    let place = encoded_place(command);
    let count = encoded_count(command);
    let mut entry = [0; 64];
    entry[0] = command.op.opcode();
    entry[1] = command.fuse.bits();
    LittleEndian::write_u16(&mut entry[2..], cid);
    LittleEndian::write_u32(&mut entry[4..], nsid);
    entry[40..48].copy_from_slice(&place);
    entry[48..50].copy_from_slice(&count);
    entry
}

/// Command dwords 10 and 11.
fn encoded_place(command: &Command) -> [u8; 8]
    ensures bytes { result ≡ place_bytes command.now }
    ensures slba { command.now.slba < 2 ^ 64 }
{
    let slba = command.slba;
    if command.op.carries_ranges() {
        let ranges = range_bits(command.payload.as_slice());
        return [ranges, 0, 0, 0, command.op.attributes(), 0, 0, 0];
    }
    let mut place = [0; 8];
    LittleEndian::write_u64(&mut place, slba);
    place
}

/// The lower half of command dword 12.
fn encoded_count(command: &Command) -> [u8; 2]
    ensures bytes { result ≡ count_bytes command.now }
    ensures nlb { command.now.nlb < 2 ^ 16 }
{
    let nlb = command.nlb;
    if command.op.carries_ranges() {
        return [0; 2];
    }
    let mut count = [0; 2];
    LittleEndian::write_u16(&mut count, nlb);
    count
}

/// How many ranges the data holds, zeroes-based: the eight bits that the entry has for it.
fn range_bits(payload: &[u8]) -> u8
    ensures { result ≡ entry.range_bits payload.now }
{
    (range_count(payload).saturating_sub(1) % 256) as u8
}
