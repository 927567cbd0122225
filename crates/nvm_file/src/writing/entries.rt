ghost use Rattle.std.specs.Prelude.{◌≡◌, ◌∷◌, [], ◌++◌, ◌≤◌, All, OnErr, OnOk, map};
ghost use Rattle.std.specs.Io.KnownBytes.{Appends};
ghost use Rattle.std.specs.List.{flat_map};
ghost use Rattle.byteorder.specs.Endian.{little_bytes};
ghost use Rattle.nvm_record.specs.Ranges.{most_ranges, ranges_of};
ghost use Rattle.nvm_record.specs.Ranges as ranges;
ghost use Rattle.nvm_store.specs.Act.{operation_of};
ghost use Rattle.nvm_text.specs.Handed.{TakesFront};
ghost use Rattle.nvm_file.specs.EntrySpelling as spec;
ghost use Rattle.nvm_file.specs.EntrySpelling.{cut_bytes, entry_bytes, history_bytes, kind_of};
ghost use Rattle.nvm_file.specs.Inside.Short.{IsShortDeed, IsShortHistory};

use super::bytes::{count_bytes, two_bytes};
use byteorder::{ByteOrder, LittleEndian};
use nvm_record::{LbaRange, range_count};
use nvm_store::{Act, Entry, History};
use nvm_text::{Failed, Noted, hand_noting};
use std::io::Write;

/// Writes the history of each unit.
pub fn write_units<W: Write>(
    writer: &mut W,
    noted: &mut Noted,
    units: &[History],
) -> Result<(), Failed>
    requires { All (λ history. IsShortHistory history.items) units.now }
    ensures whole { OnOk result (Appends (W.contents writer.old) (W.contents writer.new)
        (flat_map history_bytes (map (λ history. history.items) units.now))) }
    ensures front { OnErr result (TakesFront (W.contents writer.old) (W.contents writer.new)
        (flat_map history_bytes (map (λ history. history.items) units.now))) }
{
    for history in units {
        write_history(writer, noted, history)?;
    }
    Ok(())
}

/// Writes how many entries there are, and each of them.
fn write_history<W: Write>(
    writer: &mut W,
    noted: &mut Noted,
    history: &[Entry],
) -> Result<(), Failed>
    requires { IsShortHistory history.now }
    ensures whole { OnOk result (Appends (W.contents writer.old) (W.contents writer.new) (history_bytes history.now)) }
    ensures front { OnErr result (TakesFront (W.contents writer.old) (W.contents writer.new) (history_bytes history.now)) }
{
    hand_noting(writer, noted, &count_bytes(history.len()))?;
    for entry in history {
        write_entry(writer, noted, entry)?;
    }
    Ok(())
}

fn write_entry<W: Write>(writer: &mut W, noted: &mut Noted, entry: &Entry) -> Result<(), Failed>
    requires { IsShortDeed entry.now.operation.deed }
    ensures whole { OnOk result (Appends (W.contents writer.old) (W.contents writer.new) (entry_bytes entry.now)) }
    ensures front { OnErr result (TakesFront (W.contents writer.old) (W.contents writer.new) (entry_bytes entry.now)) }
{
    write_act(writer, noted, entry.pass, entry.job, &entry.act)
}

/// The kind of the entry that has the act.
fn kind(act: &Act) -> u8
    ensures { result ≡ kind_of (operation_of act.now).deed }
{
    match act {
        Act::Write { .. } => 1,
        Act::Zeroes { .. } => 2,
        Act::Uncorrectable { .. } => 3,
        Act::Pair { .. } => 4,
        Act::Deallocate { .. } => 5,
    }
}

/// Writes an entry by its numbers and what was done. The numbers, the kind and, but for a Deallocate, the range are handed over at once.
fn write_act<W: Write>(
    writer: &mut W,
    noted: &mut Noted,
    pass: u16,
    job: u32,
    act: &Act,
) -> Result<(), Failed>
    requires { IsShortDeed (operation_of act.now).deed }
    ensures whole { OnOk result (Appends (W.contents writer.old) (W.contents writer.new)
        (entry_bytes (record { pass = pass; job = job; operation = operation_of act.now }))) }
    ensures front { OnErr result (TakesFront (W.contents writer.old) (W.contents writer.new)
        (entry_bytes (record { pass = pass; job = job; operation = operation_of act.now }))) }
{
    let kind = kind(act);
    match act {
        Act::Write {
            first,
            blocks,
            payload,
        } => {
            hand_noting(
                writer,
                noted,
                &extent_front(pass, job, kind, *first, *blocks),
            )?;
            hand_noting(writer, noted, payload.as_slice())
        }
        Act::Zeroes { first, blocks } | Act::Uncorrectable { first, blocks } => {
            hand_noting(
                writer,
                noted,
                &extent_front(pass, job, kind, *first, *blocks),
            )
        }
        Act::Pair {
            first,
            blocks,
            compare,
            write,
        } => {
            hand_noting(
                writer,
                noted,
                &extent_front(pass, job, kind, *first, *blocks),
            )?;
            hand_noting(writer, noted, compare.as_slice())?;
            hand_noting(writer, noted, write.as_slice())
        }
        Act::Deallocate { ranges, .. } => {
            hand_noting(writer, noted, &entry_front(pass, job, kind))?;
            write_ranges(writer, noted, ranges.as_slice())
        }
    }
}

/// The numbers of the pass and of the job, and the kind.
fn entry_front(pass: u16, job: u32, kind: u8) -> [u8; 7]
    ensures { result ≡ little_bytes 2 pass ++ (little_bytes 4 job ++ (kind ∷ [])) }
{
    let mut front = [0; 7];
    LittleEndian::write_u16(&mut front, pass);
    LittleEndian::write_u32(&mut front[2..], job);
    front[6] = kind;
    front
}

/// The same, and then a first LBA and a number of blocks.
fn extent_front(pass: u16, job: u32, kind: u8, first: u64, blocks: u32) -> [u8; 19]
    ensures { result ≡ little_bytes 2 pass ++ (little_bytes 4 job ++ (kind ∷ spec.extent_bytes first blocks)) }
{
    let mut front = [0; 19];
    LittleEndian::write_u16(&mut front, pass);
    LittleEndian::write_u32(&mut front[2..], job);
    front[6] = kind;
    LittleEndian::write_u64(&mut front[7..], first);
    LittleEndian::write_u32(&mut front[15..], blocks);
    front
}

/// A first LBA, and a number of blocks.
fn extent_bytes(first: u64, blocks: u32) -> [u8; 12]
    ensures { result ≡ spec.extent_bytes first blocks }
{
    let mut bytes = [0; 12];
    LittleEndian::write_u64(&mut bytes, first);
    LittleEndian::write_u32(&mut bytes[8..], blocks);
    bytes
}

/// Writes how many ranges there are, and each of them, without its context attributes.
fn write_ranges<W: Write>(writer: &mut W, noted: &mut Noted, payload: &[u8]) -> Result<(), Failed>
    requires { ranges.range_count payload.now ≤ most_ranges }
    ensures whole { OnOk result (Appends (W.contents writer.old) (W.contents writer.new)
        (little_bytes 2 (ranges.range_count payload.now) ++ flat_map cut_bytes (ranges_of payload.now))) }
    ensures front { OnErr result (TakesFront (W.contents writer.old) (W.contents writer.new)
        (little_bytes 2 (ranges.range_count payload.now) ++ flat_map cut_bytes (ranges_of payload.now))) }
{
    let count = range_count(payload);
    hand_noting(writer, noted, &two_bytes(count as u16))?;
    for place in 0..count {
        let range = LbaRange::at(payload, place);
        hand_noting(writer, noted, &extent_bytes(range.first, range.blocks))?;
    }
    Ok(())
}
