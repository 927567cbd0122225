//! Commands of a record file.
ghost use Rattle.std.specs.Prelude.{◌≡◌, IfOk, length};
ghost use Rattle.nvm_record.specs.Entry.{data_length};
ghost use Rattle.nvm_plan.specs.Profile as profile;
ghost use Rattle.nvm_file.specs.CommandReading as spec;
ghost use Rattle.nvm_file.specs.CommandReading.{NamesOnePlace, command_at, command_with, fields_in, may_follow, may_stand, submission_at};
ghost use Rattle.nvm_file.specs.Fields.{Gives};
ghost use Rattle.nvm_file.specs.Inside.Rest.{left_of};

use crate::fields::{cut_short, refused};
use crate::record_fault::RecordFault;
use crate::rest::Rest;
use crate::scope::Scope;
use crate::standing::Standing;
use byteorder::{ByteOrder, LittleEndian};
use nvm_audit::Version;
use nvm_record::{BlockSize, Command, ENTRY_BYTES, EntryFields, Fuse, Op, entry_fields};

/// The opcode of Dataset Management, which is an unknown one to the first version.
const DATASET_MANAGEMENT: u8 = 0x09;

/// A command: its entry, and then the data that it calls for, which is shared with the file and counted with it: no thread takes a share
/// of it.
#[tactic(auto, unfolding(crate::specs::CommandReading::command_at, crate::specs::Fields::bytes_at))]
#[inline(always)]
pub fn command_of<'a>(
    scope: &Scope,
    standing: Standing,
    rest: Rest<'a>,
) -> Result<(Command, Rest<'a>), RecordFault>
    ensures { Gives (λ x. (x.0, left_of x.1)) result (command_at scope.now standing (left_of rest.entry)) }
{
    let (fields, rest) = submission_of(scope.total, scope.version, standing, rest)?;
    let size = scope.geometry.block_size();
    let wanted = fields.op.data_length(fields.nlb, fields.nr, size);
    if rest.len() < wanted {
        return Err(cut_short(scope.total, rest));
    }
    let command = Command {
        cid: fields.cid,
        nsid: fields.nsid,
        fuse: fields.fuse,
        op: fields.op,
        slba: fields.slba,
        nlb: fields.nlb,
        payload: rest.part(wanted)?,
    };
    if !follows(&command, fields.nr, size) {
        return Err(refused(scope.total, rest));
    }
    Ok((command, rest.after(wanted)))
}

/// Whether the command's data may follow its entry, which asks for `nr + 1` ranges where it asks for any.
#[tactic(auto, unfolding(crate::specs::CommandReading::may_follow))]
fn follows(command: &Command, nr: u8, size: BlockSize) -> bool
    requires place { NamesOnePlace command.now.op command.now.slba command.now.nlb }
    requires length { length command.now.payload ≡ data_length size command.now.op command.now.nlb nr }
    ensures { result ≡ may_follow command.now.op command.now.payload }
{
    if command.op.carries_ranges() {
        return command.is_whole(size);
    }
    true
}

/// The entry of a command.
#[tactic(auto, unfolding(crate::specs::CommandReading::submission_at, crate::specs::Fields::bytes_at))]
#[inline(always)]
fn submission_of(
    total: usize,
    version: Version,
    standing: Standing,
    rest: Rest<'_>,
) -> Result<(EntryFields, Rest<'_>), RecordFault>
    ensures fields { Gives (λ x. (x.0, left_of x.1)) result (submission_at total version standing (left_of rest.entry)) }
    ensures place { IfOk result (λ x. NamesOnePlace x.0.op x.0.slba x.0.nlb) }
{
    if rest.len() < ENTRY_BYTES {
        return Err(cut_short(total, rest));
    }
    let entry = rest.front(ENTRY_BYTES);
    let fields = fields_of(version, entry);
    if !is_just(entry, standing, &fields) {
        return Err(refused(total, rest));
    }
    Ok((fields, rest.after(ENTRY_BYTES)))
}

/// Whether the bytes say just these fields, and a command of them may stand there.
#[tactic(auto, unfolding(crate::specs::CommandReading::is_just))]
fn is_just(entry: &[u8], standing: Standing, fields: &EntryFields) -> bool
    ensures { result ≡ spec.is_just entry.now standing fields.now }
{
    entry == entry_of(fields).as_slice() && stands(standing, fields)
}

/// What 64 bytes say, where they are an entry.
#[tactic(auto, unfolding(crate::specs::CommandReading::fields_in))]
fn fields_of(version: Version, entry: &[u8]) -> EntryFields
    requires { length entry.now ≡ 64 }
    ensures fields { result ≡ fields_in version entry.now }
    ensures place { NamesOnePlace result.op result.slba result.nlb }
{
    let fields = entry_fields(entry);
    match version {
        Version::One if entry[0] == DATASET_MANAGEMENT => EntryFields {
            cid: fields.cid,
            nsid: fields.nsid,
            fuse: fields.fuse,
            op: Op::Other(DATASET_MANAGEMENT),
            slba: LittleEndian::read_u64(&entry[40..]),
            nlb: LittleEndian::read_u16(&entry[48..]),
            nr: 0,
        },
        _ => fields,
    }
}

/// The entry that says just this, every bit that no field names being 0.
#[tactic(auto, unfolding(crate::specs::CommandReading::entry_with))]
fn entry_of(fields: &EntryFields) -> [u8; 64]
    ensures { result ≡ spec.entry_with fields.now }
{
    let place = place_of(fields);
    let mut entry = [0; 64];
    entry[0] = fields.op.opcode();
    entry[1] = fields.fuse.bits();
    LittleEndian::write_u16(&mut entry[2..], fields.cid);
    LittleEndian::write_u32(&mut entry[4..], fields.nsid);
    entry[40..48].copy_from_slice(&place);
    LittleEndian::write_u16(&mut entry[48..], fields.nlb);
    entry
}

/// Command dwords 10 and 11.
fn place_of(fields: &EntryFields) -> [u8; 8]
    ensures { result ≡ spec.place_of_fields fields.now }
{
    if fields.op.carries_ranges() {
        return [fields.nr, 0, 0, 0, fields.op.attributes(), 0, 0, 0];
    }
    let mut place = [0; 8];
    LittleEndian::write_u64(&mut place, fields.slba);
    place
}

/// Whether a command of these fields may stand there.
fn stands(standing: Standing, fields: &EntryFields) -> bool
    ensures { result ≡ may_stand standing fields.now }
{
    match standing {
        Standing::Alone => true,
        Standing::FirstOfPair => matches!(fields.fuse, Fuse::First) && is_in_profile(fields.op),
        Standing::SecondOfPair => matches!(fields.fuse, Fuse::Second) && is_in_profile(fields.op),
    }
}

/// Whether the opcode is one of the profile.
fn is_in_profile(op: Op) -> bool
    ensures { result ≡ profile.is_in_profile op }
{
    !matches!(op, Op::Other(_))
}
