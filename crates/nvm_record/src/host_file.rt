ghost use Rattle.std.specs.Prelude.{◌≡◌, ◌⊎◌, ◌<◌, ◌≤◌, All, ℕ, List, IfOk, IfErr, MatchResult, drop, length};
ghost use Rattle.nvm_record.specs.Entry.{BeginsWith, IsWhole};
ghost use Rattle.nvm_record.specs.HostFile.{IsHostFile, IsHostFileFault, IsAnsweredFault, IsCutFault, file_of, most_commands};
ghost use Rattle.nvm_record.specs.declared.command.Command.{Command as Spelled};
ghost use Rattle.nvm_record.specs.declared.host_fault.HostFault.{HostFault as Fault};
ghost use Rattle.nvm_record.specs.declared.host_fault.HostFault.TheVariants.{NoMemory as Refused};

use crate::NoMemory;
use crate::block_size::BlockSize;
use crate::command::Command;
use crate::command_fault::CommandFault;
use crate::entry::ENTRY_BYTES;
use crate::host_fault::HostFault;
use crate::payload::Payload;
use crate::spelling::{push_spelling, read_command_at};
use std::alloc::Global;

/// A host file begins with these bytes.
const NAME: &[u8; 4] = b"NVQ1";

/// How many counts of owners the data of a file's commands uses in turn: command `n` has that of `n % OWNER_COUNTS`. So threads that do
/// neighboring commands change different counts, and a file takes few small blocks of memory.
const OWNER_COUNTS: usize = 64;

/// The most commands of a host file.
pub const MOST_COMMANDS: usize = 65_536;

/// Reads the commands of a host file, from its front: the four bytes `NVQ1`, then each command's
/// submission entry of 64 bytes and, after that of a Write or a Compare, its data of `nlb + 1` blocks
/// of `size`, or, after that of a Dataset Management, its `nr + 1` ranges of 16 bytes.
///
/// The commands' data are parts of the bytes, but for ranges, which are copied with context attributes of
/// 0. Memory is taken for them, for the list of the commands, and for at most 64 counts of owners, which the commands use in
/// turn.
///
/// The first fault from the front is answered, or `NoMemory` where a growth was refused before it, or
/// 2^63 - 1 payloads shared the bytes.
pub fn read_host(alloc: Global, bytes: &Payload, size: BlockSize) -> Result<Vec<Command>, HostFault>
    // What is answered is what the file reads as.
    ensures commands { IfOk result (λ v. IsHostFile size bytes.now v.items) }
    ensures fault { IfErr result (IsAnsweredFault size bytes.now) }
    // Each command has exactly the data that it calls for, and no `Other` has an opcode with a name.
    ensures whole { IfOk result (λ v. All (IsWhole size) v.items) }

    // A file reads as one thing alone, so nothing but want of memory is answered in its place.
    ensures all_commands { (cs : List Spelled) → IsHostFile size bytes.now cs
        → MatchResult result (λ v. v.items ≡ cs) (λ e. e ≡ Refused) }
    ensures each_fault { (f : Fault) → IsHostFileFault size bytes.now f
        → MatchResult result (λ _. ⊥) (λ e. (e ≡ f) ⊎ (e ≡ Refused)) }
{
    commands_of(alloc, bytes, size)
}

/// What the file reads as.
fn commands_of(alloc: Global, bytes: &Payload, size: BlockSize) -> Result<Vec<Command>, HostFault>
    ensures commands { IfOk result (λ v. IsHostFile size bytes.now v.items) }
    ensures fault { IfErr result (IsAnsweredFault size bytes.now) }
    ensures whole { IfOk result (λ v. All (IsWhole size) v.items) }
{
    if !bytes.as_slice().starts_with(NAME) {
        return Err(HostFault::BadName);
    }
    let length = bytes.len();
    let mut shares = Vec::with_capacity(alloc, OWNER_COUNTS)?;
    let mut commands = Vec::new(alloc);
    let mut from = NAME.len();
    while from < length {
        if commands.len() == MOST_COMMANDS {
            return Err(HostFault::TooMany);
        }
        let place = commands.len() % OWNER_COUNTS;
        add_share(alloc, bytes, &mut shares, place)?;
        let share = share_at(bytes, &shares, place);
        let (command, end) = next_command(alloc, share, from, size)?;
        commands.push(command)?;
        from = end;
    }
    Ok(commands)
}

/// Adds a share of the file with a count of owners of its own, where there is none yet at this place.
fn add_share(
    alloc: Global,
    bytes: &Payload,
    shares: &mut Vec<Payload>,
    place: usize,
) -> Result<(), NoMemory>
    requires { All (λ share. share ≡ bytes.now) shares.old.items }
    ensures { All (λ share. share ≡ bytes.now) shares.new.items }
{
    if place == shares.len() {
        shares.push(bytes.own_part(alloc, 0, bytes.len())?)?;
    }
    Ok(())
}

/// The share at this place, or the file itself where there is none.
fn share_at<'a>(bytes: &'a Payload, shares: &'a Vec<Payload>, place: usize) -> &'a Payload
    requires { All (λ share. share ≡ bytes.now) shares.now.items }
    ensures { result.now ≡ bytes.now }
{
    match shares.get(place) {
        Some(share) => share,
        None => bytes,
    }
}

/// Reads the command that begins at place `from`, and gives the place where it ends.
fn next_command(
    alloc: Global,
    bytes: &Payload,
    from: usize,
    size: BlockSize,
) -> Result<(Command, usize), HostFault>
    requires some { from < length bytes.now }
    ensures command { IfOk result (λ read. BeginsWith size (drop from bytes.now) read.0 (drop read.1 bytes.now)) }
    ensures end { IfOk result (λ read. (from < read.1) × (read.1 ≤ length bytes.now)) }
    ensures whole { IfOk result (λ read. IsWhole size read.0) }
    ensures fault { IfErr result (IsCutFault size (drop from bytes.now) from) }
{
    // For the proof alone: a length fits, so each place up to it does.
    let _length = bytes.len();
    match read_command_at(alloc, bytes, from, size) {
        Ok(read) => Ok(read),
        Err(CommandFault::CutEntry) => Err(HostFault::Truncated { at: from as u64 }),
        Err(CommandFault::CutData) => Err(HostFault::Truncated {
            at: (from + ENTRY_BYTES) as u64,
        }),
        Err(CommandFault::NoMemory) => Err(HostFault::NoMemory),
    }
}

/// The bytes of the host file that holds the commands, every unnamed bit being 0.
///
/// It is read as exactly these commands, where each is whole ([`Command::is_whole`]), and there are 65,536 of
/// them at most.
pub fn host_bytes(alloc: Global, commands: &[Command]) -> Result<Vec<u8>, NoMemory>
    ensures bytes { IfOk result (λ v. v.items ≡ file_of commands.now) }
    ensures file { IfOk result (λ v. (size : ℕ) → All (IsWhole size) commands.now
        → length commands.now ≤ most_commands → IsHostFile size v.items commands.now) }
{
    let mut bytes = Vec::with_capacity(alloc, length_of(commands))?;
    bytes.extend_from_slice(NAME)?;
    for command in commands {
        push_spelling(&mut bytes, command)?;
    }
    Ok(bytes)
}

/// How many bytes the host file has. Where no memory can have that many, it is as much as can be asked for.
fn length_of(commands: &[Command]) -> usize {
    let mut length = NAME.len();
    for command in commands {
        length = length
            .saturating_add(ENTRY_BYTES)
            .saturating_add(command.payload.len());
    }
    length
}
