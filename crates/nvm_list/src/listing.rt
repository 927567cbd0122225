ghost use Rattle.std.specs.Prelude.{◌≡◌, ◌⊎◌, ◌≤◌, ◌++◌, ℕ, List, Ok, IfOk, IfErr, OnOk, MatchResult, ◌<◌, length, All, string_bytes};
ghost use Rattle.nvm_record.specs.Entry.{IsWhole};
ghost use Rattle.nvm_record.specs.BlockSize.{IsBlockSize};
ghost use Rattle.nvm_record.specs.Lists.{IsAt};
ghost use Rattle.nvm_record.specs.HostFile.{IsHostFile, IsHostFileFault, IsAnsweredFault, most_commands};
ghost use Rattle.nvm_record.specs.declared.command.Command.{Command as Listed};
ghost use Rattle.nvm_record.specs.declared.host_fault.HostFault.{HostFault as Fault};
ghost use Rattle.nvm_record.specs.declared.host_fault.HostFault.TheVariants as of_file;
ghost use Rattle.nvm_list.specs.Lists as lists;
ghost use Rattle.nvm_list.specs.Lists.{commands};
ghost use Rattle.nvm_list.specs.Lists.{assembled};
ghost use Rattle.nvm_record.specs.HostFile.{file_of};
ghost use Rattle.nvm_list.specs.Inside.Values.{HasValuesInRange};
ghost use Rattle.nvm_list.specs.Listing as spec;
ghost use Rattle.nvm_list.specs.Listing.{listing};

use crate::line_pieces::CommandText;
use nvm_record::laws::ranges_are_read_back;
use nvm_record::{BlockSize, Command, HostFault, NoMemory, Payload, read_host};
use nvm_text::laws::runs_are_longest;
use std::alloc::Global;

/// Reads a host file and lists its commands.
///
/// The list is read as exactly these commands, so it is assembled into the same file where that has every
/// unnamed bit 0. A fault is that of the file.
pub fn list_file(alloc: Global, bytes: &Payload, size: BlockSize) -> Result<String, HostFault>
    ensures text { IfOk result (λ text. (cs : List Listed) × IsHostFile size bytes.now cs
        × (string_bytes text ≡ listing cs) × (commands size (string_bytes text) ≡ Ok cs)) }
    // Where every unnamed bit of the file is 0, the list is assembled into this very file.
    ensures same_file { IfOk result (λ text. (cs : List Listed) → IsHostFile size bytes.now cs
        → bytes.now ≡ file_of cs → assembled size (string_bytes text) ≡ Ok bytes.now) }
    ensures fault { IfErr result (IsAnsweredFault size bytes.now) }
    ensures each_fault { (f : Fault) → IsHostFileFault size bytes.now f
        → MatchResult result (λ _. ⊥) (λ e. (e ≡ f) ⊎ (e ≡ of_file.NoMemory)) }
{
    let commands = read_host(alloc, bytes, size)?;
    Ok(list(alloc, &commands)?)
}

/// The commands as a list, a line each, with the options that it can't do without.
///
/// It is read as exactly these commands, where each has exactly the data that it calls for and a proper opcode,
/// and there are 65,536 of them at most.
pub fn list(alloc: Global, commands: &[Command]) -> Result<String, NoMemory>
    ensures text { IfOk result (λ text. string_bytes text ≡ listing commands.now) }
    ensures again { IfOk result (λ text. (size : ℕ) → IsBlockSize size
        → All (IsWhole size) commands.now → length commands.now ≤ most_commands
        → lists.commands size (string_bytes text) ≡ Ok commands.now) }
{
    runs_are_longest();
    ranges_are_read_back();
    let mut text = String::new(alloc);
    for (before, command) in commands.iter().enumerate() {
        has_ranges(command);
        push_command(&mut text, before as u64 + 1, command)?;
    }
    Ok(text)
}

/// Does nothing, and says what the types of a command's fields do.
fn has_ranges(command: &Command)
    ensures { HasValuesInRange command.now }
{
    let _cid = command.cid;
    let _nsid = command.nsid;
    let _slba = command.slba;
    let _nlb = command.nlb;
    let _opcode = command.op.opcode();
    has_bytes(command.payload.as_slice());
}

/// Does nothing, and says what the type of bytes does.
fn has_bytes(bytes: &[u8])
    ensures { (i byte : ℕ) → IsAt bytes.now i byte → byte < 256 }
{}

/// Appends the line of the command at a place of its list.
fn push_command(text: &mut String, place: u64, command: &Command) -> Result<(), NoMemory>
    ensures { OnOk result (string_bytes text.new ≡ string_bytes text.old ++ spec.listed_line place command.now) }
{
    write!(text, "{}\n", CommandText { place, command })
}
