//! The host files of lists.
ghost use Rattle.std.specs.Prelude.{◌≡◌, ◌⊎◌, IfOk, IfErr, map};
ghost use Rattle.nvm_commands.specs.declared.fault.Fault.TheVariants.{NoMemory};
ghost use Rattle.nvm_commands.specs.Ran.{AreFilesOf, IsFileOf};
ghost use Rattle.nvm_commands.specs.RunFaults.{IsLineFault, IsListsFault};

use crate::failure::Failure;
use crate::fault::Fault;
use crate::list_failure::of_commands;
use crate::read_list::ReadList;
use nvm_list::{ListFault, assemble};
use nvm_record::{BlockSize, Payload};
use std::alloc::Global;

/// The host file of each list, in their order. The first that has a line that is no command is the fault, and what helps is said of
/// that list.
pub fn files_of(
    alloc: Global,
    size: BlockSize,
    lists: &[ReadList<'_>],
) -> Result<Vec<Payload>, Failure>
    ensures files { IfOk result (λ files. AreFilesOf size (map (λ list. list.text.items) lists.now) files.items) }
    ensures fault { IfErr result (λ failure.
        IsListsFault size (map (λ list. list.path.now) lists.now) (map (λ list. list.text.items) lists.now) failure.fault
        ⊎ (failure.fault ≡ NoMemory)) }
{
    let mut files = Vec::with_capacity(alloc, lists.len())?;
    for list in lists {
        match host_file(alloc, list.path, &list.text, size) {
            Ok(file) => files.push(file)?,
            Err(fault) => {
                return Err(of_commands(alloc, fault, list.path, &list.text, &list.text, size));
            }
        }
    }
    Ok(files)
}

/// The host file of the list at a path, or its first line that is no command.
fn host_file(alloc: Global, path: &str, text: &[u8], size: BlockSize) -> Result<Payload, Fault>
    ensures file { IfOk result (IsFileOf size text.now) }
    ensures fault { IfErr result (λ fault. IsLineFault size path.now text.now fault ⊎ (fault ≡ NoMemory)) }
{
    match assemble(alloc, text, size) {
        Ok(file) => Ok(Payload::new(alloc, file)?),
        Err(ListFault::Line { line, expected }) => {
            let path = String::from_str(alloc, path)?;
            Err(Fault::ListLine {
                path,
                line,
                expected,
            })
        }
        Err(ListFault::NoMemory) => Err(Fault::NoMemory),
    }
}
