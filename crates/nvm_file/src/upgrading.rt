ghost use Rattle.std.specs.Prelude.{◌≡◌, ◌↔◌, ◌<◌, ◌^◌, Err, IfErr, IfNone, IfSome, IsOk, IsTrue, OnErr, OnOk, length};
ghost use Rattle.nvm_audit.specs.declared.version.Version.TheVariants.{Two};
ghost use Rattle.nvm_file.specs.declared.upgrade_fault.UpgradeFault.{UpgradeFault as Fault};
ghost use Rattle.nvm_file.specs.Upgrade.{AreKnown, HasUnknown, IsFirstUnknown, IsUnknown, IsUpgradeFault, second_version};

use crate::upgrade_fault::UpgradeFault;
use nvm_audit::{Record, Version};
use nvm_plan::{Body, Job};
use nvm_record::{Command, Op};

/// The first version of a record keeps Dataset Management as an unknown opcode.
const UNKNOWN_DATASET: Op = Op::Other(0x09);

/// Makes the record one of the second version, which loses nothing: nothing but its version changes. It takes no memory. A
/// record of the second version stays as it is.
///
/// [`UpgradeFault::Dataset`] is answered where a record of the first version has a job with a command of opcode 09h, and then
/// the record stays as it is.
pub fn upgrade(run: &mut Record) -> Result<(), UpgradeFault>
    ensures upgraded { OnOk result (run.new ≡ second_version run.old) }
    ensures unchanged { OnErr result (run.new ≡ run.old) }
    ensures fault { IfErr result (IsUpgradeFault run.old.jobs) }

    // A record without such a command is upgraded, and else the first job that has one is named. One of the second version
    // stays as it is.
    ensures each_upgrade { AreKnown run.old.jobs → IsOk result }
    ensures each_fault { (f : Fault) → IsUpgradeFault run.old.jobs f → result ≡ Err f }
    ensures stays { run.old.version ≡ Two → IsOk result × (run.new ≡ run.old) }
{
    if let Some(job) = first_unknown(&run.jobs) {
        return Err(UpgradeFault::Dataset { job });
    }
    run.version = Version::Two;
    Ok(())
}

/// The number of the first job with an unknown opcode 09h.
fn first_unknown(jobs: &[Job]) -> Option<u32>
    requires { length jobs.now < 2 ^ 32 }
    ensures found { IfSome result (IsFirstUnknown jobs.now) }
    ensures none { IfNone result (AreKnown jobs.now) }
{
    for number in 0..jobs.len() {
        if has_unknown(&jobs[number].body) {
            return Some(number as u32);
        }
    }
    None
}

/// Whether one of the commands has opcode 09h as an unknown one.
fn has_unknown(body: &Body) -> bool
    ensures { IsTrue result ↔ HasUnknown body.now }
{
    match body {
        Body::Single(command) => is_unknown(command),
        Body::Pair(first, second) => is_unknown(first) || is_unknown(second),
    }
}

/// Whether the command has opcode 09h as an unknown one.
fn is_unknown(command: &Command) -> bool
    ensures { IsTrue result ↔ IsUnknown command.now }
{
    command.op == UNKNOWN_DATASET
}
