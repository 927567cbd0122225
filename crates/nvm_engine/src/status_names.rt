ghost use Rattle.std.specs.Prelude.{◌≡◌};
ghost use Rattle.nvm_record.specs.Status.{status};
ghost use Rattle.nvm_engine.specs.StatusNames as spec;

use nvm_record::Status;

/// The name of a status in the standard (Base Specification, "Status Field"; NVM Command Set, "Status Codes"), or
/// `Unknown status` where no command that is answered here ends with it.
#[tactic(auto, unfolding(crate::specs::StatusNames::status_name))]
pub fn status_name(status: Status) -> &'static [u8]
    ensures { result.now ≡ spec.status_name status }
{
    match status.sct {
        0 => generic_name(status.sc),
        2 => media_name(status.sc),
        _ => b"Unknown status",
    }
}

/// The name of a generic status by its code.
fn generic_name(code: u8) -> &'static [u8]
    ensures { result.now ≡ spec.name_in spec.status_table (status 0 code) }
{
    match code {
        0x00 => b"Successful Completion",
        0x01 => b"Invalid Command Opcode",
        0x02 => b"Invalid Field in Command",
        0x06 => b"Internal Error",
        0x09 => b"Command Aborted due to Failed Fused Command",
        0x0a => b"Command Aborted due to Missing Fused Command",
        0x0b => b"Invalid Namespace or Format",
        0x14 => b"Atomic Write Unit Exceeded",
        0x80 => b"LBA Out of Range",
        _ => b"Unknown status",
    }
}

/// The name of a media and data integrity error by its code.
fn media_name(code: u8) -> &'static [u8]
    ensures { result.now ≡ spec.name_in spec.status_table (status 2 code) }
{
    match code {
        0x81 => b"Unrecovered Read Error",
        0x85 => b"Compare Failure",
        _ => b"Unknown status",
    }
}
