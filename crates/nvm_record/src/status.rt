ghost use Rattle.std.specs.Prelude.{◌↔◌, IsTrue};
ghost use Rattle.nvm_record.specs.Status.{IsSuccess};

/// A completion's status (Base Specification, "Status Field"): `sct` is the status code type and
/// `sc` the status code. It is written `type/code`, the code as two hexadecimal digits.
#[derive(Clone, Copy, Debug, PartialEq, Eq, Hash)]
pub struct Status {
    /// The status code type: 0 generic, 2 media and data integrity. The entry has three bits for it.
    pub sct: u8,
    /// The status code.
    pub sc: u8,
}

impl Status {
    /// 0/00, Successful Completion.
    pub const SUCCESSFUL_COMPLETION: Status = Status { sct: 0, sc: 0x00 };
    /// 0/01, Invalid Command Opcode.
    pub const INVALID_COMMAND_OPCODE: Status = Status { sct: 0, sc: 0x01 };
    /// 0/02, Invalid Field in Command.
    pub const INVALID_FIELD_IN_COMMAND: Status = Status { sct: 0, sc: 0x02 };
    /// 0/06, Internal Error.
    pub const INTERNAL_ERROR: Status = Status { sct: 0, sc: 0x06 };
    /// 0/09, Command Aborted due to Failed Fused Command.
    pub const ABORTED_DUE_TO_FAILED_FUSED_COMMAND: Status = Status { sct: 0, sc: 0x09 };
    /// 0/0a, Command Aborted due to Missing Fused Command.
    pub const ABORTED_DUE_TO_MISSING_FUSED_COMMAND: Status = Status { sct: 0, sc: 0x0a };
    /// 0/0b, Invalid Namespace or Format.
    pub const INVALID_NAMESPACE_OR_FORMAT: Status = Status { sct: 0, sc: 0x0b };
    /// 0/14, Atomic Write Unit Exceeded.
    pub const ATOMIC_WRITE_UNIT_EXCEEDED: Status = Status { sct: 0, sc: 0x14 };
    /// 0/80, LBA Out of Range.
    pub const LBA_OUT_OF_RANGE: Status = Status { sct: 0, sc: 0x80 };
    /// 2/81, Unrecovered Read Error.
    pub const UNRECOVERED_READ_ERROR: Status = Status { sct: 2, sc: 0x81 };
    /// 2/85, Compare Failure.
    pub const COMPARE_FAILURE: Status = Status { sct: 2, sc: 0x85 };
}

/// The statuses of a single command, or of the two commands of a fused pair.
#[derive(Clone, Copy, Debug, PartialEq, Eq, Hash)]
pub enum Statuses {
    /// The command's.
    One(Status),
    /// The first command's, then the second's.
    Two(Status, Status),
}

impl Statuses {
    /// Whether each command ended with 0/00.
    pub fn is_success(self) -> bool
        ensures { IsTrue result ↔ IsSuccess self }
    {
        match self {
            Statuses::One(status) => status == Status::SUCCESSFUL_COMPLETION,
            Statuses::Two(first, second) => {
                first == Status::SUCCESSFUL_COMPLETION && second == Status::SUCCESSFUL_COMPLETION
            }
        }
    }
}
