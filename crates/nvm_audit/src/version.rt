ghost use Rattle.std.specs.Prelude.{◌↔◌, IsTrue};
ghost use Rattle.nvm_audit.specs.Recordable.{HoldsBody, HoldsCommand};

use nvm_plan::Body;
use nvm_record::{Command, Op};

/// The version of a record file.
#[derive(Clone, Copy, Debug, PartialEq, Eq, Hash)]
pub enum Version {
    /// The first: its limit is at most 65,536, opcode 09h is an unknown one, by itself alone, and no entry is a Deallocate.
    One,
    /// The second: its limit is at most 4,194,304, and opcode 09h is Dataset Management, never an unknown one.
    Two,
}

impl Version {
    /// Whether a record of the version may have a job of these commands: the first has no Dataset Management, and the second
    /// no unknown opcode 09h. A run is recorded in the second. It takes no memory.
    pub fn holds(self, body: &Body) -> bool
        ensures { IsTrue result ↔ HoldsBody self body.now }
    {
        match body {
            Body::Single(command) => self.holds_command(command),
            Body::Pair(first, second) => self.holds_command(first) && self.holds_command(second),
        }
    }

    /// Whether the version has the command.
    fn holds_command(self, command: &Command) -> bool
        ensures { IsTrue result ↔ HoldsCommand self command.now }
    {
        match self {
            Version::One => !command.op.carries_ranges(),
            Version::Two => command.op != Op::Other(0x09),
        }
    }
}
