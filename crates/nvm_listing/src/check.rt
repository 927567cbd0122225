ghost use Rattle.std.specs.Prelude.{◌≡◌, ◌↔◌, IsTrue, Some};
ghost use Rattle.nvm_listing.specs.CheckText as spec;

use nvm_record::{Op, Status};
use nvm_text::{OpName, StatusText};
use std::fmt;
use std::fmt::{Display, Formatter};

/// An expectation of a command, and the status with which the command ended.
///
/// It is displayed as `1 2 write expected 2/85 got 0/00`: the host, the command identifier, the command's name and the two
/// statuses.
#[derive(Clone, Copy, Debug, PartialEq, Eq)]
pub struct Check {
    /// The number of the command's host, from 1.
    pub host: u16,
    /// The command identifier.
    pub cid: u16,
    /// What the command asked for.
    pub op: Op,
    /// The status that its list expects.
    pub expected: Status,
    /// The status with which it ended.
    pub actual: Status,
}

impl Check {
    /// Whether the command ended as expected.
    pub fn is_met(self) -> bool
        ensures value { result ≡ spec.is_met self }
        ensures same { IsTrue result ↔ (self.expected ≡ self.actual) }
    {
        self.expected == self.actual
    }
}

impl Display for Check {
    ghost output = { λ check. Some (spec.check_text check) };

    fn fmt<W: fmt::Write>(&self, f: &mut Formatter<W>) -> fmt::Result {
        let Check { host, cid, .. } = *self;
        let name = OpName(self.op);
        let expected = StatusText(self.expected);
        let actual = StatusText(self.actual);
        write!(f, "{host} {cid} {name} expected {expected} got {actual}")
    }
}
