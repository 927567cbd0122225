ghost use Rattle.std.specs.Prelude.{◌≡◌};
ghost use Rattle.nvm_c.specs.AuditCodes.{audit_number};

/// What an audit answers.
#[derive(Clone, Copy, Debug, PartialEq, Eq)]
pub enum AuditCode {
    /// The record is lawful.
    Lawful,
    /// The record isn't lawful: the line tells its first fault.
    Unlawful,
    /// The bytes are no record's file: the line tells their first fault.
    BadRecord,
    /// Memory was refused, and nothing is known.
    NoMemory,
    /// The line with its byte of 0 is longer than its room.
    ShortRoom,
}

impl AuditCode {
    /// Its number in the header.
    pub(crate) fn number(self) -> i32
        ensures { result ≡ audit_number self }
    {
        match self {
            AuditCode::Lawful => 0,
            AuditCode::NoMemory => 4,
            AuditCode::Unlawful => 16,
            AuditCode::BadRecord => 17,
            AuditCode::ShortRoom => 18,
        }
    }
}
