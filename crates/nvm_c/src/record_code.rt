ghost use Rattle.std.specs.Prelude.{◌≡◌};
ghost use Rattle.nvm_c.specs.RecordCodes.{record_number};

/// What is answered where a record is asked for.
#[derive(Clone, Copy, Debug, PartialEq, Eq)]
pub enum RecordCode {
    /// The file of the record was written.
    Done,
    /// A port isn't open.
    NotOpen,
    /// Memory was refused.
    NoMemory,
    /// A job is pending in a port.
    Busy,
    /// What was gathered is no lawful record.
    Unlawful,
    /// The file is longer than its room.
    ShortRoom,
    /// These aren't all ports of one namespace, in their order.
    OtherPorts,
    /// The namespace was opened without a record.
    NoRecord,
    /// There were more jobs than a record has.
    RecordFull,
}

impl RecordCode {
    /// Its number in the header.
    pub(crate) fn number(self) -> i32
        ensures { result ≡ record_number self }
    {
        match self {
            RecordCode::Done => 0,
            RecordCode::NotOpen => 2,
            RecordCode::NoMemory => 4,
            RecordCode::Busy => 10,
            RecordCode::Unlawful => 16,
            RecordCode::ShortRoom => 18,
            RecordCode::OtherPorts => 19,
            RecordCode::NoRecord => 20,
            RecordCode::RecordFull => 21,
        }
    }
}
