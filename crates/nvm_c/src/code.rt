ghost use Rattle.std.specs.Prelude.{◌≡◌};
ghost use Rattle.nvm_c.specs.Codes.{number_of};

/// What an export answers.
#[derive(Clone, Copy, Debug, PartialEq, Eq)]
pub enum Code {
    /// It was done.
    Done,
    /// The job's next unit was not to be had. The job stays in the port, to be polled.
    Pending,
    /// The port isn't open.
    NotOpen,
    /// A port is open already.
    IsOpen,
    /// Memory was refused before anything was done.
    NoMemory,
    /// There is no namespace of these numbers.
    BadNamespace,
    /// There are no ports, or more than 64.
    BadPorts,
    /// The limit isn't 1 to 4,194,304.
    BadLimit,
    /// The entries, the data or the completions aren't as long as the command calls for.
    BadLength,
    /// Two entries that aren't a fused pair.
    NoPair,
    /// A job is pending in the port.
    Busy,
    /// No job is pending in the port.
    Idle,
    /// Another port has changed the unit since this one has seen it.
    Newer,
    /// The range ends above the namespace.
    OutOfRange,
    /// The range lies in more than one unit.
    Crosses,
    /// The namespace was opened without versions.
    NoVersions,
}

impl Code {
    /// Its number in the header.
    pub(crate) fn number(self) -> i32
        ensures { result ≡ number_of self }
    {
        match self {
            Code::Done => 0,
            Code::Pending => 1,
            Code::NotOpen => 2,
            Code::IsOpen => 3,
            Code::NoMemory => 4,
            Code::BadNamespace => 5,
            Code::BadPorts => 6,
            Code::BadLimit => 7,
            Code::BadLength => 8,
            Code::NoPair => 9,
            Code::Busy => 10,
            Code::Idle => 11,
            Code::Newer => 12,
            Code::OutOfRange => 13,
            Code::Crosses => 14,
            Code::NoVersions => 15,
        }
    }
}
