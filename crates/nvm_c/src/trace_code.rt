ghost use Rattle.std.specs.Prelude.{◌≡◌};
ghost use Rattle.nvm_c.specs.TraceCodes.{trace_number};

/// What is answered where a trace is judged, by a record, an order or a contradiction.
#[derive(Clone, Copy, Debug, PartialEq, Eq)]
pub enum TraceCode {
    /// The record or the order explains the trace.
    Explained,
    /// Nothing explains the trace: the contradiction shows it, or a reply is wrong by itself.
    Refuted,
    /// Memory was refused, and nothing is known.
    NoMemory,
    /// The bytes are no record's file, or no order's: the line has their first fault.
    BadRecord,
    /// The line with its byte of 0 is longer than its room.
    ShortRoom,
    /// The record or the order doesn't explain the trace: the line has the first fault.
    Unexplained,
    /// The contradiction doesn't show that nothing explains the trace: the line says why.
    Unrefuted,
    /// The bytes are no trace's file: the line has their first fault.
    BadTrace,
    /// The bytes are no contradiction's file: the line has their first fault.
    BadContradiction,
}

impl TraceCode {
    /// Its number in the header.
    pub(crate) fn number(self) -> i32
        ensures { result ≡ trace_number self }
    {
        match self {
            TraceCode::Explained | TraceCode::Refuted => 0,
            TraceCode::NoMemory => 4,
            TraceCode::BadRecord => 17,
            TraceCode::ShortRoom => 18,
            TraceCode::Unexplained => 22,
            TraceCode::Unrefuted => 23,
            TraceCode::BadTrace => 24,
            TraceCode::BadContradiction => 25,
        }
    }
}
