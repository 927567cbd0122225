ghost use Rattle.std.specs.Prelude.{◌≡◌};
ghost use Rattle.nvm_commands.specs.declared.fault.Fault.TheVariants.{NoMemory};
ghost use Rattle.nvm_commands.specs.Fault.{fault_of_list, fault_of_file, fault_of_evidence, fault_of_record, fault_of_text, fault_of_trace};

use nvm_engine::Fault as EngineFault;
use nvm_evidence::{EvidenceFault, OrderWitnessFault, RefuteBytesFault};
use nvm_file::{RecordFault, TraceFileFault};
use nvm_geometry::GeometryFault;
use nvm_list::{Expected, ListFault};
use nvm_listing::Expected as Unexpected;
use nvm_record::HostFault;
use nvm_trace_text::{TextFault, TraceExpected};
use std::alloc::{AllocError, AllocFailed};
use thiserror::Error;

/// Why the program writes nothing. Each prints its one line, without the program's name.
#[derive(Debug, Drop, Error)]
pub enum Fault {
    /// A file couldn't be read.
    #[error("cannot read {path}")]
    CannotRead {
        path: String,
    },
    /// A file couldn't be written.
    #[error("cannot write {path}")]
    CannotWrite {
        path: String,
    },
    /// A line of the list is no command. Lines count from 1.
    #[error("line {line}: {expected}")]
    Line {
        line: u64,
        expected: Expected,
    },
    /// A line of the list at a path is no command. Lines count from 1.
    #[error("{path}: line {line}: {expected}")]
    ListLine {
        path: String,
        line: u64,
        expected: Expected,
    },
    /// An expectation in the list at a path is wrong. Lines count from 1.
    #[error("{path}: line {line}: {expected}")]
    Expectation {
        path: String,
        line: u64,
        expected: Unexpected,
    },
    /// A line of a trace's text is wrong. Lines count from 1.
    #[error("line {line}: {expected}")]
    TraceLine {
        line: u64,
        expected: TraceExpected,
    },
    /// A trace's text has no line with words.
    #[error("expected a trace's head")]
    NoHead,
    /// Standard input is more than one list of a run, or both a trace and its record.
    #[error("standard input is named twice")]
    InputTwice,
    /// The record of a run would go to standard output, where the lines go.
    #[error("the record can't go to standard output")]
    RecordAmongLines,
    /// An order or a contradiction would go to standard output.
    #[error("the evidence can't go to standard output")]
    EvidenceAmongLines,
    /// The options describe no namespace.
    #[error("geometry: {0}")]
    Geometry(GeometryFault),
    /// There are more than 64 lists.
    #[error("too many hosts")]
    TooManyHosts,
    /// The file begins as none of those that are expected.
    #[error("{path}: not the kind of file that is expected")]
    BadName {
        path: String,
    },
    /// Something in the host file, the record, the trace or the evidence isn't whole; it begins at offset `at`, in bytes.
    #[error("{path}: truncated at {at}")]
    Truncated {
        path: String,
        at: u64,
    },
    /// The host file has bytes after 65,536 commands.
    #[error("{path}: too many commands")]
    TooMany {
        path: String,
    },
    /// The record is of a version that isn't known.
    #[error("{path}: unknown version")]
    UnknownVersion {
        path: String,
    },
    /// Bytes follow the record, the trace or the evidence, from offset `at` on.
    #[error("{path}: trailing at {at}")]
    Trailing {
        path: String,
        at: u64,
    },
    /// The field at offset `at` of the record, the trace or the evidence has a value that isn't allowed.
    #[error("{path}: bad value at {at}")]
    BadValue {
        path: String,
        at: u64,
    },
    /// A job of the trace began at 0; the time begins at offset `at`.
    #[error("{path}: began at zero at {at}")]
    BeganAtZero {
        path: String,
        at: u64,
    },
    /// A job of the trace ended before it began; the time of its end begins at offset `at`.
    #[error("{path}: ended before it began at {at}")]
    EndedBefore {
        path: String,
        at: u64,
    },
    /// What the engine says to `nvmu`: the options, a host file, a record or a trace isn't one, or memory was refused.
    #[error("{0}")]
    Engine(EngineFault),
    /// What an order's witness says to `nvmu`: a trace or an order isn't one, or memory was refused.
    #[error("{0}")]
    Order(OrderWitnessFault),
    /// What `nvmu` is told of a contradiction: a trace or a contradiction isn't one, or memory was refused.
    #[error("{0}")]
    Refute(RefuteBytesFault),
    /// Memory was asked for and refused.
    #[error("no memory")]
    NoMemory,
}

impl Fault {
    /// The fault of a host file.
    pub fn of_file(path: String, fault: HostFault) -> Fault
        ensures { result ≡ fault_of_file path fault }
    {
        match fault {
            HostFault::BadName => Fault::BadName { path },
            HostFault::Truncated { at } => Fault::Truncated { path, at },
            HostFault::TooMany => Fault::TooMany { path },
            HostFault::NoMemory => Fault::NoMemory,
        }
    }

    /// The fault of a record.
    pub fn of_record(path: String, fault: RecordFault) -> Fault
        ensures { result ≡ fault_of_record path fault }
    {
        match fault {
            RecordFault::BadName => Fault::BadName { path },
            RecordFault::Version => Fault::UnknownVersion { path },
            RecordFault::Truncated { at } => Fault::Truncated { path, at },
            RecordFault::Trailing { at } => Fault::Trailing { path, at },
            RecordFault::BadValue { at } => Fault::BadValue { path, at },
            RecordFault::NoMemory => Fault::NoMemory,
        }
    }

    /// The fault of a trace's file.
    pub fn of_trace(path: String, fault: TraceFileFault) -> Fault
        ensures { result ≡ fault_of_trace path fault }
    {
        match fault {
            TraceFileFault::BadName => Fault::BadName { path },
            TraceFileFault::Truncated { at } => Fault::Truncated { path, at },
            TraceFileFault::Trailing { at } => Fault::Trailing { path, at },
            TraceFileFault::BadValue { at } => Fault::BadValue { path, at },
            TraceFileFault::BeganAtZero { at } => Fault::BeganAtZero { path, at },
            TraceFileFault::EndedBefore { at } => Fault::EndedBefore { path, at },
            TraceFileFault::NoMemory => Fault::NoMemory,
        }
    }

    /// The fault of a file of evidence.
    pub fn of_evidence(path: String, fault: EvidenceFault) -> Fault
        ensures { result ≡ fault_of_evidence path fault }
    {
        match fault {
            EvidenceFault::BadName => Fault::BadName { path },
            EvidenceFault::Truncated { at } => Fault::Truncated { path, at },
            EvidenceFault::Trailing { at } => Fault::Trailing { path, at },
            EvidenceFault::BadValue { at } => Fault::BadValue { path, at },
            EvidenceFault::NoMemory => Fault::NoMemory,
        }
    }
}

impl From<ListFault> for Fault {
    ghost from_gives = { λ fault e. e ≡ fault_of_list fault };

    fn from(fault: ListFault) -> Fault {
        match fault {
            ListFault::Line { line, expected } => Fault::Line { line, expected },
            ListFault::NoMemory => Fault::NoMemory,
        }
    }
}

impl From<TextFault> for Fault {
    ghost from_gives = { λ fault e. e ≡ fault_of_text fault };

    fn from(fault: TextFault) -> Fault {
        match fault {
            TextFault::Line { line, expected } => Fault::TraceLine { line, expected },
            TextFault::NoHead => Fault::NoHead,
            TextFault::NoMemory => Fault::NoMemory,
        }
    }
}

impl From<AllocError> for Fault {
    ghost from_gives = { λ _ e. e ≡ NoMemory };

    fn from(_e: AllocError) -> Fault {
        Fault::NoMemory
    }
}

impl<T: Drop> From<AllocFailed<T>> for Fault {
    ghost from_gives = { λ _ e. e ≡ NoMemory };

    fn from(_e: AllocFailed<T>) -> Fault {
        Fault::NoMemory
    }
}
