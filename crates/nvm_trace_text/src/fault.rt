ghost use Rattle.std.specs.Prelude.{◌≡◌};
ghost use Rattle.nvm_trace_text.specs.Inside.Answers.{listed_fault};
ghost use Rattle.nvm_trace_text.specs.declared.fault.TextFault.TheVariants as of_text;
ghost use Rattle.nvm_trace_text.specs.declared.fault.LineFault.TheVariants as of_line;

use crate::expected::TraceExpected;
use nvm_list::LineFault as ListedFault;
use std::alloc::{AllocError, AllocFailed};
use thiserror::Error;

/// Why a text is no trace.
#[derive(Clone, Copy, Debug, PartialEq, Eq, Error)]
pub enum TextFault {
    /// A line is wrong. Lines count from 1, and this is the first such line.
    #[error("line {line}: {expected}")]
    Line { line: u64, expected: TraceExpected },
    /// No line has words.
    #[error("expected a trace's head")]
    NoHead,
    /// Memory was asked for and refused.
    #[error("no memory")]
    NoMemory,
}

/// Why a line says no job.
#[derive(Clone, Copy)]
pub(crate) enum LineFault {
    Expected(TraceExpected),
    NoMemory,
}

impl From<TraceExpected> for LineFault {
    ghost from_gives = { λ expected e. e ≡ of_line.Expected expected };

    fn from(expected: TraceExpected) -> LineFault {
        LineFault::Expected(expected)
    }
}

impl From<ListedFault> for LineFault {
    ghost from_gives = { λ fault e. e ≡ listed_fault fault };

    fn from(fault: ListedFault) -> LineFault {
        match fault {
            ListedFault::Expected(expected) => LineFault::Expected(TraceExpected::Words(expected)),
            ListedFault::NoMemory => LineFault::NoMemory,
        }
    }
}

impl From<AllocError> for LineFault {
    ghost from_gives = { λ _ e. e ≡ of_line.NoMemory };

    fn from(_e: AllocError) -> LineFault {
        LineFault::NoMemory
    }
}
