use thiserror::Error;

/// Why a job can't be put into a trace.
#[derive(Clone, Copy, Debug, PartialEq, Eq, Error)]
pub enum TraceFault {
    /// The trace has 4,194,304 jobs.
    #[error("the trace has 4194304 jobs already")]
    Full,
    /// The host isn't 1 to 64, a command hasn't the data that it calls for, it is an unknown opcode 09h, or the two commands
    /// aren't a fused pair.
    #[error("its host isn't 1 to 64, its data isn't what it calls for, or its two commands aren't first and second of a pair")]
    JobUnfit,
    /// It began at 0, the time of what was there before the trace.
    #[error("it began at 0")]
    BeganAtZero,
    /// It ended before it began.
    #[error("it ended before it began")]
    EndedBefore,
    /// There isn't a status for each of its commands.
    #[error("it hasn't a status for each command")]
    StatusesWrong,
    /// There is data, and the job isn't a Read by itself, or the data isn't as long as its blocks.
    #[error("it has data and isn't a Read, or data of another length than its blocks")]
    DataWrong,
}
