ghost use Rattle.std.specs.Prelude.{◌≡◌};
ghost use Rattle.nvm_trace.specs.declared.witness_fault.WitnessFault.TheVariants.{NoMemory};
ghost use Rattle.nvm_trace.specs.FaultPlace.{name_of, job_of, spot_of};

use nvm_audit::{AuditFault, Spot};
use std::alloc::{AllocError, AllocFailed};
use thiserror::Error;

/// Why a record doesn't explain a trace: the first thing found wrong, in the order of these cases. Jobs are the record's, numbered
/// from 0: the pieces of the trace's commands, and preparations.
#[derive(Clone, Copy, Debug, PartialEq, Eq, Error)]
pub enum WitnessFault {
    /// The record is of another namespace.
    #[error("NamespaceDiffers")]
    NamespaceDiffers,
    /// The record hasn't the piece of this number there, as it is to be judged.
    #[error("JobDiffers")]
    JobDiffers { job: u32 },
    /// The record's job of this number is no piece, and it is no Write of one block by itself, or the trace starts from
    /// zeroes.
    #[error("NoPreparation")]
    NoPreparation { job: u32 },
    /// The record isn't lawful. This is its first fault.
    #[error("Unlawful")]
    Unlawful { fault: AuditFault },
    /// What the record shows of the job isn't what its host saw.
    #[error("ReplyDiffers")]
    ReplyDiffers { job: u32 },
    /// A step of the job comes after one in its unit whose command began only when the job had ended. The place is the step's
    /// point.
    #[error("TimeBack")]
    TimeBack { job: u32, spot: Spot },
    /// Memory was asked for and refused: nothing is known.
    #[error("no memory")]
    NoMemory,
}

impl WitnessFault {
    /// The name of its case, by which it is reported: `JobDiffers` and so on. That of an unlawful record is its fault's.
    pub fn name(self) -> &'static str
        ensures { result.now ≡ name_of self }
    {
        match self {
            WitnessFault::NamespaceDiffers => "NamespaceDiffers",
            WitnessFault::JobDiffers { .. } => "JobDiffers",
            WitnessFault::NoPreparation { .. } => "NoPreparation",
            WitnessFault::Unlawful { fault } => fault.name(),
            WitnessFault::ReplyDiffers { .. } => "ReplyDiffers",
            WitnessFault::TimeBack { .. } => "TimeBack",
            WitnessFault::NoMemory => "NoMemory",
        }
    }

    /// The number of the job whose fault it is. Another namespace and `NoMemory` are of no job.
    pub fn job(self) -> Option<u32>
        ensures { result ≡ job_of self }
    {
        match self {
            WitnessFault::JobDiffers { job }
            | WitnessFault::NoPreparation { job }
            | WitnessFault::ReplyDiffers { job }
            | WitnessFault::TimeBack { job, .. } => Some(job),
            WitnessFault::Unlawful { fault } => fault.job(),
            WitnessFault::NamespaceDiffers | WitnessFault::NoMemory => None,
        }
    }

    /// Where in a unit the fault is, if it is in one.
    pub fn spot(self) -> Option<Spot>
        ensures { result ≡ spot_of self }
    {
        match self {
            WitnessFault::TimeBack { spot, .. } => Some(spot),
            WitnessFault::Unlawful { fault } => fault.spot(),
            _ => None,
        }
    }
}

impl From<AllocError> for WitnessFault {
    ghost from_gives = { λ _ e. e ≡ NoMemory };

    fn from(_e: AllocError) -> WitnessFault {
        WitnessFault::NoMemory
    }
}

impl<T: Drop> From<AllocFailed<T>> for WitnessFault {
    ghost from_gives = { λ _ e. e ≡ NoMemory };

    fn from(_e: AllocFailed<T>) -> WitnessFault {
        WitnessFault::NoMemory
    }
}
