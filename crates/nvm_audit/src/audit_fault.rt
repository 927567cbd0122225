ghost use Rattle.std.specs.Prelude.{◌≡◌};
ghost use Rattle.nvm_audit.specs.declared.audit_fault.AuditFault.TheVariants.{NoMemory};
ghost use Rattle.nvm_audit.specs.FaultName.{name_of};
ghost use Rattle.nvm_audit.specs.FaultPlace.{job_of, spot_of};
ghost use Rattle.nvm_audit.specs.NamedUnit as spec;

use std::alloc::{AllocError, AllocFailed};
use thiserror::Error;

/// Why a record isn't lawful: the first thing found wrong in it, in the order in which an audit looks. First each job in the
/// order of the numbers, whether it was done once; then each job, whether it has the shape of an outcome; then each unit: its
/// entries by place, and then the parts that name it, by worker and in the worker's order.
#[derive(Clone, Copy, Debug, PartialEq, Eq, Error)]
pub enum AuditFault {
    /// No worker did the job.
    #[error("JobMissing")]
    JobMissing { job: u32 },
    /// The job was done more than once.
    #[error("JobTwice")]
    JobTwice { job: u32 },
    /// The worker that an entry names has no part of the job there that was done at the entry's place.
    #[error("EntryUnclaimed")]
    EntryUnclaimed { job: u32, spot: Spot },
    /// An entry isn't its job's part in the unit, or doesn't succeed after the entries before it.
    #[error("EntryWrong")]
    EntryWrong { job: u32, spot: Spot },
    /// A part's point is above the number of entries, or the part was done and the entry at its point isn't of its worker
    /// and its job.
    #[error("PointPast")]
    PointPast { job: u32, spot: Spot },
    /// A part's point is below one that its worker had in the unit before, or not above the place of an entry that the
    /// worker had made there before.
    #[error("PointBack")]
    PointBack { job: u32, spot: Spot },
    /// What was done of a job hasn't the shape of an outcome: no spot is named then. Or a part at its point didn't end as
    /// recorded, or with other statuses.
    #[error("StatusWrong")]
    StatusWrong { job: u32, spot: Option<Spot> },
    /// The data recorded of a Read isn't that of the blocks at its part's point.
    #[error("DataWrong")]
    DataWrong { job: u32, spot: Spot },
    /// Memory was asked for and refused: nothing is known of the record.
    #[error("no memory")]
    NoMemory,
}

impl AuditFault {
    /// Whether the fault names a unit. Then nothing is wrong with the jobs by themselves.
    pub fn names_unit(self) -> bool
        ensures { result ≡ spec.names_unit self }
    {
        match self {
            AuditFault::JobMissing { .. } | AuditFault::JobTwice { .. } | AuditFault::NoMemory => {
                false
            }
            AuditFault::EntryUnclaimed { .. }
            | AuditFault::EntryWrong { .. }
            | AuditFault::PointPast { .. }
            | AuditFault::PointBack { .. }
            | AuditFault::DataWrong { .. } => true,
            AuditFault::StatusWrong { spot, .. } => spot.is_some(),
        }
    }

    /// The name of its case, by which it is reported: `JobMissing` and so on.
    pub fn name(self) -> &'static str
        ensures { result.now ≡ name_of self }
    {
        match self {
            AuditFault::JobMissing { .. } => "JobMissing",
            AuditFault::JobTwice { .. } => "JobTwice",
            AuditFault::EntryUnclaimed { .. } => "EntryUnclaimed",
            AuditFault::EntryWrong { .. } => "EntryWrong",
            AuditFault::PointPast { .. } => "PointPast",
            AuditFault::PointBack { .. } => "PointBack",
            AuditFault::StatusWrong { .. } => "StatusWrong",
            AuditFault::DataWrong { .. } => "DataWrong",
            AuditFault::NoMemory => "NoMemory",
        }
    }

    /// The number of the job whose fault it is. `NoMemory` alone is of no job.
    pub fn job(self) -> Option<u32>
        ensures { result ≡ job_of self }
    {
        match self {
            AuditFault::JobMissing { job }
            | AuditFault::JobTwice { job }
            | AuditFault::EntryUnclaimed { job, .. }
            | AuditFault::EntryWrong { job, .. }
            | AuditFault::PointPast { job, .. }
            | AuditFault::PointBack { job, .. }
            | AuditFault::StatusWrong { job, .. }
            | AuditFault::DataWrong { job, .. } => Some(job),
            AuditFault::NoMemory => None,
        }
    }

    /// Where in a unit the fault is. One of a job by itself, and `NoMemory`, have no spot.
    pub fn spot(self) -> Option<Spot>
        ensures { result ≡ spot_of self }
    {
        match self {
            AuditFault::JobMissing { .. } | AuditFault::JobTwice { .. } | AuditFault::NoMemory =>
                None,
            AuditFault::EntryUnclaimed { spot, .. }
            | AuditFault::EntryWrong { spot, .. }
            | AuditFault::PointPast { spot, .. }
            | AuditFault::PointBack { spot, .. }
            | AuditFault::DataWrong { spot, .. } => Some(spot),
            AuditFault::StatusWrong { spot, .. } => spot,
        }
    }
}

/// Where in a unit something is wrong.
#[derive(Clone, Copy, Debug, PartialEq, Eq)]
pub struct Spot {
    /// The number of the unit.
    pub unit: u16,
    /// The place of an entry in the unit's history, or the point of a part.
    pub place: u32,
}

impl From<AllocError> for AuditFault {
    ghost from_gives = { λ _ e. e ≡ NoMemory };

    fn from(_e: AllocError) -> AuditFault {
        AuditFault::NoMemory
    }
}

impl<T: Drop> From<AllocFailed<T>> for AuditFault {
    ghost from_gives = { λ _ e. e ≡ NoMemory };

    fn from(_e: AllocFailed<T>) -> AuditFault {
        AuditFault::NoMemory
    }
}
