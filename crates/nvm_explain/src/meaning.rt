//! What each fault of a record means.
use nvm_audit::AuditFault;

/// What is after the fault's name in the line that says what it means. Want of memory means nothing of a record.
pub(crate) fn sense(fault: AuditFault) -> &'static str {
    match fault {
        AuditFault::JobMissing { .. } => ": no worker did the job.\n",
        AuditFault::JobTwice { .. } => ": the job was done more than once.\n",
        AuditFault::EntryUnclaimed { .. } => {
            ": no part of this worker and this job was done at the entry's place.\n"
        }
        AuditFault::EntryWrong { .. } => {
            ": the entry isn't its job's part in the unit, or it doesn't succeed after the entries before it.\n"
        }
        AuditFault::PointPast { .. } => {
            ": the part's point is above the number of entries, or its own entry doesn't stand there.\n"
        }
        AuditFault::PointBack { .. } => {
            ": the part's point lies before one that its worker had passed in the unit.\n"
        }
        AuditFault::StatusWrong { spot: None, .. } => {
            ": no run of the job ends with these parts, these statuses and this data.\n"
        }
        AuditFault::StatusWrong { spot: Some(_), .. } => {
            ": at its point the part doesn't end as it is recorded.\n"
        }
        AuditFault::DataWrong { .. } => {
            ": the Read's data isn't what the unit held at the part's point.\n"
        }
        AuditFault::NoMemory => "",
    }
}
