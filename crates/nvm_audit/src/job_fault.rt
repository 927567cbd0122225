ghost use Rattle.std.specs.Prelude.{◌++◌, IfOk, length};
ghost use Rattle.nvm_audit.specs.Inside.Search.{IsFound};
ghost use Rattle.nvm_audit.specs.RecordChecks.{count_checks, shape_checks};

use crate::audit_fault::AuditFault;
use crate::occurrences::{count_fault, occurrences};
use crate::record::Record;
use crate::shapes::shape_fault;
use nvm_record::NoMemory;
use std::alloc::Global;

/// What is first found wrong of the record's jobs, if anything is: one that wasn't done once, or else one of which what was
/// done hasn't the shape of its outcome. It goes over the done jobs once, and then over the jobs twice.
pub(crate) fn job_fault(alloc: Global, r: &Record) -> Result<Option<AuditFault>, NoMemory>
    ensures { IfOk result (IsFound r.now (count_checks (length r.now.jobs) ++ shape_checks (length r.now.jobs))) }
{
    let found = occurrences(alloc, r.jobs.len(), &r.done)?;
    match count_fault(&found) {
        Some(fault) => Ok(Some(fault)),
        None => Ok(shape_fault(r, &found)),
    }
}
