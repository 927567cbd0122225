ghost use Rattle.std.specs.Prelude.{◌↔◌, IfOk, IsTrue};
ghost use Rattle.nvm_audit.specs.LawfulRecord.{IsLawfulRecord};

use nvm_audit::{AuditFault, Record, audit};
use nvm_record::NoMemory;
use std::alloc::{AllocError, Global};
use std::thread::Threads;

/// Whether the run was lawful of which this is the record.
pub fn is_lawful(
    rt: &(impl Threads + Sync),
    alloc: Global,
    record: &Record,
) -> Result<bool, NoMemory>
    ensures { IfOk result (λ lawful. IsTrue lawful ↔ IsLawfulRecord «record».now) }
{
    match audit(rt, alloc, record) {
        Ok(_) => Ok(true),
        Err(AuditFault::NoMemory) => Err(AllocError),
        Err(_) => Ok(false),
    }
}
