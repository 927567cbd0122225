//! A witness by one thread.
ghost use Rattle.std.specs.Prelude.{◌≡◌, Ok, IfOk};
ghost use Rattle.nvm_trace.specs.ExplainedBy.{IsExplainedBy};
ghost use Rattle.nvm_trace.specs.declared.explained.Explained.{Explained as Numbers};
ghost use Rattle.nvm_engine.specs.Witnessed.{IsWitnessedAs};

use crate::witnessed::Witnessed;
use nvm_audit::Record;
use nvm_record::NoMemory;
use nvm_trace::{Judging, Trace, witness_alone};
use std::alloc::Global;

/// Whether the record explains the trace: the numbers of the two, or the first fault, by this thread alone and without a wait.
pub fn witness_record_alone(
    alloc: Global,
    judging: Judging,
    trace: &Trace,
    record: &Record,
) -> Result<Witnessed, NoMemory>
    ensures witnessed { IfOk result (IsWitnessedAs judging trace.now «record».now) }
    ensures accepted { IsExplainedBy judging trace.now «record».now
        → IfOk result (λ witnessed. (numbers : Numbers) × (witnessed ≡ Ok numbers)) }
{
    match witness_alone(alloc, judging, trace, record) {
        Ok(explained) => Ok(Witnessed::explained(explained)),
        Err(fault) => Ok(Witnessed::unexplained(fault)?),
    }
}
