ghost use Rattle.std.specs.Prelude.{◌≡◌, [], ◌∷◌, ◌++◌, IfOk, IsTrue, OnOk, OnErr};
ghost use Rattle.nvm_trace.specs.ExplainedBy.{IsExplainedBy};

use nvm_audit::Record;
use nvm_trace::{Judging, Trace, TraceFault, TracedJob, WitnessFault, witness};
use std::alloc::Global;
use std::thread::Threads;

/// Why a command wasn't noted.
#[derive(Clone, Copy, Debug, PartialEq, Eq)]
pub enum Unnoted {
    /// A trace can't have it.
    Wrong { fault: TraceFault },
    /// There was no memory.
    NoMemory,
}

/// Notes what a test bench saw of a command or a fused pair.
pub fn note(trace: &mut Trace, seen: TracedJob) -> Result<(), Unnoted>
    ensures noted { OnOk result (trace.new ≡ record trace.old { jobs = trace.old.jobs ++ seen ∷ [] }) }
    ensures kept { OnErr result (trace.new ≡ trace.old) }
{
    match trace.check(&seen) {
        Ok(()) => {}
        Err(fault) => return Err(Unnoted::Wrong { fault }),
    }
    match trace.push(seen) {
        Ok(()) => Ok(()),
        Err(_) => Err(Unnoted::NoMemory),
    }
}

/// Whether the record explains what the bench saw, with no reply excused.
pub fn is_certified(
    rt: &(impl Threads + Sync),
    alloc: Global,
    judging: Judging,
    trace: &Trace,
    record: &Record,
) -> Result<bool, WitnessFault>
    ensures { IfOk result (λ certified. IsTrue certified → IsExplainedBy judging «trace».now «record».now) }
{
    let explained = witness(rt, alloc, judging, trace, record)?;
    Ok(explained.excused == 0)
}
