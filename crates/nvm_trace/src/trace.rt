ghost use Rattle.std.specs.Prelude.{◌≡◌, [], ◌∷◌, ◌++◌, MatchResult, OnOk, OnErr};

use crate::deallocated::Deallocated;
use crate::reads::Reads;
use crate::start::Start;
use crate::taking::ending_fault;
use crate::trace_fault::TraceFault;
use crate::traced_job::TracedJob;
use nvm_audit::{MOST_JOBS, Version};
use nvm_geometry::Geometry;
use nvm_plan::fits;
use std::alloc::{AllocFailed, Global};
use std::marker::Model;

/// What the hosts of a device saw of a run: which commands they sent, when, and what came back.
///
/// It has at most 4,194,304 jobs, which fit the geometry. Each began at 1 or later and ended no earlier than it began, with a
/// status for each of its commands, and with data only if it is a Read by itself, as long as its blocks. The order of the jobs
/// means nothing.
///
/// Contracts see it as plain data.
#[derive(Debug, Drop)]
pub struct Trace {
    /// The namespace on which the jobs were done, or the window of it that was traced.
    pub geometry: Geometry,
    /// The LBA of the device at which the window begins, or 0. The commands' LBAs count from it.
    pub first: u64,
    /// What was known of its blocks before.
    pub start: Start,
    /// What its Reads and Compares are held to.
    pub reads: Reads,
    /// What a deallocated block may read as.
    pub deallocated: Deallocated,
    /// The jobs, each at the place of its number.
    pub jobs: Vec<TracedJob>,
}

impl Model for Trace {
    ghost use Rattle.nvm_trace.specs.TraceView.{TraceView};

    ghost Value = { TraceView };

    ghost use Rattle.nvm_trace.specs.Shown.{shown_by, IsTraceableAs};

    ghost view = { shown_by };

    ghost invariant = { IsTraceableAs };
}

impl Trace {
    ghost use Rattle.nvm_trace.specs.Taking.{CanTake, Applies};

    /// A trace without jobs. It takes no memory.
    pub fn new(
        alloc: Global,
        geometry: Geometry,
        first: u64,
        start: Start,
        reads: Reads,
        deallocated: Deallocated,
    ) -> Trace
        ensures { result ≡ record { namespace = geometry; first = first; start = start; reads = reads; deallocated = deallocated; jobs = [] } }
    {
        Trace {
            geometry,
            first,
            start,
            reads,
            deallocated,
            jobs: Vec::new(alloc),
        }
    }

    /// Whether the trace can take the job, or a fault of it.
    pub fn check(&self, job: &TracedJob) -> Result<(), TraceFault>
        ensures { MatchResult result (λ _. CanTake self.now job.now) (Applies self.now job.now) }
    {
        if self.jobs.len() >= MOST_JOBS as usize {
            return Err(TraceFault::Full);
        }
        if !fits(&self.geometry.large(), &job.job) || !Version::Two.holds(&job.job.body) {
            return Err(TraceFault::JobUnfit);
        }
        if job.began == 0 {
            return Err(TraceFault::BeganAtZero);
        }
        match &job.ended {
            Some(ending) => match ending_fault(&self.geometry, job, ending) {
                Some(fault) => Err(fault),
                None => Ok(()),
            },
            None => Ok(()),
        }
    }

    /// Puts a job at the end, which [`check`](Trace::check) has found right. Where memory is refused the job comes back, and the
    /// trace is as it was.
    pub fn push(&mut self, job: TracedJob) -> Result<(), AllocFailed<TracedJob>>
        requires { CanTake self.old job }
        ensures put { OnOk result (self.new ≡ record self.old { jobs = self.old.jobs ++ job ∷ [] }) }
        ensures kept { OnErr result (self.new ≡ self.old) }
    {
        self.jobs.push(job)?;
        Ok(())
    }
}
