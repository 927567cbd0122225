use crate::kept::Kept;
use crate::unit::Unit;

/// What is notified of the course of jobs. Each method returns, and waits for nothing.
pub trait Gate {
    /// The unit of this number, which a change of the job holds, is about to be put back.
    fn before_put(&self, unit: u16, job: u32);

    /// A polled call has put the unit back. It wakes one of those who wait for the unit. Only where nobody ever waits for it,
    /// since all calls are polled, may a gate leave that out.
    fn after_put<K: Kept>(&self, unit: &Unit<K>) {
        unit.wake();
    }

    /// The job is done.
    fn after_job(&self, job: u32);

    /// `_jobs` jobs are about to be done, which count from 0.
    fn before_jobs(&self, _jobs: u32) {}
}

/// A gate that does nothing.
#[derive(Clone, Copy, Debug)]
pub struct Open;

impl Gate for Open {
    fn before_put(&self, _unit: u16, _job: u32) {}

    fn after_job(&self, _job: u32) {}
}
