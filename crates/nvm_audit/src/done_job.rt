use nvm_plan::Parts;
use nvm_record::{ReadData, Statuses};
use std::marker::Model;

/// What a record shows of one job that was done.
///
/// Contracts see it as plain data.
#[derive(Debug, Drop)]
pub struct DoneJob {
    /// The job's number: its place in the list of jobs.
    pub job: u32,
    /// The parts that were done, in the order of their units.
    pub parts: Parts,
    /// One status, or the two of a fused pair.
    pub statuses: Statuses,
    /// The data of a Read of status 0/00.
    pub payload: Option<ReadData>,
}

impl Model for DoneJob {
    ghost use Rattle.nvm_audit.specs.RecordedJob.{RecordedJob};

    ghost Value = { RecordedJob };

    ghost view = { λ d. record { job = d.job; parts = d.parts.items; statuses = d.statuses; payload = d.payload } };
}
