ghost use Rattle.std.specs.Prelude.{◌↔◌, IsTrue, MatchOption};
ghost use Rattle.nvm_plan.specs.Shape.{IsForEach};
ghost use Rattle.nvm_trace.specs.Traceable.{IsDataOf, IsEndingOf};
ghost use Rattle.nvm_trace.specs.Inside.Endings.{IsEndingFault};

use crate::trace_fault::TraceFault;
use crate::traced_job::{Ending, TracedJob};
use nvm_geometry::Geometry;
use nvm_plan::Body;
use nvm_record::{Op, ReadData, Statuses};

/// Whether there is a status for each command.
fn has_statuses(body: &Body, statuses: Statuses) -> bool
    ensures { IsTrue result ↔ IsForEach body.now statuses }
{
    match (body, statuses) {
        (Body::Single(_), Statuses::One(_)) => true,
        (Body::Pair(_, _), Statuses::Two(_, _)) => true,
        _ => false,
    }
}

/// Whether it is a Read by itself, and the data is as long as its blocks.
fn is_data_of(geometry: &Geometry, body: &Body, bytes: &ReadData) -> bool
    ensures { IsTrue result ↔ IsDataOf geometry.now body.now bytes.now }
{
    match body {
        Body::Single(command) => {
            let blocks = u64::from(command.nlb) + 1;
            let size = u64::from(geometry.block_size().bytes());
            command.op == Op::Read && bytes.len() as u64 == blocks * size
        }
        Body::Pair(_, _) => false,
    }
}

/// What is wrong with how the job ended, if anything is.
pub(crate) fn ending_fault(
    geometry: &Geometry,
    job: &TracedJob,
    ending: &Ending,
) -> Option<TraceFault>
    ensures { MatchOption result (IsEndingOf geometry.now job.now ending.now) (IsEndingFault geometry.now job.now ending.now) }
{
    if ending.time < job.began {
        return Some(TraceFault::EndedBefore);
    }
    if !has_statuses(&job.job.body, ending.statuses) {
        return Some(TraceFault::StatusesWrong);
    }
    match &ending.payload {
        Some(bytes) => {
            if is_data_of(geometry, &job.job.body, bytes) {
                None
            } else {
                Some(TraceFault::DataWrong)
            }
        }
        None => None,
    }
}
