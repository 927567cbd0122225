ghost use Rattle.std.specs.Prelude.{◌≡◌, Some, vec_len};
ghost use Rattle.nvm_record.specs.Deeds.{success_of};
ghost use Rattle.nvm_record.specs.Step.{Operation};
ghost use Rattle.nvm_geometry.specs.Namespace.{Namespace};
ghost use Rattle.nvm_plan.specs.Operation.{job_operation_of};
ghost use Rattle.nvm_plan.specs.Outcome.{answered, unstarted_of};
ghost use Rattle.std.specs.Prelude.{[], None};

use nvm_plan::{Body, Completions, Job, Parts};
use nvm_record::{Op, ReadData, Status, Statuses};
use std::alloc::Global;

/// What is reported about a job that was done.
#[derive(Debug, PartialEq, Eq, Drop)]
pub struct JobDone {
    /// What is reported to its host: one completion, or two of a fused pair.
    pub completions: Completions,
    /// The parts that were done, in the order of their units. Always empty in a space without a limit.
    pub parts: Parts,
}

impl JobDone {
    ghost use Rattle.nvm_plan.specs.Shape.{IsForEach};
    ghost use Rattle.nvm_space.specs.Inside.Parts.{job_ended};

    /// A job that ended with these statuses and this data after these parts.
    #[inline(always)]
    pub(crate) fn of(
        job: &Job,
        statuses: Statuses,
        payload: Option<ReadData>,
        parts: Parts,
    ) -> JobDone
        requires { IsForEach job.now.body statuses }
        ensures { job_ended job.now statuses payload parts.items result }
    {
        JobDone {
            completions: Completions::of(job, statuses, payload),
            parts,
        }
    }

    /// A job whose parts were all done with success, where `bytes` are what they read.
    #[inline(always)]
    pub(crate) fn of_success(job: &Job, bytes: Vec<u8>, parts: Parts) -> JobDone
        ensures { (ns : Namespace) (op : Operation) → job_operation_of ns job.now ≡ Some op
            → job_ended job.now (success_of op.deed) (answered op.deed bytes.items) parts.items result }
    {
        match &job.body {
            Body::Single(command) => {
                let payload = if command.op == Op::Read {
                    Some(ReadData::new(bytes))
                } else {
                    None
                };
                JobDone::of(
                    job,
                    Statuses::One(Status::SUCCESSFUL_COMPLETION),
                    payload,
                    parts,
                )
            }
            Body::Pair(_, _) => JobDone::of(
                job,
                Statuses::Two(Status::SUCCESSFUL_COMPLETION, Status::SUCCESSFUL_COMPLETION),
                None,
                parts,
            ),
        }
    }

    /// A job that found no memory before its first part.
    pub(crate) fn of_no_part(alloc: Global, job: &Job) -> JobDone
        ensures { (ns : Namespace) (op : Operation) → job_operation_of ns job.now ≡ Some op
            → job_ended job.now (unstarted_of op.deed) None [] result }
    {
        let statuses = match &job.body {
            Body::Single(_) => Statuses::One(Status::INTERNAL_ERROR),
            Body::Pair(_, _) => Statuses::Two(
                Status::INTERNAL_ERROR,
                Status::ABORTED_DUE_TO_FAILED_FUSED_COMMAND,
            ),
        };
        JobDone::of(job, statuses, None, Parts::new(alloc))
    }
}
