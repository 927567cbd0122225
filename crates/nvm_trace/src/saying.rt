ghost use Rattle.std.specs.Prelude.{◌≡◌, ◌&&◌};
ghost use Rattle.nvm_plan.specs.Checks.{refusal_of};
ghost use Rattle.nvm_trace.specs.Saying as spec;

use crate::traced_job::TracedJob;
use nvm_geometry::Geometry;
use nvm_plan::{Body, Job, Plan, plan};
use nvm_record::{Op, Status, Statuses};

fn is_status(status: Status, other: Status) -> bool
    ensures { result ≡ spec.is_status status other }
{
    status.sct == other.sct && status.sc == other.sc
}

fn are_statuses(statuses: Statuses, others: Statuses) -> bool
    ensures { result ≡ spec.are_statuses statuses others }
{
    match (statuses, others) {
        (Statuses::One(status), Statuses::One(other)) => is_status(status, other),
        (Statuses::Two(first, second), Statuses::Two(other, last)) => {
            is_status(first, other) && is_status(second, last)
        }
        _ => false,
    }
}

/// Whether a comparison that doesn't hold ends so.
fn is_failed_comparison(status: Status) -> bool
    ensures { result ≡ spec.is_failed_comparison status }
{
    is_status(status, Status::UNRECOVERED_READ_ERROR) || is_status(status, Status::COMPARE_FAILURE)
}

/// Whether it is an error that the step gives the command.
fn is_error_of(op: Op, status: Status) -> bool
    ensures { result ≡ spec.is_error_of op status }
{
    match op {
        Op::Read => is_status(status, Status::UNRECOVERED_READ_ERROR),
        Op::Compare => is_failed_comparison(status),
        _ => false,
    }
}

/// Whether it is success of each command.
pub fn is_success(statuses: Statuses) -> bool
    ensures { result ≡ spec.is_success statuses }
{
    match statuses {
        Statuses::One(status) => is_status(status, Status::SUCCESSFUL_COMPLETION),
        Statuses::Two(first, second) => {
            is_status(first, Status::SUCCESSFUL_COMPLETION)
                && is_status(second, Status::SUCCESSFUL_COMPLETION)
        }
    }
}

/// Whether the step gives the job these statuses, on some blocks.
fn can_be_of(body: &Body, statuses: Statuses) -> bool
    ensures { result ≡ spec.can_be_of body.now statuses }
{
    match (body, statuses) {
        (Body::Single(command), Statuses::One(status)) => {
            is_status(status, Status::SUCCESSFUL_COMPLETION) || is_error_of(command.op, status)
        }
        (Body::Pair(_, _), Statuses::Two(first, second)) => {
            is_success(statuses)
                || is_failed_comparison(first)
                    && is_status(second, Status::ABORTED_DUE_TO_FAILED_FUSED_COMMAND)
        }
        _ => false,
    }
}

/// Whether one status of a pair says that the comparison held, and the other that it didn't.
fn contradicts_itself(statuses: Statuses) -> bool
    ensures { result ≡ spec.contradicts_itself statuses }
{
    match statuses {
        Statuses::One(_) => false,
        Statuses::Two(first, second) => {
            !is_status(first, Status::SUCCESSFUL_COMPLETION)
                && is_status(second, Status::SUCCESSFUL_COMPLETION)
                || is_status(first, Status::SUCCESSFUL_COMPLETION)
                    && is_status(second, Status::ABORTED_DUE_TO_FAILED_FUSED_COMMAND)
        }
    }
}

/// Whether the opcodes are of the profile.
fn is_served(body: &Body) -> bool
    ensures { result ≡ spec.is_served body.now }
{
    match body {
        Body::Single(command) => match command.op {
            Op::Other(_) => false,
            _ => true,
        },
        Body::Pair(_, _) => true,
    }
}

/// Whether it is success of each of the job's commands, which are of the profile.
fn is_plain_success(body: &Body, statuses: Statuses) -> bool
    ensures { result ≡ (spec.is_success statuses && spec.can_be_of body.now statuses && spec.is_served body.now) }
{
    is_success(statuses) && can_be_of(body, statuses) && is_served(body)
}

/// Whether these statuses say what was done of the job.
fn says_of(geometry: &Geometry, job: &Job, statuses: Statuses) -> bool
    ensures { result ≡ spec.says_of (refusal_of geometry.now job.now) job.now.body statuses }
{
    // This says it whether a check applies to the job or not, so the checks aren't made.
    if is_plain_success(&job.body, statuses) {
        return true;
    }
    match plan(geometry, job) {
        Plan::Refused(refusal) => {
            is_served(&job.body)
                && (are_statuses(statuses, refusal)
                    || is_success(statuses)
                    || contradicts_itself(statuses))
        }
        Plan::Ready => can_be_of(&job.body, statuses) || contradicts_itself(statuses),
    }
}

/// Whether the job's reply says what was done.
pub fn says_what_was_done(geometry: &Geometry, traced: &TracedJob) -> bool
    ensures { result ≡ spec.says_what_was_done geometry.now traced.now }
{
    match &traced.ended {
        Some(ending) => says_of(geometry, &traced.job, ending.statuses),
        None => false,
    }
}

/// Whether the error is found before a command is executed.
fn is_found_before(status: Status) -> bool
    ensures { result ≡ spec.is_found_before status }
{
    is_status(status, Status::INVALID_COMMAND_OPCODE)
        || is_status(status, Status::INVALID_FIELD_IN_COMMAND)
        || is_status(status, Status::ABORTED_DUE_TO_FAILED_FUSED_COMMAND)
        || is_status(status, Status::ABORTED_DUE_TO_MISSING_FUSED_COMMAND)
        || is_status(status, Status::INVALID_NAMESPACE_OR_FORMAT)
        || is_status(status, Status::ATOMIC_WRITE_UNIT_EXCEEDED)
        || is_status(status, Status::LBA_OUT_OF_RANGE)
}

/// Whether the job's reply says that nothing was written.
pub fn says_nothing_was_written(traced: &TracedJob) -> bool
    ensures { result ≡ spec.says_nothing_was_written traced.now }
{
    match &traced.ended {
        Some(ending) => match ending.statuses {
            Statuses::One(status) => is_found_before(status),
            Statuses::Two(first, second) => is_failed_comparison(first) || is_found_before(second),
        },
        None => false,
    }
}

/// Whether the job's reply, if there is one, leaves open what was done.
pub(crate) fn leaves_open(geometry: &Geometry, traced: &TracedJob) -> bool
    ensures { result ≡ spec.leaves_open geometry.now traced.now }
{
    !says_what_was_done(geometry, traced) && !says_nothing_was_written(traced)
}
