//! Jobs of a trace's file.
ghost use Rattle.std.specs.Prelude.{◌≡◌};
ghost use Rattle.nvm_file.specs.Fields.{Gives, items_at};
ghost use Rattle.nvm_file.specs.Inside.Rest.{left_of};
ghost use Rattle.nvm_file.specs.TraceFields.{GivesTraced};
ghost use Rattle.nvm_file.specs.TracedJobReading.{began_at, ended_at, ended_by, ending_at, traced_at};

use crate::done_job::{payload_of, read_length, statuses_of};
use crate::fields::{offset_of, u64_of};
use crate::items::items_of;
use crate::job::job_of;
use crate::record_fault::RecordFault;
use crate::rest::Rest;
use crate::scope::Scope;
use crate::trace_file_fault::TraceFileFault;
use nvm_plan::Body;
use nvm_trace::{Ending, TracedJob};
use std::alloc::Global;

/// A job has so many bytes at least: its host, its kind, an entry, and two times.
const LEAST_BYTES: usize = 83;

/// The time of an end that wasn't seen.
pub const NEVER: u64 = u64::MAX;

/// `count` jobs, each at the place of its number. Their data, and that of what Reads found, is shared with the file.
pub fn traced_jobs_of<'a>(
    alloc: Global,
    scope: &Scope,
    count: u32,
    from: Rest<'a>,
) -> Result<(Vec<TracedJob>, Rest<'a>), TraceFileFault>
    ensures { GivesTraced (λ x. (x.0.items, left_of x.1)) result (items_at (λ _. traced_at scope.now) 0 count (left_of from.entry)) }
{
    items_of(
        alloc,
        count,
        LEAST_BYTES,
        from,
        |_, rest| traced_job_of(scope, rest),
    )
}

/// A job, when it began, and how it ended.
#[tactic(auto, unfolding(crate::specs::TracedJobReading::traced_at))]
fn traced_job_of<'a>(scope: &Scope, rest: Rest<'a>) -> Result<(TracedJob, Rest<'a>), TraceFileFault>
    ensures { GivesTraced (λ x. (x.0, left_of x.1)) result (traced_at scope.now (left_of rest.entry)) }
{
    let (job, rest) = job_of(scope, rest)?;
    let (began, rest) = began_of(scope.total, rest)?;
    let (ended, rest) = ended_of(scope, &job.body, began, rest)?;
    Ok((TracedJob { job, began, ended }, rest))
}

/// When a job began, which is 1 or later.
#[tactic(auto, unfolding(crate::specs::TracedJobReading::began_at))]
fn began_of(total: usize, rest: Rest<'_>) -> Result<(u64, Rest<'_>), TraceFileFault>
    ensures { GivesTraced (λ x. (x.0, left_of x.1)) result (began_at total (left_of rest.entry)) }
{
    let (began, after) = u64_of(total, rest)?;
    if began == 0 {
        return Err(TraceFileFault::BeganAtZero {
            at: offset_of(total, rest),
        });
    }
    Ok((began, after))
}

/// How a job ended that began then, if its end was seen.
#[tactic(auto, unfolding(crate::specs::TracedJobReading::ended_at, crate::specs::TracedJobReading::seen_at))]
fn ended_of<'a>(
    scope: &Scope,
    body: &Body,
    began: u64,
    rest: Rest<'a>,
) -> Result<(Option<Ending>, Rest<'a>), TraceFileFault>
    ensures { GivesTraced (λ x. (x.0, left_of x.1)) result (ended_at scope.now body.now began (left_of rest.entry)) }
{
    let (time, after) = u64_of(scope.total, rest)?;
    if time == NEVER {
        return Ok((None, after));
    }
    if time < began {
        return Err(TraceFileFault::EndedBefore {
            at: offset_of(scope.total, rest),
        });
    }
    let (ending, after) = ending_of(scope, body, time, after)?;
    Ok((Some(ending), after))
}

/// What came back at this time: the statuses, and the data of a Read.
#[tactic(auto, unfolding(crate::specs::TracedJobReading::ending_at))]
fn ending_of<'a>(
    scope: &Scope,
    body: &Body,
    time: u64,
    rest: Rest<'a>,
) -> Result<(Ending, Rest<'a>), RecordFault>
    ensures { Gives (λ x. (x.0, left_of x.1)) result (ending_at scope.now body.now time (left_of rest.entry)) }
{
    let (statuses, rest) = statuses_of(body, scope.total, rest)?;
    let length = read_length(&scope.geometry, body);
    let (payload, rest) = payload_of(scope.total, length, rest)?;
    let ending = Ending {
        time,
        statuses,
        payload,
    };
    Ok((ending, rest))
}
