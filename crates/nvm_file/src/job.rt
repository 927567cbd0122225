//! Jobs of a record file.
ghost use Rattle.std.specs.Prelude.{◌≡◌};
ghost use Rattle.nvm_file.specs.Fields.{Gives, items_at};
ghost use Rattle.nvm_file.specs.JobReading as spec;
ghost use Rattle.nvm_file.specs.JobReading.{job_at, pair_at, single_at};
ghost use Rattle.nvm_file.specs.Inside.Rest.{left_of};
ghost use Rattle.nvm_file.specs.Reading.{jobs_at};

use crate::command::command_of;
use crate::fields::{u8_in, u16_in};
use crate::frame::Frame;
use crate::items::items_of;
use crate::record_fault::RecordFault;
use crate::rest::Rest;
use crate::scope::Scope;
use crate::standing::Standing;
use nvm_plan::{Body, Job, MOST_HOSTS};
use std::alloc::Global;

/// A job has so many bytes at least: its host, its kind, and an entry.
const LEAST_BYTES: usize = 67;

/// The jobs, each at the place of its number. Their data is shared with the file.
#[tactic(auto, unfolding(crate::specs::Reading::jobs_at))]
pub fn jobs_of<'a>(
    alloc: Global,
    frame: &Frame,
    rest: Rest<'a>,
) -> Result<(Vec<Job>, Rest<'a>), RecordFault>
    ensures { Gives (λ x. (x.0.items, left_of x.1)) result (jobs_at frame.now (left_of rest.entry)) }
{
    let scope = frame.scope();
    some_jobs_of(alloc, &scope, frame.jobs, rest)
}

/// So many jobs.
fn some_jobs_of<'a>(
    alloc: Global,
    scope: &Scope,
    count: u32,
    from: Rest<'a>,
) -> Result<(Vec<Job>, Rest<'a>), RecordFault>
    ensures { Gives (λ x. (x.0.items, left_of x.1)) result (items_at (λ _. job_at scope.now) 0 count (left_of from.entry)) }
{
    items_of(
        alloc,
        count,
        LEAST_BYTES,
        from,
        |_, rest| job_of(scope, rest),
    )
}

/// A job: the number of its host, its kind, and its command or commands.
#[tactic(auto, unfolding(crate::specs::JobReading::job_at))]
#[inline(always)]
pub fn job_of<'a>(scope: &Scope, rest: Rest<'a>) -> Result<(Job, Rest<'a>), RecordFault>
    ensures { Gives (λ x. (x.0, left_of x.1)) result (job_at scope.now (left_of rest.entry)) }
{
    let (host, rest) = u16_in(scope.total, 1, MOST_HOSTS, rest)?;
    let (kind, rest) = u8_in(scope.total, 0, 1, rest)?;
    let (body, rest) = body_of(kind, scope, rest)?;
    Ok((Job { host, body }, rest))
}

/// What the kind says: 0 is a command by itself, and 1 a pair.
#[inline(always)]
fn body_of<'a>(kind: u8, scope: &Scope, rest: Rest<'a>) -> Result<(Body, Rest<'a>), RecordFault>
    ensures { Gives (λ x. (x.0, left_of x.1)) result (spec.body_at kind scope.now (left_of rest.entry)) }
{
    if kind == 0 {
        single_of(scope, rest)
    } else {
        pair_of(scope, rest)
    }
}

/// A command by itself.
#[inline(always)]
#[tactic(auto, unfolding(crate::specs::JobReading::single_at))]
fn single_of<'a>(scope: &Scope, rest: Rest<'a>) -> Result<(Body, Rest<'a>), RecordFault>
    ensures { Gives (λ x. (x.0, left_of x.1)) result (single_at scope.now (left_of rest.entry)) }
{
    let (command, rest) = command_of(scope, Standing::Alone, rest)?;
    Ok((Body::Single(command), rest))
}

/// The two commands of a fused pair.
#[tactic(auto, unfolding(crate::specs::JobReading::pair_at))]
fn pair_of<'a>(scope: &Scope, rest: Rest<'a>) -> Result<(Body, Rest<'a>), RecordFault>
    ensures { Gives (λ x. (x.0, left_of x.1)) result (pair_at scope.now (left_of rest.entry)) }
{
    let (first, rest) = command_of(scope, Standing::FirstOfPair, rest)?;
    let (second, rest) = command_of(scope, Standing::SecondOfPair, rest)?;
    Ok((Body::Pair(first, second), rest))
}
