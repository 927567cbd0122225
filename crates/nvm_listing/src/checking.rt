//! The expectations of lists beside what a run did.
ghost use Rattle.std.specs.Prelude.{◌≡◌, ◌++◌, IfOk, OnOk, map};
ghost use Rattle.nvm_audit.specs.LawfulRecord.{IsLawfulRecord};
ghost use Rattle.nvm_plan.specs.Shape.{IsForEach};
ghost use Rattle.nvm_listing.specs.Checks as spec;
ghost use Rattle.nvm_listing.specs.Checks.{AreChecksOf};

use crate::check::Check;
use nvm_audit::{DoneJobs, Record};
use nvm_plan::{Body, Job};
use nvm_record::{Command, NoMemory, Status, Statuses};
use std::alloc::Global;

/// The expectations of lists, each beside the status with which its command ended, in the order of the record's jobs. `lists` has
/// what each command of a list expects, as [`expectations`](crate::expectations) gives it, host 1's list first. They are left after
/// the commands that the record has.
pub fn checks(
    alloc: Global,
    run: &Record,
    lists: &mut [&[Option<Status>]],
) -> Result<Vec<Check>, NoMemory>
    requires { IsLawfulRecord run.now }
    ensures { IfOk result (λ checks. AreChecksOf (map (λ list. list.now) lists.old) run.now checks.items) }
{
    let found = DoneJobs::of(alloc, run)?;
    let mut checks = Vec::new(alloc);
    let jobs = run.jobs.as_slice();
    for (number, job) in jobs.iter().enumerate() {
        let its = found.job(run, number);
        check_job(&mut checks, job, its.statuses, lists)?;
    }
    Ok(checks)
}

/// Appends the expectations of the commands of a job that ended with these statuses.
fn check_job(
    checks: &mut Vec<Check>,
    job: &Job,
    statuses: Statuses,
    lists: &mut [&[Option<Status>]],
) -> Result<(), NoMemory>
    requires { IsForEach job.now.body statuses }
    ensures checks { OnOk result (checks.new.items
        ≡ checks.old.items ++ spec.checks_in (map (λ list. list.now) lists.old) job.now.host job.now.body statuses) }
    ensures left { OnOk result (map (λ list. list.now) lists.new
        ≡ spec.behind_body (map (λ list. list.now) lists.old) job.now.host job.now.body) }
{
    let host = job.host;
    match (&job.body, statuses) {
        (Body::Single(command), Statuses::One(status)) => {
            check_command(checks, host, command, status, lists)
        }
        (Body::Pair(compare, write), Statuses::Two(first, second)) => {
            check_command(checks, host, compare, first, lists)?;
            check_command(checks, host, write, second, lists)
        }
        _ => unreachable!("each command has a status"),
    }
}

/// Appends the expectation of a host's next command, if its list has one.
fn check_command(
    checks: &mut Vec<Check>,
    host: u16,
    command: &Command,
    actual: Status,
    lists: &mut [&[Option<Status>]],
) -> Result<(), NoMemory>
    ensures checks { OnOk result (checks.new.items
        ≡ checks.old.items ++ spec.check_of (spec.next_of (map (λ list. list.now) lists.old) host) host command.now actual) }
    ensures left { map (λ list. list.now) lists.new ≡ spec.behind_next (map (λ list. list.now) lists.old) host }
{
    let Some(expected) = take_next(lists, host) else {
        return Ok(());
    };
    checks.push(Check {
        host,
        cid: command.cid,
        op: command.op,
        expected,
        actual,
    })?;
    Ok(())
}

/// What the list of a host expects of its next command. The list goes on behind that.
fn take_next(lists: &mut [&[Option<Status>]], host: u16) -> Option<Status>
    ensures next { result ≡ spec.next_of (map (λ list. list.now) lists.old) host }
    ensures left { map (λ list. list.now) lists.new ≡ spec.behind_next (map (λ list. list.now) lists.old) host }
{
    let place = usize::from(host).saturating_sub(1);
    if place >= lists.len() {
        return None;
    }
    let list = lists[place];
    let Some((next, rest)) = list.split_first() else {
        return None;
    };
    lists[place] = rest;
    *next
}
