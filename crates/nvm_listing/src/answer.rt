//! What the hosts of a run were answered, command by command.
ghost use Rattle.std.specs.Prelude.{◌≡◌, [], ◌∷◌, ◌++◌, IfOk, OnOk, map, option_map};
ghost use Rattle.nvm_audit.specs.LawfulRecord.{IsLawfulRecord};
ghost use Rattle.nvm_plan.specs.Shape.{IsForEach};
ghost use Rattle.nvm_listing.specs.Answers.{AreAnswersOf, answer_of, answer_with, job_answers};

use nvm_audit::{DoneJob, DoneJobs, Record};
use nvm_plan::{Body, Job};
use nvm_record::{Command, NoMemory, ReadData, Status, Statuses};
use std::alloc::Global;

/// A command, and what its host was answered.
#[derive(Clone, Copy, Debug)]
pub struct Answer<'a> {
    /// The host's number, from 1.
    pub host: u16,
    pub command: &'a Command,
    pub status: Status,
    /// The data of a Read that succeeded.
    pub answered: Option<&'a ReadData>,
}

/// The answer of each command of a run's record, in the order of the jobs and not in that of the workers: a pair's first command is
/// before the second. It goes over the record once.
///
/// `NoMemory` is answered where a growth was refused.
pub fn answers<'a>(alloc: Global, run: &'a Record) -> Result<Vec<Answer<'a>>, NoMemory>
    requires { IsLawfulRecord run.now }
    ensures { IfOk result (λ answers. AreAnswersOf run.now (map answer_of answers.items)) }
{
    let found = DoneJobs::of(alloc, run)?;
    let mut answers = Vec::new(alloc);
    let jobs = run.jobs.as_slice();
    for (number, job) in jobs.iter().enumerate() {
        let its = found.job(run, number);
        push_answers(&mut answers, job, its)?;
    }
    Ok(answers)
}

/// Appends the answers of a job's commands, by what was done.
fn push_answers<'a>(
    answers: &mut Vec<Answer<'a>>,
    job: &'a Job,
    its: &'a DoneJob,
) -> Result<(), NoMemory>
    requires { IsForEach job.now.body its.now.statuses }
    ensures { OnOk result (map answer_of answers.new.items ≡ map answer_of answers.old.items ++ job_answers job.now its.now) }
{
    let host = job.host;
    match (&job.body, its.statuses) {
        (Body::Single(command), Statuses::One(status)) => {
            let answered = its.payload.as_ref();
            push_answer(answers, host, command, status, answered)
        }
        (Body::Pair(compare, write), Statuses::Two(first, second)) => {
            push_answer(answers, host, compare, first, None)?;
            push_answer(answers, host, write, second, None)
        }
        _ => unreachable!("each command has a status"),
    }
}

/// Appends the answer of a host's command.
fn push_answer<'a>(
    answers: &mut Vec<Answer<'a>>,
    host: u16,
    command: &'a Command,
    status: Status,
    answered: Option<&'a ReadData>,
) -> Result<(), NoMemory>
    ensures { OnOk result (map answer_of answers.new.items ≡ map answer_of answers.old.items
        ++ answer_with host command.now status (option_map (λ read. read.now) answered.entry) ∷ []) }
{
    answers.push(Answer {
        host,
        command,
        status,
        answered,
    })?;
    Ok(())
}
