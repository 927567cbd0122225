ghost use Rattle.std.specs.Prelude.{◌≡◌};
ghost use Rattle.nvm_plan.specs.Completions as spec;

use crate::job::{Body, Job};
use nvm_record::{Command, Completion, ReadData, Status, Statuses};

/// What is reported to a host about a job: a completion for each of its commands.
#[derive(Debug, PartialEq, Eq, Drop)]
pub enum Completions {
    /// The completion of a command by itself.
    One(Completion),
    /// The first command's, then the second's.
    Two(Completion, Completion),
}

impl Completions {
    ghost use Rattle.nvm_plan.specs.Completions.{completions_of};
    ghost use Rattle.nvm_plan.specs.Shape.{IsForEach};

    /// The completions of a job that ended with these statuses, one for each of its commands, and this data. A
    /// command by itself has the data, the commands of a pair have none. It takes no memory.
    #[inline(always)]
    pub fn of(job: &Job, statuses: Statuses, payload: Option<ReadData>) -> Completions
        requires { IsForEach job.now.body statuses }
        ensures { result ≡ completions_of job.now statuses payload }
    {
        match (&job.body, statuses) {
            (Body::Single(command), Statuses::One(status)) => {
                Completions::One(completion(job.host, command, status, payload))
            }
            (Body::Pair(compare, write), Statuses::Two(first, second)) => Completions::Two(
                completion(job.host, compare, first, None),
                completion(job.host, write, second, None),
            ),
            _ => unreachable!("each command has a status"),
        }
    }
}

/// What is reported to the host about its command.
fn completion(host: u16, command: &Command, status: Status, payload: Option<ReadData>) -> Completion
    ensures { result ≡ spec.completion host command.now status payload }
{
    Completion {
        host,
        cid: command.cid,
        status,
        payload,
    }
}
