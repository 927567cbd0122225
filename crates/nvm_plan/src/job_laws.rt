//! What holds of jobs and their order by the definitions alone. Each law is a call that does nothing and
//! whose contract is the law.

ghost use Rattle.std.specs.Prelude.{◌≡◌, ℕ, ◌+◌, ◌*◌, ◌≤◌, List, length};
ghost use Rattle.std.specs.List.{All, sum_by};
ghost use Rattle.nvm_record.specs.Entry.{IsWhole};
ghost use Rattle.nvm_record.specs.Lists.{IsAt};
ghost use Rattle.nvm_record.specs.declared.command.Command.{Command};
ghost use Rattle.nvm_plan.specs.declared.job.Body.{Body};
ghost use Rattle.nvm_plan.specs.declared.job.Job.{Job};
ghost use Rattle.nvm_geometry.specs.Namespace.{Namespace};
ghost use Rattle.nvm_plan.specs.Fits.{most_hosts, FitsNamespace};
ghost use Rattle.nvm_plan.specs.Jobs.{commands_of, IsPairing, IsJobOf, IsJobList, IsOfHosts};

/// The commands of a host are paired in one way, and no other.
pub fn one_pairing()
    ensures some { (commands : List Command) → (bodies : List Body) × IsPairing commands bodies }
    ensures alone { (commands : List Command) (xs ys : List Body) → IsPairing commands xs → IsPairing commands ys
        → xs ≡ ys }
{}

/// The commands of the hosts have one list of jobs, and no other.
pub fn one_job_list()
    ensures some { (hosts : List (List Command)) → (jobs : List Job) × IsJobList hosts jobs }
    ensures alone { (hosts : List (List Command)) (xs ys : List Job) → IsJobList hosts xs → IsJobList hosts ys
        → xs ≡ ys }
{}

/// There are no more jobs than commands. So 64 hosts of 65,536 commands at most have 4,194,304 jobs at most.
pub fn no_more_jobs_than_commands()
    ensures jobs { (hosts : List (List Command)) (jobs : List Job) → IsJobList hosts jobs
        → length jobs ≤ sum_by length hosts }
    ensures most { (hosts : List (List Command)) (jobs : List Job) (most : ℕ)
        → All (λ commands. length commands ≤ most) hosts → IsJobList hosts jobs → length jobs ≤ length hosts * most }
{}

/// Each job of each host is in the list, at one place.
pub fn each_job_stands_once()
    ensures somewhere { (hosts : List (List Command)) (jobs : List Job) (place : ℕ) (commands : List Command)
        (bodies : List Body) (number : ℕ) (body : Body)
        → IsJobList hosts jobs → IsAt hosts place commands → IsPairing commands bodies
        → IsAt bodies number body
        → (there : ℕ) × IsJobOf (place + 1) number jobs there
        × IsAt jobs there (record { host = place + 1; body = body }) }
    ensures once { (hosts : List (List Command)) (jobs : List Job) (host number here there : ℕ)
        → IsJobList hosts jobs → IsJobOf host number jobs here → IsJobOf host number jobs there → here ≡ there }
{}

/// Each job is of one of the hosts, and its commands are among that host's. So what holds of all commands
/// holds of those of the jobs, such as that they have the data that they call for.
pub fn jobs_are_of_their_hosts()
    ensures hosts { (hosts : List (List Command)) (jobs : List Job) → IsJobList hosts jobs → All (IsOfHosts hosts) jobs }
    ensures whole { (size : ℕ) (hosts : List (List Command)) (jobs : List Job)
        → All (λ commands. All (IsWhole size) commands) hosts → IsJobList hosts jobs
        → All (λ job. All (IsWhole size) (commands_of job.body)) jobs }
{}

/// Where there are at most 64 hosts, and their commands have exactly the data that they call for and proper opcodes,
/// as those that `read_host` reads have, each job fits.
pub fn jobs_fit()
    ensures { (ns : Namespace) (hosts : List (List Command)) (jobs : List Job) → length hosts ≤ most_hosts
        → All (λ commands. All (IsWhole ns.block_size) commands) hosts → IsJobList hosts jobs
        → All (FitsNamespace ns) jobs }
{}
