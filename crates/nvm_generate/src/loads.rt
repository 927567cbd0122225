ghost use Rattle.std.specs.Prelude.{◌≡◌, ℕ, List, Ok, IfOk, length, string_bytes};
ghost use Rattle.std.specs.List.{flat_map};
ghost use Rattle.nvm_list.specs.Lists.{commands};
ghost use Rattle.nvm_plan.specs.Jobs.{commands_of};
ghost use Rattle.nvm_plan.specs.declared.job.Body.{Body as Asked};
ghost use Rattle.nvm_generate.specs.Load.{AreJobsOfLoad};

use crate::asking::{Asking, next_job};
use crate::load::Load;
use nvm_list::list;
use nvm_plan::Body;
use nvm_plan::laws::ready_jobs;
use nvm_record::{Command, NoMemory};
use std::alloc::Global;

/// The jobs that a host of a load is to ask for, in their order. Hosts count from 1; `fits` of nvm_plan takes 1 to 64.
///
/// `NoMemory`: nothing was made.
pub fn jobs_of_load(alloc: Global, load: &Load, host: u8) -> Result<Vec<Body>, NoMemory>
    ensures { IfOk result (λ jobs. AreJobsOfLoad load.now host jobs.items) }
{
    ready_jobs();
    let mut asking = Asking::new(load.seed, host);
    let mut jobs = Vec::with_capacity(alloc, load.commands as usize)?;
    let mut before = 0;
    while before < load.commands {
        let job = next_job(alloc, load, host, before, &mut asking)?;
        before += count_of(&job);
        jobs.push(job)?;
    }
    Ok(jobs)
}

/// The list of a host of a load, whose jobs are held meanwhile, with all their data. Hosts count from 1; `fits` of nvm_plan takes 1 to
/// 64.
///
/// `NoMemory`: nothing was made.
pub fn list_of_load(alloc: Global, load: &Load, host: u8) -> Result<String, NoMemory>
    // It is read as the commands of exactly such jobs.
    ensures { IfOk result (λ text. (jobs : List Asked) × AreJobsOfLoad load.now host jobs
        × (commands load.now.geometry.block_size (string_bytes text) ≡ Ok (flat_map commands_of jobs))) }
{
    // A block has one of two sizes, in which the list is read.
    let _size = load.geometry.block_size();
    let jobs = jobs_of_load(alloc, load, host)?;
    let commands = commands_of_jobs(alloc, jobs, load.commands as usize)?;
    list(alloc, &commands)
}

/// How many commands a job has.
fn count_of(job: &Body) -> u16
    ensures { result ≡ length (commands_of job.now) }
{
    match job {
        Body::Single(_) => 1,
        Body::Pair(_, _) => 2,
    }
}

/// The commands of jobs, in their order. Room is taken for `count`.
fn commands_of_jobs(alloc: Global, jobs: Vec<Body>, count: usize) -> Result<Vec<Command>, NoMemory>
    ensures { IfOk result (λ listed. listed.items ≡ flat_map commands_of jobs.items) }
{
    let mut commands = Vec::with_capacity(alloc, count)?;
    for job in jobs {
        match job {
            Body::Single(command) => commands.push(command)?,
            Body::Pair(first, second) => {
                commands.push(first)?;
                commands.push(second)?;
            }
        }
    }
    Ok(commands)
}
