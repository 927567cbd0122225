ghost use Rattle.std.specs.Prelude.{◌≡◌, ◌<◌, ◌^◌, min, length, map, IfOk};
ghost use Rattle.std.specs.List.{enumerate_from, sum_by};
ghost use Rattle.nvm_plan.specs.Jobs.{IsJobList};

use crate::job::Job;
use crate::pairing::next_body;
use nvm_record::{Command, NoMemory};
use std::alloc::Global;
use std::collections::VecDeque;

/// A host that waits for its turn.
#[derive(Drop)]
struct Waiting {
    /// The number of the host, from 1.
    host: u16,
    /// Its commands that no job has yet.
    commands: VecDeque<Command>,
}

/// The jobs of the hosts' commands, in the order in which one worker does them. Two neighbours of one host that
/// are a fused pair are one job (Base Specification, "Fused Operation"), and every other command is a job by
/// itself. One job of each host comes in turn, hosts in their order, the first being host 1; a host without a
/// job left is skipped.
///
/// There are fewer than 65,536 hosts, since a job has its host's number in 16 bits. The lists are used up, so
/// that no data is copied. `NoMemory` is answered where a growth was refused.
pub fn jobs(alloc: Global, hosts: Vec<Vec<Command>>) -> Result<Vec<Job>, NoMemory>
    requires { length hosts.items < 2 ^ 16 }
    ensures { IfOk result (λ jobs. IsJobList (map (λ commands. commands.items) hosts.items) jobs.items) }
{
    let most = commands_in(&hosts);
    let mut waiting = numbered(alloc, hosts)?;
    let mut jobs = Vec::with_capacity(alloc, most)?;
    while let Some(mut next) = waiting.pop_front() {
        if let Some(body) = next_body(&mut next.commands) {
            jobs.push(Job {
                host: next.host,
                body,
            })?;
            waiting.push_back(next)?;
        }
    }
    Ok(jobs)
}

/// The hosts in their order, numbered from 1.
fn numbered(alloc: Global, hosts: Vec<Vec<Command>>) -> Result<VecDeque<Waiting>, NoMemory>
    requires { length hosts.items < 2 ^ 16 }
    ensures { IfOk result (λ q. map (λ w. (w.host, w.commands.items)) q.items
        ≡ enumerate_from 1 (map (λ commands. commands.items) hosts.items)) }
{
    let mut waiting = VecDeque::with_capacity(alloc, hosts.len())?;
    for (place, commands) in hosts.into_iter().enumerate() {
        waiting.push_back(Waiting {
            host: place as u16 + 1,
            commands: VecDeque::from_vec(commands),
        })?;
    }
    Ok(waiting)
}

/// How many commands there are, which is the most jobs that they can be.
fn commands_in(hosts: &[Vec<Command>]) -> usize
    ensures { result ≡ min (sum_by (λ commands. length commands.items) hosts.now) usize.MAX }
{
    let mut commands: usize = 0;
    for host in hosts {
        commands = commands.saturating_add(host.len());
    }
    commands
}
