//! All workers of a run, each on a thread of its own where one can be made.
ghost use Rattle.std.specs.Prelude.{◌≡◌, [], All, IfOk, length, map, replicate, true};
ghost use Rattle.std.specs.List.{zip};
ghost use Rattle.nvm_plan.specs.Fits.{FitsNamespace};
ghost use Rattle.nvm_space.specs.Ports.{AreAllPortsOf, IsPortOf, new_ports};
ghost use Rattle.nvm_engine.specs.Counters.{new_claim};
ghost use Rattle.nvm_engine.specs.Inside.Working.{HasWorked, AreOfResults, AreOfWorkers};

use crate::claim::Claim;
use crate::counter::Counter;
use crate::worker::{Worker, work};
use nvm_audit::DoneJob;
use nvm_plan::Job;
use nvm_record::NoMemory;
use nvm_space::{Port, Space};
use nvm_unit::Gate;
use std::alloc::Global;
use std::sync::Wait;
use std::thread::{Threads, map_vec};

/// What all workers bring back: their claims, their ports and what each did, in the order of the workers.
pub(crate) type Brought = (Vec<Claim>, Vec<Port>, Vec<Vec<DoneJob>>);

/// Has a worker for each claim and port do jobs until none is left. Each has ended when this returns, with an error too.
pub(crate) fn all_work<R: Threads + Wait + Sync, G: Gate + Sync>(
    rt: &R,
    alloc: Global,
    counter: &Counter,
    space: &Space,
    jobs: &[Job],
    claims: Vec<Claim>,
    ports: Vec<Port>,
    gate: &G,
) -> Result<Brought, NoMemory>
    requires claims { claims.items ≡ replicate space.now.ports (new_claim counter.now.table) }
    requires ports { ports.items ≡ new_ports space.now }
    requires all { AreAllPortsOf space.now ports.items }
    requires lists { space.now.lists ≡ true }
    requires jobs { counter.now.jobs ≡ length jobs.now }
    requires fit { All (FitsNamespace space.now.namespace) jobs.now }
    ensures { IfOk result (λ b. AreOfWorkers counter.now space.now jobs.now b.0.items b.1.items
        (map (λ work. work.items) b.2.items)) }
{
    let given = paired(alloc, claims, ports)?;
    let results = map_vec(
        rt,
        given,
        &|given: (Claim, Port)| -> Result<Worker, NoMemory>
            requires claim { given.0.table ≡ counter.now.table }
            requires new { given.0.drawn ≡ [] }
            requires jobs { counter.now.jobs ≡ length jobs.now }
            requires of { IsPortOf space.now given.1 }
            requires lists { space.now.lists ≡ true }
            requires fit { All (FitsNamespace space.now.namespace) jobs.now }
            ensures { IfOk result (HasWorked counter.entry.now space.entry.now jobs.entry.now given.1) }
        {
            let (claim, port) = given;
            work(rt, alloc, counter, space, jobs, claim, port, gate)
        },
    )?;
    parted(alloc, results)
}

/// A claim and a port for each worker.
fn paired(
    alloc: Global,
    claims: Vec<Claim>,
    ports: Vec<Port>,
) -> Result<Vec<(Claim, Port)>, NoMemory>
    ensures { IfOk result (λ pairs. pairs.items ≡ zip claims.items ports.items) }
{
    claims.into_iter().zip(ports).collect(alloc)
}

/// What the workers brought back, each kind in a list of its own, unless one of them found no memory.
fn parted(alloc: Global, results: Vec<Result<Worker, NoMemory>>) -> Result<Brought, NoMemory>
    ensures { IfOk result (λ b. AreOfResults results.items b.0.items b.1.items (map (λ work. work.items) b.2.items)) }
{
    let mut claims = Vec::with_capacity(alloc, results.len())?;
    let mut ports = Vec::with_capacity(alloc, results.len())?;
    let mut done = Vec::with_capacity(alloc, results.len())?;
    for result in results {
        let worker = result?;
        claims.push(worker.claim)?;
        ports.push(worker.port)?;
        done.push(worker.done)?;
    }
    Ok((claims, ports, done))
}
