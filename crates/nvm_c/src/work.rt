//! What the ports of a namespace did, copied from their logs.
ghost use Rattle.std.specs.Prelude.{◌≡◌, ◌<◌, ◌≤◌, ◌++◌, ◌∷◌, [], Some, IfErr, IfOk, OnOk, length, map};
ghost use Rattle.nvm_c.specs.Opening.{engines_of};
ghost use Rattle.nvm_c.specs.Recorded.{AllHaveWorked, HasWorked, IsReason, Refuses, WorkedAt};

use crate::engine::Engine;
use crate::handle::Handle;
use crate::log::Numbering;
use crate::record_code::RecordCode;
use crate::sharing::share_reads;
use nvm_audit::DoneJob;
use nvm_geometry::Geometry;
use nvm_plan::{Job, Parts};
use nvm_record::NoMemory;
use nvm_store::Limit;
use std::alloc::Global;
use std::sync::Arc;

/// What the ports of a namespace did, copied, in the order of the ports.
#[derive(Drop)]
pub struct Work {
    pub(crate) geometry: Geometry,
    pub(crate) limit: Limit,
    /// The jobs of each port.
    pub(crate) jobs: Vec<Vec<Job>>,
    /// What each port did of each of its jobs, at the same place.
    pub(crate) done: Vec<Vec<DoneJob>>,
}

/// What all the ports did, copied.
pub(crate) fn work_of(alloc: Global, ports: &mut [Handle]) -> Result<Work, RecordCode>
    ensures same { engines_of ports.new ≡ engines_of ports.old }
    ensures some { OnOk result (0 < length ports.old) }
    ensures few { OnOk result (length ports.old ≤ 64) }
    ensures work { IfOk result (λ w. AllHaveWorked w.geometry w.limit (engines_of ports.old)
        (map (λ own. own.items) w.jobs.items) (map (λ did. did.items) w.done.items)) }
    ensures refused { IfErr result (λ code. IsReason code (engines_of ports.old)) }
{
    if ports.len() == 0 || ports.len() > 64 {
        return Err(RecordCode::OtherPorts);
    }
    match head_of(alloc, &mut ports[0]) {
        Ok(head) => all_work(alloc, &head, ports),
        Err(code) => Err(code),
    }
}

/// What all the ports did, which have so much in common.
fn all_work(alloc: Global, head: &Head, ports: &mut [Handle]) -> Result<Work, RecordCode>
    requires { length ports.old ≤ 64 }
    ensures same { engines_of ports.new ≡ engines_of ports.old }
    ensures work { IfOk result (λ w. AllHaveWorked w.geometry w.limit (engines_of ports.old)
        (map (λ own. own.items) w.jobs.items) (map (λ did. did.items) w.done.items)) }
    ensures refused { IfErr result (λ code. IsReason code (engines_of ports.old)) }
{
    if usize::from(head.numbering.ports) != ports.len() {
        return Err(RecordCode::OtherPorts);
    }
    let mut work = Work {
        geometry: head.geometry,
        limit: head.limit,
        jobs: Vec::new(alloc),
        done: Vec::new(alloc),
    };
    for place in 0..ports.len() {
        match port_work(alloc, head, place as u16, &mut ports[place]) {
            Ok((own, did)) => {
                let Ok(()) = work.add(own, did) else {
                    return Err(RecordCode::NoMemory);
                };
            }
            Err(code) => return Err(code),
        }
    }
    Ok(work)
}

impl Work {
    /// Adds what one more port did.
    fn add(&mut self, own: Vec<Job>, did: Vec<DoneJob>) -> Result<(), NoMemory>
        ensures jobs { OnOk result (self.new.jobs.items ≡ self.old.jobs.items ++ own ∷ []) }
        ensures done { OnOk result (self.new.done.items ≡ self.old.done.items ++ did ∷ []) }
        ensures geometry { self.new.geometry ≡ self.old.geometry }
        ensures limit { self.new.limit ≡ self.old.limit }
    {
        self.jobs.push(own)?;
        self.done.push(did)?;
        Ok(())
    }
}

/// What all ports of a namespace have in common.
#[derive(Drop)]
pub struct Head {
    geometry: Geometry,
    limit: Limit,
    numbering: Arc<Numbering, Global>,
}

/// What the port has in common with the others.
fn head_of(alloc: Global, port: &mut Handle) -> Result<Head, RecordCode>
    ensures same { port.new.held.engine ≡ port.old.held.engine }
    ensures refused { IfErr result (λ code. Refuses code port.old.held.engine) }
{
    let Some(engine) = port.take(alloc) else {
        return Err(RecordCode::NotOpen);
    };
    let head = engine.head();
    port.put(engine);
    head
}

/// The jobs of the port at this place, and what it did of each.
fn port_work(
    alloc: Global,
    head: &Head,
    place: u16,
    port: &mut Handle,
) -> Result<(Vec<Job>, Vec<DoneJob>), RecordCode>
    ensures same { port.new.held.engine ≡ port.old.held.engine }
    ensures work { IfOk result (λ w. WorkedAt head.now.geometry head.now.limit place port.old.held.engine w.0.items w.1.items) }
    ensures refused { IfErr result (λ code. Refuses code port.old.held.engine) }
{
    let Some(mut engine) = port.take(alloc) else {
        return Err(RecordCode::NotOpen);
    };
    engine.share_reads(alloc);
    let work = engine.work(alloc, head, place);
    port.put(engine);
    work
}

impl Engine {
    /// What it has in common with the other ports of its namespace.
    fn head(&self) -> Result<Head, RecordCode>
        ensures { IfErr result (λ code. Refuses code (Some self.now)) }
    {
        let Some(log) = &self.log else {
            return Err(RecordCode::NoRecord);
        };
        let Ok(numbering) = Arc::try_clone(&log.numbering) else {
            return Err(RecordCode::NoMemory);
        };
        let Some(recorded) = self.space.recorded() else {
            return Err(RecordCode::OtherPorts);
        };
        Ok(Head {
            geometry: recorded.geometry,
            limit: log.limit,
            numbering,
        })
    }

    /// Has what its Reads read shared, so that a copy of it takes no memory.
    fn share_reads(&mut self, alloc: Global)
        ensures { self.new ≡ self.old }
    {
        if let Some(log) = &mut self.log {
            share_reads(alloc, &mut log.done);
        }
    }

    /// Its jobs, and what it did of each, where it is the port at this place of the namespace.
    fn work(
        &self,
        alloc: Global,
        head: &Head,
        place: u16,
    ) -> Result<(Vec<Job>, Vec<DoneJob>), RecordCode>
        ensures work { IfOk result (λ w. HasWorked head.now.geometry head.now.limit place self.now w.0.items w.1.items) }
        ensures refused { IfErr result (λ code. Refuses code (Some self.now)) }
    {
        let Some(log) = &self.log else {
            return Err(RecordCode::NoRecord);
        };
        let Some(recorded) = self.space.recorded() else {
            return Err(RecordCode::OtherPorts);
        };
        if !head.numbering.is(&log.numbering)
            || self.port.number() != place
            || recorded.geometry != head.geometry
            || recorded.limit != head.limit
        {
            return Err(RecordCode::OtherPorts);
        }
        if log.full {
            return Err(RecordCode::RecordFull);
        }
        match &self.pending {
            Some(_) => return Err(RecordCode::Busy),
            None => {}
        }
        let Ok(jobs) = Vec::from_clones(alloc, &log.jobs) else {
            return Err(RecordCode::NoMemory);
        };
        let Ok(done) = copies(alloc, &log.done) else {
            return Err(RecordCode::NoMemory);
        };
        Ok((jobs, done))
    }
}

/// Copies of what was done.
fn copies(alloc: Global, done: &Vec<DoneJob>) -> Result<Vec<DoneJob>, NoMemory>
    ensures { IfOk result (λ all. all.items ≡ done.now.items) }
{
    let mut all = Vec::with_capacity(alloc, done.len())?;
    for i in 0..done.len() {
        let copy = copy_of(alloc, &done[i])?;
        all.push(copy)?;
    }
    Ok(all)
}

/// A copy of what was done of a job.
fn copy_of(alloc: Global, done: &DoneJob) -> Result<DoneJob, NoMemory>
    ensures { IfOk result (λ copy. copy ≡ done.now) }
{
    let parts = Parts::from_slice(alloc, done.parts.as_slice())?;
    let payload = done.payload.clone()?;
    Ok(DoneJob {
        job: done.job,
        parts,
        statuses: done.statuses,
        payload,
    })
}
