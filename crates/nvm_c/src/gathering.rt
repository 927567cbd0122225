//! From what the ports did to the record of it.
ghost use Rattle.std.specs.Prelude.{◌≡◌, ◌<◌, ◌≤◌, ℕ, List, Some, All, IfOk, IfSome, IsTrue, OnOk, length, map};
ghost use Rattle.nvm_record.specs.Lists.{IsAt};
ghost use Rattle.nvm_geometry.specs.Boundaries.{units_of};
ghost use Rattle.nvm_plan.specs.Fits.{FitsNamespace};
ghost use Rattle.nvm_plan.specs.Operation.{operation_of_body};
ghost use Rattle.nvm_plan.specs.Shape.{IsForEach};
ghost use Rattle.nvm_plan.specs.declared.job.Job.{Job as Asked};
ghost use Rattle.nvm_audit.specs.Recordable.{most_jobs, HoldsBody, IsLongAsRead};
ghost use Rattle.nvm_audit.specs.declared.version.Version.TheVariants.{Two};
ghost use Rattle.nvm_file.specs.DoneReading as reading;
ghost use Rattle.nvm_c.specs.Inside.Gathering.{CanHold, CanHoldWork, HoldsFor, IsGathered};
ghost use Rattle.nvm_c.specs.Recorded.{IsSomebodys};

use crate::gather_fault::GatherFault;
use crate::histories::histories;
use crate::work::Work;
use nvm_audit::laws::what_jobs_make_can_be_held;
use nvm_audit::{DoneJob, MOST_JOBS, Record, Version};
use nvm_geometry::Geometry;
use nvm_geometry::laws::each_unit_has_one_place;
use nvm_plan::{Body, Job, Part, Plan, fits, plan};
use nvm_record::{NoMemory, Op, ReadData, Statuses};
use std::alloc::Global;

/// The record of what the ports did.
pub(crate) fn record_of(alloc: Global, work: Work) -> Result<Record, GatherFault>
    requires some { 0 < length work.done.items }
    requires few { length work.done.items ≤ 64 }
    ensures { IfOk result (IsGathered work.geometry work.limit (map (λ own. own.items) work.jobs.items)
        (map (λ did. did.items) work.done.items)) }
{
    what_jobs_make_can_be_held();
    each_unit_has_one_place();
    // For the proof alone: that the geometry and the limit are sound.
    let _nsze = work.geometry.nsze();
    let _entries = work.limit.entries();
    let Work {
        geometry,
        limit,
        jobs,
        done,
    } = work;
    let jobs = jobs_in_order(alloc, geometry, &jobs, &done)?;
    let units = histories(alloc, geometry, limit, &jobs, &done)?;
    if !can_be_held(geometry, &jobs, &done) {
        return Err(GatherFault::Unlawful);
    }
    Ok(Record {
        version: Version::Two,
        geometry,
        limit,
        workers: done.len() as u16,
        jobs,
        units,
        done,
    })
}

/// Where a job stands: which port did it, and at which place.
#[derive(Clone, Copy)]
pub struct Spot {
    port: usize,
    place: usize,
}

/// The jobs of all ports, each at the place of its number.
fn jobs_in_order(
    alloc: Global,
    geometry: Geometry,
    jobs: &Vec<Vec<Job>>,
    done: &Vec<Vec<DoneJob>>,
) -> Result<Vec<Job>, GatherFault>
    ensures each { IfOk result (λ ordered. (number : ℕ) (job : Asked) → IsAt ordered.items number job
        → IsSomebodys (map (λ own. own.items) jobs.now.items) (map (λ did. did.items) done.now.items) number job) }
    ensures few { IfOk result (λ ordered. length ordered.items ≤ most_jobs) }
    ensures fit { IfOk result (λ ordered. All (FitsNamespace geometry) ordered.items) }
    ensures known { IfOk result (λ ordered. All (λ job. HoldsBody Two job.body) ordered.items) }
{
    let spots = spots_of(alloc, done)?;
    if spots.len() > MOST_JOBS as usize {
        return Err(GatherFault::Unlawful);
    }
    let mut ordered = Vec::with_capacity(alloc, spots.len())?;
    for number in 0..spots.len() {
        let Some(job) = job_at(geometry, jobs, done, spots[number], number as u32) else {
            return Err(GatherFault::Unlawful);
        };
        let copy = job.clone()?;
        ordered.push(copy)?;
    }
    if ordered.len() > MOST_JOBS as usize {
        return Err(GatherFault::Unlawful);
    }
    Ok(ordered)
}

/// The job that stands there, if it has this number and a record can hold it.
fn job_at<'a>(
    geometry: Geometry,
    jobs: &'a Vec<Vec<Job>>,
    done: &Vec<Vec<DoneJob>>,
    spot: Spot,
    number: u32,
) -> Option<&'a Job>
    ensures its { IfSome result (λ job. IsSomebodys (map (λ own. own.items) jobs.now.items) (map (λ did. did.items) done.now.items)
        number job.now) }
    ensures fits { IfSome result (λ job. FitsNamespace geometry job.now) }
    ensures known { IfSome result (λ job. HoldsBody Two job.now.body) }
{
    if spot.port >= done.len() || spot.port >= jobs.len() {
        return None;
    }
    let did = &done[spot.port];
    let own = &jobs[spot.port];
    if spot.place >= did.len() || spot.place >= own.len() {
        return None;
    }
    let one = &did[spot.place];
    let job = &own[spot.place];
    if !has_number(one, number) {
        return None;
    }
    if !fits(&geometry.large(), job) || !Version::Two.holds(&job.body) {
        return None;
    }
    Some(job)
}

/// Whether it was done of the job of this number.
fn has_number(did: &DoneJob, number: u32) -> bool
    ensures { IsTrue result → did.now.job ≡ number }
{
    did.job == number
}

/// Where the job of each number stands.
fn spots_of(alloc: Global, done: &Vec<Vec<DoneJob>>) -> Result<Vec<Spot>, NoMemory> {
    let mut total: usize = 0;
    for work in done {
        total = total.saturating_add(work.len());
    }
    let mut spots = Vec::from_elem(alloc, Spot { port: 0, place: 0 }, total)?;
    for (port, work) in done.iter().enumerate() {
        for (place, did) in work.iter().enumerate() {
            let number = did.job as usize;
            if number < spots.len() {
                spots[number] = Spot { port, place };
            }
        }
    }
    Ok(spots)
}

/// Whether a record can hold what each port did.
fn can_be_held(geometry: Geometry, jobs: &Vec<Job>, done: &Vec<Vec<DoneJob>>) -> bool
    ensures { IsTrue result → All (CanHoldWork geometry jobs.now.items) (map (λ did. did.items) done.now.items) }
{
    for i in 0..done.len() {
        if !work_can_be_held(geometry, jobs, &done[i]) {
            return false;
        }
    }
    true
}

/// Whether a record can hold what a port did.
fn work_can_be_held(geometry: Geometry, jobs: &Vec<Job>, work: &Vec<DoneJob>) -> bool
    ensures { IsTrue result → CanHoldWork geometry jobs.now.items work.now.items }
{
    if work.len() > MOST_JOBS as usize {
        return false;
    }
    for i in 0..work.len() {
        if !done_can_be_held(geometry, jobs, &work[i]) {
            return false;
        }
    }
    true
}

/// Whether a record can hold what was done of a job.
fn done_can_be_held(geometry: Geometry, jobs: &Vec<Job>, did: &DoneJob) -> bool
    ensures { IsTrue result → CanHold geometry jobs.now.items did.now }
{
    match job_of(jobs, did) {
        Some(job) => deeds_can_be_held(geometry, job, did),
        None => false,
    }
}

/// The job of which it was done.
fn job_of<'a>(jobs: &'a Vec<Job>, did: &DoneJob) -> Option<&'a Job>
    ensures { IfSome result (λ job. IsAt jobs.now.items did.now.job job.now) }
{
    if did.job as usize >= jobs.len() {
        return None;
    }
    Some(&jobs[did.job as usize])
}

/// Whether a record can hold what was done of this job.
fn deeds_can_be_held(geometry: Geometry, job: &Job, did: &DoneJob) -> bool
    ensures { IsTrue result → HoldsFor geometry job.now did.now }
{
    if did.parts.len() > usize::from(geometry.units()) {
        return false;
    }
    if !lie_in_units(geometry, did.parts.as_slice()) {
        return false;
    }
    if !are_for_each(&job.body, did.statuses) {
        return false;
    }
    is_as_long(geometry, job, &did.payload)
}

/// Whether each part is in a unit of the namespace.
fn lie_in_units(geometry: Geometry, parts: &[Part]) -> bool
    ensures { IsTrue result → All (λ part. part.unit < units_of geometry) parts.now }
{
    for part in parts {
        if part.unit >= geometry.units() {
            return false;
        }
    }
    true
}

/// Whether there is a status for each command.
fn are_for_each(body: &Body, statuses: Statuses) -> bool
    ensures { IsTrue result → IsForEach body.now statuses }
{
    match (body, statuses) {
        (Body::Single(_), Statuses::One(_)) => true,
        (Body::Pair(_, _), Statuses::Two(_, _)) => true,
        _ => false,
    }
}

/// Whether the data, if there is any, is that of a Read which no check refuses, as long as its blocks.
fn is_as_long(geometry: Geometry, job: &Job, payload: &Option<ReadData>) -> bool
    ensures { IsTrue result → (bytes : List ℕ) → payload.now ≡ Some bytes → IsLongAsRead geometry job.now bytes }
{
    match payload {
        Some(data) => is_whole_answer(geometry, job, data),
        None => true,
    }
}

/// Whether the data is that of a Read which no check refuses, as long as its blocks.
fn is_whole_answer(geometry: Geometry, job: &Job, data: &ReadData) -> bool
    ensures { IsTrue result → IsLongAsRead geometry job.now «data».now }
{
    match answer_length(geometry, job) {
        Some(length) => length == data.len(),
        None => false,
    }
}

/// How many bytes the job is answered, where it is a Read by itself that no check refuses.
#[tactic(auto, unfolding(nvm_file::specs::DoneReading::answer_length))]
fn answer_length(geometry: Geometry, job: &Job) -> Option<usize>
    ensures { result ≡ reading.answer_length geometry job.now }
{
    match plan(&geometry, job) {
        Plan::Ready => read_length(geometry, &job.body),
        Plan::Refused(_) => None,
    }
}

/// How many bytes are answered, where it is a Read.
fn read_length(geometry: Geometry, body: &Body) -> Option<usize>
    ensures { result ≡ reading.read_length geometry.block_size (operation_of_body geometry body.now) }
{
    match body {
        Body::Single(command) if command.op == Op::Read => {
            Some((usize::from(command.nlb) + 1) * geometry.block_size().bytes() as usize)
        }
        _ => None,
    }
}
