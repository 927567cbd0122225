//! Calls on commands, on the parts of one, on a unit and on ports.
ghost use Rattle.nvm_plan.specs.Fits.{FitsNamespace};

use crate::{generate, geometry, plan, record, space, store, unit};
use anyhow::{Context, Result, bail, ensure};
use nvm_geometry::Geometry;
use nvm_plan::{Body, Job, fits};
use nvm_record::{
    Block, BlockSize, Command, Completion, Op, Payload, ReadData, Status, completion_bytes,
    push_spelling,
};
use nvm_space::{Progress, Space};
use nvm_store::{ActRef, Answer, Limit, Place, UnitBlocks};
use nvm_unit::Unit;
use std::alloc::Global;
use std::sync::Wait;

/// Blocks of this byte.
fn filled(alloc: Global, byte: u8, blocks: u8) -> Result<Payload> {
    let bytes = vec![in alloc; byte; usize::from(blocks) * 512]?;
    Ok(Payload::new(alloc, bytes)?)
}

/// Whether just this data was read.
fn is_read(answer: &Answer, data: &Payload) -> bool {
    match answer {
        Answer::Payload(read) => read.as_slice() == data.as_slice(),
        Answer::Status(_) => false,
    }
}

/// No caller's: a completion, whose fields have their places by nvme/types.h of libnvme, and copies.
pub fn copied(rt: &(impl AllocGlobal + Print)) -> Result<()> {
    let alloc = rt.alloc();
    let data = filled(alloc, 0x41, 1)?;
    let block = Block::Bytes(data.share()?);
    let completion = Completion {
        host: 258,
        cid: 41394,
        status: Status { sct: 2, sc: 0x85 },
        payload: Some(ReadData::shared(data.share()?)),
    };
    println!(rt; "completion_bytes: {:?}", completion_bytes(&completion))?;
    let is_copied = completion.clone().is_ok() && block.clone().is_ok();
    println!(rt; "copied: {is_copied} {}", data.into_vec(alloc).is_ok())?;
    Ok(())
}

/// Of a Flush and the last job's command, as a host sends them.
pub fn taken(rt: &(impl AllocGlobal + Print), namespace: Geometry, jobs: &[Job]) -> Result<()> {
    let (alloc, size) = (rt.alloc(), namespace.block_size());
    let job = jobs.last().context("there is no job")?;
    let Body::Single(read) = &job.body else {
        bail!("the last job is a pair");
    };
    let flush = record::take_command(alloc, 3, &sent_behind_flush(alloc, read)?, size)?;
    println!(rt; "take_command: {:?} {:?}", flush.command.op, flush.flushed)?;
    let read = record::take_command(alloc, 3, &flush.rest, size)?;
    planned(rt, namespace, read.command, flush.command)?;
    let load = generate::load_without_pairs(alloc, namespace, 7, 30, 1)?;
    println!(rt; "load_without_pairs: {} jobs", load.len())?;
    Ok(())
}

/// What a host sends of a Flush and this command.
fn sent_behind_flush(alloc: Global, read: &Command) -> Result<Payload> {
    let mut flush = read.clone()?;
    flush.op = Op::Other(0);
    let mut sent = Vec::new(alloc);
    push_spelling(&mut sent, &flush)?;
    push_spelling(&mut sent, read)?;
    Ok(Payload::new(alloc, sent)?)
}

/// Of a command of each of two hosts.
fn planned(
    rt: &(impl AllocGlobal + Print),
    namespace: Geometry,
    of_host_1: Command,
    of_host_2: Command,
) -> Result<()> {
    let alloc = rt.alloc();
    let of_host_1 = vec![in alloc; of_host_1]?;
    let of_host_2 = vec![in alloc; of_host_2]?;
    for planned in plan::planned_jobs(alloc, &namespace, of_host_1, of_host_2)? {
        println!(rt; "planned_jobs: {} {:?}", planned.job.host, planned.plan)?;
    }
    Ok(())
}

/// Of a Write of LBAs 2 to 13, where the first boundary is at LBA 4.
pub fn cut(rt: &(impl AllocGlobal + Print)) -> Result<()> {
    let alloc = rt.alloc();
    let namespace = Geometry::new(32, 512, 7, 4, 7, 3)?;
    let data = filled(alloc, 0x41, 12)?;
    let is_whole = data.len() == 12 * namespace.block_size().bytes() as usize;
    ensure!(
        is_whole && namespace.in_range(2, 12),
        "the Write can't be cut"
    );
    for part in geometry::write_parts(alloc, namespace, 2, 12, &data)? {
        println!(rt; "write_parts: {:?}, {}", part.piece, part.payload.len())?;
    }
    Ok(())
}

/// Of the blocks of a unit from LBA 8 on.
pub fn stored(rt: &(impl AllocGlobal + Print)) -> Result<()> {
    let alloc = rt.alloc();
    let (zeroes, data) = (filled(alloc, 0, 2)?, filled(alloc, 0x41, 2)?);
    let unit = UnitBlocks::zeroed(alloc, 8, 8, BlockSize::BYTES_512)?;
    let pair = ActRef::Pair {
        first: 9,
        blocks: 2,
        compare: zeroes.lend(),
        write: data.lend(),
    };
    ensure!(unit.covers(pair), "the pair lies elsewhere");
    let done = store::pair_and_read(alloc, &unit, 9, 2, &zeroes, &data)?;
    let is_read = is_read(&done.read, &data);
    println!(rt; "pair_and_read: {:?} {is_read}", done.statuses)?;
    Ok(())
}

/// Of a new unit from LBA 8 on, and its only pass.
pub fn written(rt: &(impl AllocGlobal + Print + Wait), limit: Limit) -> Result<()> {
    let alloc = rt.alloc();
    let data = filled(alloc, 0x41, 2)?;
    let place = Place {
        first: 8,
        blocks: 8,
        size: BlockSize::BYTES_512,
    };
    let (unit, mut passes) = Unit::new(alloc, 1, place, 1, limit)?;
    let act = ActRef::Write {
        first: 9,
        blocks: 2,
        payload: data.lend(),
    };
    ensure!(unit.covers(act), "the Write lies elsewhere");
    let done = unit::write_and_read(rt, alloc, &unit, &mut passes[0], 0, 9, 2, &data);
    let read = done.read.ok().context("there was no memory")?;
    let is_read = is_read(&read.clone()?.answer, &data);
    println!(rt; "write_and_read: {:?} {is_read}", done.write)?;
    let is_opened = Unit::unrecorded(alloc, 1, place, 1, true).is_ok();
    println!(rt; "unrecorded: {is_opened}")?;
    Ok(())
}

/// Of the first job, a Write of LBAs 6 to 9 in two units, which one port runs and then another polls.
pub fn polled(
    rt: &(impl AllocGlobal + Print + Wait),
    namespace: Geometry,
    limit: Limit,
    jobs: &[Job],
) -> Result<()> {
    let alloc = rt.alloc();
    let job = jobs.first().context("there is no job")?;
    ensure!(fits(&namespace.large(), job), "the job doesn't fit");
    run_alone(rt, namespace, limit, job)?;
    let (space, mut ports) = Space::new(alloc, namespace, 1, limit)?;
    let begun = space.begin_job(alloc, 0, job);
    let Progress::Done(done) = space::poll_turn(alloc, &space, &mut ports[0], job, begun) else {
        bail!("another port changes a unit");
    };
    println!(rt; "poll_turn: {done:?}")?;
    Ok(())
}

fn run_alone(
    rt: &(impl AllocGlobal + Print + Wait),
    namespace: Geometry,
    limit: Limit,
    job: &Job,
) -> Result<()>
    requires { FitsNamespace namespace job.now }
{
    let alone = space::job_alone(rt, rt.alloc(), namespace, limit, job)?;
    println!(rt; "job_alone: {:?}", alone.done)?;
    println!(rt; "job_alone: {} units", alone.histories.len())?;
    Ok(())
}
