//! Calls of one port.
ghost use Rattle.std.specs.Prelude.{◌≡◌};
ghost use Rattle.nvm_plan.specs.Fits.{FitsNamespace};
ghost use Rattle.nvm_space.specs.Ports.{IsPortOf};

use crate::cut;
use crate::job::{NUMBER, job};
use nvm_plan::{Completions, Job, fits};
use nvm_record::{ReadData, Statuses};
use nvm_space::{JobDone, Port, Progress, ReadAnswer, ReadNow, Space};
use nvm_text::{RunsText, StatusText, StatusesText};
use nvm_unit::{Count, Open};
use std::alloc::Global;
use std::io;
use std::sync::Wait;

/// Tells what the call of a port answers.
pub fn called<R: AllocGlobal + Print + Wait>(
    rt: &R,
    space: &Space<Count>,
    port: &mut Port<Count>,
    call: &str,
    of: &str,
) -> io::Result<()>
    requires { IsPortOf space.now port.old }
    ensures of { IsPortOf space.now port.new }
    ensures number { port.new.number ≡ port.old.number }
{
    match call {
        "refresh" => refreshed(rt, space, port, of),
        "now" => read(rt, space, port, of),
        _ => worked(rt, space, port, call, of),
    }
}

fn refreshed<R: Print + Wait>(
    rt: &R,
    space: &Space<Count>,
    port: &mut Port<Count>,
    unit: &str,
) -> io::Result<()>
    requires { IsPortOf space.now port.old }
    ensures of { IsPortOf space.now port.new }
    ensures number { port.new.number ≡ port.old.number }
{
    let Ok(unit) = unit.parse::<u16>() else {
        return rt.println("unread");
    };
    if unit >= space.regions().count() {
        return rt.println("unread");
    }
    space.refresh(rt, port, unit);
    rt.println("refreshed")
}

/// Tells what a Read is answered that never waits.
fn read<R: AllocGlobal + Print>(
    rt: &R,
    space: &Space<Count>,
    port: &mut Port<Count>,
    of: &str,
) -> io::Result<()>
    requires { IsPortOf space.now port.old }
    ensures of { IsPortOf space.now port.new }
    ensures number { port.new.number ≡ port.old.number }
{
    let (slba, blocks) = cut(of);
    let Ok(slba) = slba.parse::<u64>() else {
        return rt.println("unread");
    };
    let Ok(blocks) = blocks.parse::<u32>() else {
        return rt.println("unread");
    };
    if blocks == 0 || !space.versions() {
        return rt.println("unread");
    }
    read_told(rt, space.read_now(rt.alloc(), port, slba, blocks))
}

fn read_told(rt: &impl Print, read: Result<ReadAnswer, ReadNow>) -> io::Result<()> {
    match read {
        Ok(read) => {
            print!(rt; "at {}: {}", read.point, StatusText(read.status))?;
            data_told(rt, &read.payload)
        }
        Err(why) => println!(rt; "{why:?}"),
    }
}

fn data_told(rt: &impl Print, data: &Option<ReadData>) -> io::Result<()> {
    match data {
        Some(data) => println!(rt; "; {}", RunsText(data.as_slice())),
        None => rt.println(""),
    }
}

/// Tells what a job is answered that is run, or begun and polled once.
fn worked<R: AllocGlobal + Print + Wait>(
    rt: &R,
    space: &Space<Count>,
    port: &mut Port<Count>,
    call: &str,
    of: &str,
) -> io::Result<()>
    requires { IsPortOf space.now port.old }
    ensures of { IsPortOf space.now port.new }
    ensures number { port.new.number ≡ port.old.number }
{
    let alloc = rt.alloc();
    let Some(job) = job(alloc, of) else {
        return rt.println("unread");
    };
    if !fits(&space.geometry(), &job) {
        return rt.println("unread");
    }
    match call {
        "run" => done_told(rt, &space.run_job(rt, alloc, port, NUMBER, &job, &Open)),
        "poll" => match polled_once(alloc, space, port, &job) {
            Some(done) => done_told(rt, &done),
            None => rt.println("pending"),
        },
        _ => rt.println("unread"),
    }
}

fn polled_once(
    alloc: Global,
    space: &Space<Count>,
    port: &mut Port<Count>,
    job: &Job,
) -> Option<JobDone>
    requires of { IsPortOf space.now port.old }
    requires fits { FitsNamespace space.now.namespace job.now }
    ensures of { IsPortOf space.now port.new }
    ensures number { port.new.number ≡ port.old.number }
{
    match space.begin_job(alloc, NUMBER, job) {
        Progress::Done(done) => Some(done),
        Progress::Pending(under_way) => {
            match space.poll_job(alloc, port, job, under_way, &Open) {
                Progress::Done(done) => Some(done),
                Progress::Pending(_) => None,
            }
        }
    }
}

/// Tells the statuses of a job, then unit, point and end of each part that it lists, and its data.
fn done_told(rt: &impl Print, done: &JobDone) -> io::Result<()> {
    let (statuses, data) = match &done.completions {
        Completions::One(one) => (Statuses::One(one.status), &one.payload),
        Completions::Two(compare, write) => (
            Statuses::Two(compare.status, write.status),
            &compare.payload,
        ),
    };
    print!(rt; "{}", StatusesText(statuses))?;
    for part in done.parts.as_slice() {
        print!(rt; "; unit {} at {} {:?}", part.unit, part.point, part.result)?;
    }
    data_told(rt, data)
}
