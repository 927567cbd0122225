//! Two threads on one space: one holds a unit by a job, and the other polls a job that has a part there.
ghost use Rattle.std.specs.Prelude.{All, IfOk};
ghost use Rattle.nvm_plan.specs.Fits.{FitsNamespace};
ghost use Rattle.nvm_space.specs.Ports.{IsPortOf};

use crate::holding::{Failure, Holding, NO_MEMORY};
use nvm_geometry::Geometry;
use nvm_list::command_of_words;
use nvm_plan::{Body, Completions, Job, Part, PartResult, Parts, fits};
use nvm_record::{BlockSize, Status};
use nvm_space::{JobDone, Port, Progress, Space};
use nvm_store::Limit;
use nvm_unit::Open;
use std::alloc::Global;
use std::sync::Wait;
use std::test::Fail;
use std::thread::map_vec;

/// A new space of LBAs 0 to 31 with blocks of 512 bytes, in 4 units of 8 LBAs each, and its two ports.
fn opened(alloc: Global) -> Result<(Space, Vec<Port>), Fail>
    ensures { IfOk result (λ s. All (IsPortOf s.0) s.1.items) }
{
    let limit = Limit::new(8).ok_or("there is no such limit")?;
    let Ok(geometry) = Geometry::new(32, 512, 7, 0, 7, 3) else {
        return Err(Fail::new("there is no such geometry"));
    };
    match Space::new(alloc, geometry, 2, limit) {
        Ok(opened) => Ok(opened),
        Err(_) => Err(Fail::new(NO_MEMORY)),
    }
}

/// The job of this command of host 1.
fn job_of(alloc: Global, words: &[u8]) -> Result<Job, Failure> {
    match command_of_words(alloc, words, 1, BlockSize::BYTES_512) {
        Ok(command) => Ok(Job {
            host: 1,
            body: Body::Single(command),
        }),
        Err(_) => Err(NO_MEMORY),
    }
}

/// The parts of the job, for which there must be memory.
fn parts_of(done: JobDone) -> Result<Parts, Failure> {
    let JobDone { completions, parts } = done;
    if is_success(&completions) {
        Ok(parts)
    } else {
        Err(NO_MEMORY)
    }
}

fn is_success(completions: &Completions) -> bool {
    match completions {
        Completions::One(one) => one.status == Status::SUCCESSFUL_COMPLETION,
        Completions::Two(_, _) => false,
    }
}

fn done_at(unit: u16, point: u32) -> Part {
    Part {
        unit,
        point,
        result: PartResult::Done,
    }
}

/// Does a job by the first port, which the gate holds, and finds the history of its unit. By the second it polls another while the unit is held, and once more when it isn't any longer.
fn work<R: Wait>(
    rt: &R,
    alloc: Global,
    space: &Space,
    port: Port,
    gate: &Holding,
) -> Result<Parts, Failure>
    requires { IsPortOf space.now port }
{
    let mut port = port;
    let number = port.number();
    let words = if number == 0 {
        b"zeroes 8 1".as_slice()
    } else {
        b"zeroes 6 12".as_slice()
    };
    let job = job_of(alloc, words)?;
    if !fits(&space.geometry(), &job) || space.regions().count() < 2 {
        return Err("the job doesn't fit");
    }
    if number > 0 {
        gate.holds()?;
        return poll_twice(alloc, space, &mut port, &job, gate);
    }
    let done = space.run_job(rt, alloc, &mut port, 0, &job, gate);
    let history = space.history(rt, alloc, &mut port, 1);
    gate.leave();
    let parts = parts_of(done)?;
    let Ok(history) = history else {
        return Err(NO_MEMORY);
    };
    if history.len() == 1 {
        Ok(parts)
    } else {
        Err("the history of unit 1 isn't the job alone")
    }
}

fn poll_twice(
    alloc: Global,
    space: &Space,
    port: &mut Port,
    job: &Job,
    gate: &Holding,
) -> Result<Parts, Failure>
    requires of { IsPortOf space.now port.old }
    requires fits { FitsNamespace space.now.namespace job.now }
{
    let Progress::Pending(begun) = space.begin_job(alloc, 9, job) else {
        gate.release();
        return Err(NO_MEMORY);
    };
    let polled = space.poll_job(alloc, port, job, begun, &Open);
    gate.release();
    let under_way = match polled {
        Progress::Pending(under_way) => under_way,
        Progress::Done(done) => {
            parts_of(done)?;
            return Err("unit 1 was held");
        }
    };
    if !gate.is_left() {
        return Err("the unit is held for ever");
    }
    match space.poll_job(alloc, port, job, under_way, &Open) {
        Progress::Done(done) => parts_of(done),
        Progress::Pending(_) => Err("no port holds a unit any more"),
    }
}

/// Its first part is done, and the next one waits until the unit is free.
#[test]
fn a_polled_job_goes_on_where_it_waited(rt: HostRuntime) -> Result<(), Fail> {
    let alloc = rt.alloc();
    let (space, ports) = opened(alloc)?;
    let shared = &space;
    let gate = Holding::until(0);
    let answers = map_vec(
        &rt,
        ports,
        &|port: Port| -> Result<Parts, Failure>
            requires { IsPortOf shared.now port }
        { work(&rt, alloc, shared, port, &gate) },
    )?;
    let mut parts = Vec::new(alloc);
    for answer in answers {
        parts.extend_from_slice(answer?.as_slice())?;
    }
    let wanted = [done_at(1, 0), done_at(0, 0), done_at(1, 1), done_at(2, 0)];
    assert_eq!(rt; parts.as_slice(), wanted.as_slice());
    assert!(rt; gate.was_seen());
    Ok(())
}
