//! Calls of one pass, and the gate that changes have.
ghost use Rattle.std.specs.Prelude.{◌≡◌, true};
ghost use Rattle.nvm_store.specs.ActRef.{lent_operation_of};
ghost use Rattle.nvm_store.specs.History.{IsLawfulHistory};
ghost use Rattle.nvm_store.specs.Look.{look_operation_of};
ghost use Rattle.nvm_store.specs.Place.{IsCovered};
ghost use Rattle.nvm_unit.specs.Passes.{IsPassOf};

use crate::job::{NUMBER, job};
use nvm_geometry::Geometry;
use nvm_plan::{Job, LentPart, fits, job_part_in};
use nvm_store::{Act, ActRef, Answer, History, Look, Place, UnitBlocks, answer, replay};
use nvm_text::{RunsText, StatusText};
use nvm_unit::{Gate, Observed, Open, Pass, Unit};
use std::fmt::Debug;
use std::io;
use std::sync::Wait;
use std::sync::atomic::{AtomicU64, Ordering};

/// Counts its calls for this unit and the jobs of rows.
#[derive(Drop)]
pub struct Counting {
    calls: AtomicU64,
}

impl Counting {
    pub fn new() -> Counting {
        Counting {
            calls: AtomicU64::new(0),
        }
    }

    pub fn calls(&self) -> u64 {
        self.calls.load(Ordering::SeqCst)
    }
}

impl Gate for Counting {
    fn before_put(&self, unit: u16, job: u32) {
        if unit == 3 && job == NUMBER {
            self.calls.fetch_add(1, Ordering::SeqCst);
        }
    }

    fn after_job(&self, _job: u32) {}
}

/// Tells what the call of a pass answers.
pub fn called<R: AllocGlobal + Print + Wait>(
    rt: &R,
    unit: &Unit,
    pass: &mut Pass,
    gate: &Counting,
    call: &str,
    of: &str,
) -> io::Result<()>
    requires of { IsPassOf unit.now pass.old }
    requires versions { unit.now.versions ≡ true }
    ensures of { IsPassOf unit.now pass.new }
    ensures number { pass.new.view.number ≡ pass.old.view.number }
{
    match call {
        "refresh" => {
            unit.refresh(rt, pass);
            rt.println("refreshed")
        }
        "history" => history(rt, unit, pass),
        _ => match job(rt.alloc(), of) {
            Some(job) => worked(rt, unit, pass, gate, call, &job),
            None => rt.println("unread"),
        },
    }
}

/// Tells what the part of a job in the unit is answered, of a namespace that has another unit, so that ranges may leave this one.
fn worked<R: AllocGlobal + Print + Wait>(
    rt: &R,
    unit: &Unit,
    pass: &mut Pass,
    gate: &Counting,
    call: &str,
    job: &Job,
) -> io::Result<()>
    requires of { IsPassOf unit.now pass.old }
    requires versions { unit.now.versions ≡ true }
    ensures of { IsPassOf unit.now pass.new }
    ensures number { pass.new.view.number ≡ pass.old.view.number }
{
    let Ok(namespace) = Geometry::new(16, 512, 7, 0, 7, 7) else {
        return rt.println("unread");
    };
    if !fits(&namespace.large(), job) {
        return rt.println("unread");
    }
    match job_part_in(&namespace, job, 0) {
        Some(LentPart::Act(act)) => changed(rt, unit, pass, gate, call, act),
        Some(LentPart::Look(look)) => looked(rt, unit, pass, call, look),
        None => rt.println("unread"),
    }
}

/// Tells what a change is answered.
fn changed<R: AllocGlobal + Print + Wait>(
    rt: &R,
    unit: &Unit,
    pass: &mut Pass,
    gate: &Counting,
    call: &str,
    act: ActRef<'_>,
) -> io::Result<()>
    requires { IsPassOf unit.now pass.old }
    ensures of { IsPassOf unit.now pass.new }
    ensures number { pass.new.view.number ≡ pass.old.view.number }
{
    if !unit.covers(act) {
        return rt.println("unread");
    }
    let alloc = rt.alloc();
    match call {
        "change" => {
            let changed = unit.change(rt, alloc, pass, NUMBER, act, gate);
            println!(rt; "{changed:?}")
        }
        "try" => {
            let tried = unit.try_change(alloc, pass, NUMBER, act, gate);
            println!(rt; "{tried:?}")
        }
        "poll" => {
            let polled = unit.poll_change(alloc, pass, NUMBER, act, gate);
            println!(rt; "{polled:?}")
        }
        _ => rt.println("unread"),
    }
}

/// Tells what a look is answered.
fn looked<R: AllocGlobal + Print + Wait>(
    rt: &R,
    unit: &Unit,
    pass: &mut Pass,
    call: &str,
    look: Look<'_>,
) -> io::Result<()>
    requires of { IsPassOf unit.now pass.old }
    requires versions { unit.now.versions ≡ true }
    ensures of { IsPassOf unit.now pass.new }
    ensures number { pass.new.view.number ≡ pass.old.view.number }
{
    if !unit.covers_look(look) {
        return rt.println("unread");
    }
    let alloc = rt.alloc();
    match call {
        "observe" => told(rt, unit.observe(rt, alloc, pass, look)),
        "look" => told(rt, unit.look(alloc, pass, look)),
        "poll" => match unit.poll_observe(alloc, pass, look, &Open) {
            Some(observed) => told(rt, observed),
            None => rt.println("None"),
        },
        _ => rt.println("unread"),
    }
}

/// Tells the point, and the data or the status, or why there is none.
fn told<E: Debug + Drop>(rt: &impl Print, observed: Result<Observed, E>) -> io::Result<()> {
    match observed {
        Ok(Observed { point, answer }) => {
            print!(rt; "at {point}:")?;
            answered(rt, &answer)?;
            rt.println("")
        }
        Err(fault) => println!(rt; "{fault:?}"),
    }
}

fn answered(rt: &impl Print, answer: &Answer) -> io::Result<()> {
    match answer {
        Answer::Payload(data) => print!(rt; " {}", RunsText(data.as_slice())),
        Answer::Status(status) => print!(rt; " {}", StatusText(*status)),
    }
}

/// Tells the history that the pass finds, and each block after it.
fn history<R: AllocGlobal + Print + Wait>(rt: &R, unit: &Unit, pass: &mut Pass) -> io::Result<()>
    requires of { IsPassOf unit.now pass.old }
    ensures of { IsPassOf unit.now pass.new }
    ensures number { pass.new.view.number ≡ pass.old.view.number }
{
    let place = unit.place();
    match unit.history(rt, rt.alloc(), pass) {
        Ok(history) => with_blocks(rt, place, &history),
        Err(_) => rt.println("NoMemory"),
    }
}

/// Tells each entry, and what a Read of each block is answered after them.
fn with_blocks<R: AllocGlobal + Print>(rt: &R, place: Place, history: &History) -> io::Result<()>
    requires { IsLawfulHistory place history.now.items }
{
    entries(rt, history)?;
    let Place {
        first,
        blocks,
        size,
    } = place;
    if blocks == 0 || blocks > 8 || first > 8 {
        return rt.println("; unread");
    }
    let Ok(unit) = replay(rt.alloc(), first, blocks, size, history) else {
        return rt.println("; NoMemory");
    };
    rt.print("; then")?;
    for lba in first..first + u64::from(blocks) {
        block(rt, &unit, lba)?;
    }
    rt.println("")
}

/// Tells pass, job and act of each entry.
fn entries(rt: &impl Print, history: &History) -> io::Result<()> {
    print!(rt; "entries {}", history.len())?;
    for entry in history {
        print!(rt; "; pass {} job {}", entry.pass, entry.job)?;
        act_told(rt, &entry.act)?;
    }
    Ok(())
}

/// Tells an act, with the bytes of its data or of its ranges.
fn act_told(rt: &impl Print, act: &Act) -> io::Result<()> {
    match act {
        Act::Write {
            first,
            blocks,
            payload,
        } => print!(rt; " write {first} {blocks} {}", RunsText(payload.as_slice())),
        Act::Zeroes { first, blocks } => print!(rt; " zeroes {first} {blocks}"),
        Act::Uncorrectable { first, blocks } => print!(rt; " uncorrectable {first} {blocks}"),
        Act::Pair {
            first,
            blocks,
            compare,
            write,
        } => {
            let compare = RunsText(compare.as_slice());
            print!(rt;
                " pair {first} {blocks} {compare} {}",
                RunsText(write.as_slice())
            )
        }
        Act::Deallocate {
            first,
            blocks,
            ranges,
        } => print!(rt;
            " deallocate {first} {blocks} {}",
            RunsText(ranges.as_slice())
        ),
    }
}

/// Tells what a Read of the block is answered.
fn block<R: AllocGlobal + Print>(rt: &R, unit: &UnitBlocks, lba: u64) -> io::Result<()> {
    let look = Look::Read {
        first: lba,
        blocks: 1,
    };
    if !unit.covers_look(look) {
        return rt.print(" unread");
    }
    match answer(rt.alloc(), unit, look) {
        Ok(read) => answered(rt, &read),
        Err(_) => rt.print(" NoMemory"),
    }
}
