//! Threads that change a unit as often as they can, and the history of them all.
ghost use Rattle.nvm_unit.specs.Passes.{IsPassOf};

use super::opened;
use crate::holding::{Failure, NO_MEMORY};
use nvm_store::{ActRef, History};
use nvm_unit::{Changed, Gate, Pass, Unit};
use std::alloc::Global;
use std::sync::Wait;
use std::sync::atomic::{AtomicU64, Ordering};
use std::test::Fail;
use std::thread::{Threads, map_vec, yield_now};

/// The history that a thread found, or why it has none.
type Found = Result<History, Failure>;

/// Makes so many changes, each of one block, whose jobs are numbered from 0, and then finds the history.
fn change_often<R: Wait, G: Gate>(
    rt: &R,
    alloc: Global,
    unit: &Unit,
    pass: Pass,
    changes: u32,
    gate: &G,
) -> Found
    requires { IsPassOf unit.now pass }
{
    let mut pass = pass;
    for job in 0..changes {
        let act = ActRef::Zeroes {
            first: u64::from(job % 8),
            blocks: 1,
        };
        if !unit.covers(act) {
            return Err("the unit doesn't cover the act");
        }
        let Changed::Done { .. } = unit.change(rt, alloc, &mut pass, job, act, gate) else {
            return Err(NO_MEMORY);
        };
    }
    match unit.history(rt, alloc, &mut pass) {
        Ok(history) => Ok(history),
        Err(_) => Err(NO_MEMORY),
    }
}

/// Keeps the unit for so many turns. Where these are many, the others go to sleep.
#[derive(Drop)]
struct Slow {
    turns: u32,
    /// How many calls there are at this moment.
    now: AtomicU64,
    /// How many were found by later ones.
    met: AtomicU64,
}

impl Gate for Slow {
    fn before_put(&self, _unit: u16, _job: u32) {
        let others = self.now.fetch_add(1, Ordering::SeqCst);
        self.met.fetch_add(others, Ordering::SeqCst);
        for _ in 0..self.turns {
            yield_now();
        }
        self.now.fetch_sub(1, Ordering::SeqCst);
    }

    fn after_job(&self, _job: u32) {}
}

/// Has each of so many threads change a unit so often. All changes are in the history that the last of them found, each thread's in their order,
/// and no change was at its gate while another was, since it holds the unit there.
fn all_change<R: Threads + Wait + Sync>(
    rt: &R,
    alloc: Global,
    threads: u16,
    changes: u32,
    turns: u32,
) -> Result<(), Fail> {
    let gate = Slow {
        turns,
        now: AtomicU64::new(0),
        met: AtomicU64::new(0),
    };
    let (unit, passes) = opened(alloc, threads, 4000)?;
    let shared = &unit;
    let found = map_vec(
        rt,
        passes,
        &|pass: Pass| -> Found
            requires { IsPassOf shared.now pass }
        { change_often(rt, alloc, shared, pass, changes, &gate) },
    )?;
    let mut longest = Vec::new(alloc);
    for history in found {
        let history = history?;
        if history.len() > longest.len() {
            longest = history;
        }
    }
    if gate.met.load(Ordering::SeqCst) > 0 {
        return Err(Fail::new("two changes were at their gates at once"));
    }
    if are_all(&longest, threads, changes) {
        Ok(())
    } else {
        Err(Fail::new("the history hasn't each thread's changes in their order"))
    }
}

/// Whether each of these passes has so many entries, whose jobs are numbered from 0 in their order.
fn are_all(history: &History, passes: u16, changes: u32) -> bool {
    let mut numbers = [0u32; 8];
    for entry in history {
        let Some(number) = numbers.get_mut(usize::from(entry.pass)) else {
            return false;
        };
        if entry.job != *number {
            return false;
        }
        *number = number.wrapping_add(1);
    }
    numbers
        .iter()
        .take(usize::from(passes))
        .all(|number| *number == changes)
}

#[test]
fn a_history_has_what_both_threads_did(rt: HostRuntime) -> Result<(), Fail> {
    all_change(&rt, rt.alloc(), 2, 1000, 0)
}

#[test]
fn threads_that_wait_go_on_one_after_the_other(rt: HostRuntime) -> Result<(), Fail> {
    all_change(&rt, rt.alloc(), 8, 200, 64)
}
