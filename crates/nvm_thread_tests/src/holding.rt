//! How a thread waits for another, and a gate that keeps a unit held until another thread has done with it.
use nvm_unit::Gate;
use std::hint::spin_loop;
use std::sync::atomic::{AtomicU64, Ordering};
use std::thread::yield_now;

/// Why a thread failed.
pub type Failure = &'static str;

/// There was no memory for a call, or for the thread that it waits for.
pub const NO_MEMORY: Failure = "there was no memory";

/// A thread waits so many turns at most.
const MOST_TURNS: u32 = 100_000_000;

/// Waits until the number is at least this one. Gives whether it is at last. In one turn of 64 it lets another thread have its processor, since a turn
/// that does takes some forty times as long.
pub fn comes_to(number: &AtomicU64, least: u64) -> bool {
    for turn in 0..MOST_TURNS {
        if number.load(Ordering::SeqCst) >= least {
            return true;
        }
        if turn % 64 == 0 {
            yield_now();
        } else {
            spin_loop();
        }
    }
    false
}

/// Keeps job 0 at its gate, where it holds a unit, until it is released: by another thread, or once the awaited job is done.
#[derive(Drop)]
pub struct Holding {
    awaited: u32,
    /// How often job 0 came to its gate.
    calls: AtomicU64,
    /// 1 once the unit is released, and 2 once job 0 has left it.
    freed: AtomicU64,
    /// 1 once job 0 saw that it was released.
    seen: AtomicU64,
}

impl Holding {
    /// Until this job is done, or another thread releases the unit.
    pub fn until(awaited: u32) -> Holding {
        Holding {
            awaited,
            calls: AtomicU64::new(0),
            freed: AtomicU64::new(0),
            seen: AtomicU64::new(0),
        }
    }

    /// Waits until the unit is held. Where there is no memory for a thread, one does its work after another's, and it never is.
    pub fn holds(&self) -> Result<(), Failure> {
        if comes_to(&self.calls, 1) {
            Ok(())
        } else {
            Err(NO_MEMORY)
        }
    }

    /// Lets job 0 go on.
    pub fn release(&self) {
        self.freed.fetch_add(1, Ordering::SeqCst);
    }

    /// Says that job 0 has left the unit, after it was released.
    pub fn leave(&self) {
        self.freed.fetch_add(1, Ordering::SeqCst);
    }

    /// Waits until job 0 has left the unit.
    pub fn is_left(&self) -> bool {
        comes_to(&self.freed, 2)
    }

    /// Whether job 0 came to its gate once, and was released there.
    pub fn was_seen(&self) -> bool {
        self.calls.load(Ordering::SeqCst) == 1 && self.seen.load(Ordering::SeqCst) == 1
    }
}

impl Gate for Holding {
    fn before_put(&self, _unit: u16, job: u32) {
        if job > 0 {
            return;
        }
        self.calls.fetch_add(1, Ordering::SeqCst);
        if comes_to(&self.freed, 1) {
            self.seen.store(1, Ordering::SeqCst);
        }
    }

    fn after_job(&self, job: u32) {
        if job == self.awaited {
            self.release();
        }
    }
}
