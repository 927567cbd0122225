//! How far long work is, on standard error.
use nvm_audit::Watcher;
use nvm_unit::Gate;
use std::sync::atomic::{AtomicBool, AtomicU32, Ordering};

/// How many bytes a MiB has. Each MiB of bytes is shown.
const MIB: usize = 1 << 20;

/// The most lines that are shown of jobs, and of units, beside the first, which says 0.
const LINES: u32 = 128;

/// What is counted.
const JOBS: &str = "jobs done";

const UNITS: &str = "units audited";

/// Goes to the front of a terminal's line and clears it.
const CLEAR: &str = "\r\x1b[K";

/// Shows how far long work is, where standard error is a terminal: on one line there, which each next one takes the place of, and
/// which [`clear`](Progress::clear) takes away. Elsewhere it shows nothing.
///
/// A job, a unit or a byte costs a look at a number. There is one line for many of them.
#[derive(Drop)]
pub struct Progress<'a, R> {
    rt: &'a R,
    program: &'static str,
    /// Whether standard error is a terminal.
    is_shown: bool,
    /// Whether the line is there.
    stands: AtomicBool,
    /// How many jobs or units there are, and how many of them are done.
    all: AtomicU32,
    done: AtomicU32,
    /// A count is shown whose bits under this mask are 0.
    mask: AtomicU32,
}

impl<'a, R> Progress<'a, R> {
    /// What a program shows. `is_shown` says whether standard error is a terminal.
    pub fn new(rt: &'a R, program: &'static str, is_shown: bool) -> Progress<'a, R> {
        Progress {
            rt,
            program,
            is_shown,
            stands: AtomicBool::new(false),
            all: AtomicU32::new(0),
            done: AtomicU32::new(0),
            mask: AtomicU32::new(0),
        }
    }

    /// The gate of a run that it shows.
    pub fn jobs(&self) -> JobProgress<'_, 'a, R> {
        JobProgress { progress: self }
    }
}

impl<R: Eprint> Progress<'_, R> {
    /// `count` bytes more were read of a file of this length than the `before` that were read of it.
    pub(crate) fn read(&self, before: usize, count: usize, length: usize) {
        if let Some(read) = self.mib_reached(before, count) {
            let (program, all) = (self.program, length.div_ceil(MIB));
            let _ = eprint!(self.rt; "{CLEAR}{program}: {read} of {all} MiB read");
        }
    }

    /// `count` bytes more were written than the `before` that were.
    pub(crate) fn written(&self, before: usize, count: usize) {
        if let Some(written) = self.mib_reached(before, count) {
            let program = self.program;
            let _ = eprint!(self.rt; "{CLEAR}{program}: {written} MiB written");
        }
    }

    /// How many MiB there are by these bytes, where they have reached one more and a line says it.
    fn mib_reached(&self, before: usize, count: usize) -> Option<usize> {
        let reached = before.saturating_add(count) / MIB;
        if self.is_shown && reached > before / MIB {
            self.stands.store(true, Ordering::Relaxed);
            Some(reached)
        } else {
            None
        }
    }

    /// Takes the line away.
    pub fn clear(&self) {
        if self.stands.swap(false, Ordering::Relaxed) {
            let _ = self.rt.eprint(CLEAR);
        }
    }

    /// So many jobs or units are begun with.
    fn begin(&self, all: u32, words: &str) {
        if self.is_shown {
            self.all.store(all, Ordering::Relaxed);
            self.done.store(0, Ordering::Relaxed);
            self.mask.store(mask_of(all), Ordering::Relaxed);
            self.tell(0, words);
        }
    }

    /// One more job or unit is done.
    fn count(&self, words: &str) {
        if self.is_shown {
            let done = self.done.fetch_add(1, Ordering::Relaxed).saturating_add(1);
            if done & self.mask.load(Ordering::Relaxed) == 0 {
                self.tell(done, words);
            }
        }
    }

    /// Writes the line of `done` jobs or units.
    fn tell(&self, done: u32, words: &str) {
        self.stands.store(true, Ordering::Relaxed);
        let (program, all) = (self.program, self.all.load(Ordering::Relaxed));
        let _ = eprint!(self.rt; "{CLEAR}{program}: {done} of {all} {words}");
    }
}

/// A mask of the lowest bits that are all 0 in at most `LINES` of the numbers from 1 to `all`.
fn mask_of(all: u32) -> u32 {
    all.div_ceil(LINES).next_power_of_two() - 1
}

/// Shows how far the jobs of a run are.
#[derive(Drop)]
pub struct JobProgress<'p, 'a, R> {
    progress: &'p Progress<'a, R>,
}

impl<R: Eprint> Gate for JobProgress<'_, '_, R> {
    fn before_jobs(&self, jobs: u32) {
        self.progress.begin(jobs, JOBS);
    }

    fn before_put(&self, _unit: u16, _job: u32) {}

    fn after_job(&self, _job: u32) {
        self.progress.count(JOBS);
    }
}

impl<R: Eprint> Watcher for Progress<'_, R> {
    fn before_units(&self, units: u16) {
        self.begin(u32::from(units), UNITS);
    }

    fn after_unit(&self, _unit: u16) {
        self.count(UNITS);
    }
}
