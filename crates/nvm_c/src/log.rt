//! What the ports of a recorded namespace did.
ghost use Rattle.std.specs.Prelude.{◌≡◌, Some, IfOk, IfSome, OnErr, OnOk};
ghost use Rattle.nvm_c.specs.Logs.{HasDrawn, HasRoom, HasRoomIn, kept_by, log_state, recorded_job, with_job, with_kept};

use nvm_audit::{DoneJob, MOST_JOBS};
use nvm_plan::{Completions, Job};
use nvm_record::{NoMemory, Statuses};
use nvm_space::JobDone;
use nvm_store::Limit;
use std::alloc::Global;
use std::sync::Arc;
use std::sync::atomic::{AtomicU64, Ordering};

/// The numbers of a recorded namespace's jobs, which its ports share.
#[derive(Drop)]
pub struct Numbering {
    /// How many ports there are.
    pub(crate) ports: u16,
    next: AtomicU64,
    /// By it a port is told from one of another namespace.
    called: AtomicU64,
}

impl Numbering {
    /// No number was drawn yet.
    pub(crate) fn new(ports: u16) -> Numbering {
        Numbering {
            ports,
            next: AtomicU64::new(0),
            called: AtomicU64::new(0),
        }
    }

    /// Whether the other is this one, as long as nobody else calls either: what is written here is read there then, whatever
    /// it is.
    pub(crate) fn is(&self, other: &Numbering) -> bool {
        self.called.store(0, Ordering::SeqCst);
        if other.called.load(Ordering::SeqCst) != 0 {
            return false;
        }
        self.called.store(1, Ordering::SeqCst);
        other.called.load(Ordering::SeqCst) == 1
    }
}

/// What a port did, job by job, for the record of its namespace.
#[derive(Drop)]
pub struct Log {
    pub(crate) numbering: Arc<Numbering, Global>,
    /// How often each unit may be changed.
    pub(crate) limit: Limit,
    /// The jobs that were done.
    pub(crate) jobs: Vec<Job>,
    /// What was done of each, at the same place.
    pub(crate) done: Vec<DoneJob>,
    /// Whether there was a job more than a record has. From then on nothing is kept.
    pub(crate) full: bool,
}

impl Log {
    /// Draws the number of a job, once there is room to keep the job.
    fn draw(&mut self) -> Result<u32, NoMemory>
        ensures drawn { IfOk result (λ number. HasDrawn 0 0 (Some (log_state self.old)) (Some (log_state self.new)) number) }
        ensures room { OnOk result (HasRoom self.new) }
        ensures refused { OnErr result (log_state self.new ≡ log_state self.old) }
    {
        self.jobs.reserve(1)?;
        self.done.reserve(1)?;
        let drawn = self.numbering.next.fetch_add(1, Ordering::SeqCst);
        if drawn >= u64::from(MOST_JOBS) {
            self.full = true;
            return Ok(MOST_JOBS);
        }
        Ok(drawn as u32)
    }

    /// Keeps a job that was done, which is taken.
    fn keep(&mut self, number: u32, held: &mut Option<Job>, done: JobDone)
        requires { HasRoom self.old }
        ensures { IfSome held.old (λ job. log_state self.new ≡ with_job (log_state self.old) number job done) }
    {
        if self.full {
            return;
        }
        if let Some(job) = held.take() {
            self.jobs.push_reserved(job);
            self.done.push_reserved(recorded(number, done));
        }
    }
}

/// The number of the next job: where nothing is recorded the next of the port itself, and else the next of the namespace.
#[inline(always)]
pub(crate) fn draw(next: &mut u32, log: &mut Option<Log>) -> Result<u32, NoMemory>
    ensures drawn { IfOk result (λ number. HasDrawn next.old next.new (kept_by log.old) (kept_by log.new) number) }
    ensures room { OnOk result (HasRoomIn log.new) }
    ensures refused { OnErr result (kept_by log.new ≡ kept_by log.old) }
    ensures same { OnErr result (next.new ≡ next.old) }
{
    match log {
        Some(log) => log.draw(),
        None => {
            let number = *next;
            *next = number.wrapping_add(1);
            Ok(number)
        }
    }
}

/// Keeps a job that was done, where it is recorded. Else it stays where it is held.
// Inlined, since what was done isn't moved then where nothing is kept.
#[inline(always)]
pub(crate) fn keep(log: &mut Option<Log>, number: u32, held: &mut Option<Job>, done: JobDone)
    requires { HasRoomIn log.old }
    ensures { IfSome held.old (λ job. kept_by log.new ≡ with_kept (kept_by log.old) number job done) }
{
    match log {
        Some(log) => log.keep(number, held, done),
        None => {}
    }
}

/// What a record shows of the job of this number, of which this was told.
fn recorded(number: u32, done: JobDone) -> DoneJob
    ensures { result ≡ recorded_job number done }
{
    let JobDone { completions, parts } = done;
    let (statuses, payload) = match completions {
        Completions::One(completion) => (Statuses::One(completion.status), completion.payload),
        Completions::Two(first, second) => (Statuses::Two(first.status, second.status), None),
    };
    DoneJob {
        job: number,
        parts,
        statuses,
        payload,
    }
}
