//! A port of a namespace as C works with it: a job is begun and gone on with, and C is told when it is done.
ghost use Rattle.std.specs.Prelude.{◌≡◌, ◌⊎◌, ◌++◌, ◌+◌, ◌%◌, ◌^◌, ◌<◌, ◌≤◌, ℕ, Bool, List, [], None, IsSome, IfSome, length};
ghost use Rattle.std.specs.Arc.{arc_value};
ghost use Rattle.nvm_geometry.specs.Namespace.{Namespace};
ghost use Rattle.nvm_plan.specs.Fits.{FitsNamespace};
ghost use Rattle.nvm_plan.specs.declared.job.Job.{Job as Asked};
ghost use Rattle.nvm_unit.specs.declared.views.PassView.{PassView};
ghost use Rattle.nvm_space.specs.Ports.{IsPortOf};
ghost use Rattle.nvm_space.specs.Trace.{DoesJob};
ghost use Rattle.nvm_space.specs.UnderWay.{IsUnderWay};
ghost use Rattle.nvm_space.specs.declared.job_done.JobDone.{JobDone as Told};
ghost use Rattle.nvm_c.specs.Asked.{IsAsked, room_of};
ghost use Rattle.nvm_c.specs.Engines.{IsSound, namespace_of, seen_by, space_of};
ghost use Rattle.nvm_c.specs.Logs.{HasRoomIn, kept_by};
ghost use Rattle.nvm_c.specs.Pending.{pending_job};
ghost use Rattle.nvm_c.specs.Submitted.{Polls, Progresses, Submits};
ghost use Rattle.nvm_c.specs.Told.{FitEntries, posted_length, told_length};

use crate::asking::{asked_job, is_plain, room};
use crate::code::Code;
use crate::log::{Log, draw, keep};
use crate::quiet::Quiet;
use crate::telling::{entries_length, tell};
use crate::waiting::{JobData, WaitingJob};
use nvm_plan::{Body, Job};
use nvm_record::BlockSize;
use nvm_space::{JobUnderWay, Port, Progress, Space};
use nvm_unit::Count;
use std::alloc::Global;
use std::sync::Arc;

/// A port of a namespace that others share, with the job that is pending in it.
#[derive(Drop)]
pub struct Engine {
    pub(crate) space: Arc<Space<Count>, Global>,
    pub(crate) port: Port<Count>,
    /// The number of the next job, where the namespace isn't recorded.
    pub(crate) number: u32,
    pub(crate) pending: Option<Pending>,
    /// Memory for the data of a job that has to wait for its unit.
    pub(crate) spare: JobData,
    /// What it did, where the namespace is recorded.
    pub(crate) log: Option<Log>,
}

/// A job that was begun, and how far it is.
#[derive(Drop)]
pub enum Pending {
    /// Some of its parts may be done.
    UnderWay {
        number: u32,
        job: Job,
        under_way: JobUnderWay,
    },
    /// Its only part isn't done.
    Waiting(WaitingJob),
}

impl Engine {
    /// Begins the job that the entries ask for, and goes on with it up to the first unit that isn't to be had. It waits
    /// for nothing.
    pub(crate) fn submit(
        &mut self,
        alloc: Global,
        entries: &[u8],
        data: &mut [u8],
        posted: &mut [u8],
    ) -> Code
        requires { IsSound self.old }
        ensures sound { IsSound self.new }
        ensures submits { Submits result self.old self.new entries.now
            (record { bytes = data.old; posted = posted.old }) (record { bytes = data.new; posted = posted.new }) }
    {
        match &self.pending {
            Some(_) => return Code::Busy,
            None => {}
        }
        let host = self.port.number() + 1;
        if entries.len() == 128 {
            return self.submit_buffer(alloc, entries, data, posted);
        }
        if self.log.is_none() && self.space.recorded().is_none() && is_plain(entries) {
            return self.submit_command(alloc, host, entries, data, posted);
        }
        self.submit_job(alloc, host, entries, data, posted)
    }

    /// Makes the job that one entry asks for, and begins it.
    // Not inlined, since a command that is done at once would clear the room that this takes.
    #[inline(never)]
    pub(crate) fn submit_job(
        &mut self,
        alloc: Global,
        host: u16,
        entries: &[u8],
        data: &mut [u8],
        posted: &mut [u8],
    ) -> Code
        requires sound { IsSound self.old }
        requires idle { self.old.pending ≡ None }
        requires host { host ≡ self.old.port.number + 1 }
        ensures sound { IsSound self.new }
        ensures submits { Submits result self.old self.new entries.now
            (record { bytes = data.old; posted = posted.old }) (record { bytes = data.new; posted = posted.new }) }
    {
        match asked_job(alloc, &self.space.geometry(), host, entries, data) {
            Ok(job) => {
                let mut held = Some(job);
                self.begin(alloc, &mut held, data, posted)
            }
            Err(code) => code,
        }
    }

    /// Begins a job that entries ask for, and goes on with it. The job is taken if it is kept or pending then. Else it stays where it is
    /// held, so that it isn't moved. A pair's data needn't be there.
    pub(crate) fn begin(
        &mut self,
        alloc: Global,
        held: &mut Option<Job>,
        data: &mut [u8],
        posted: &mut [u8],
    ) -> Code
        requires sound { IsSound self.old }
        requires idle { self.old.pending ≡ None }
        requires held { IsSome held.old }
        requires fits { IfSome held.old (λ job. FitsNamespace (namespace_of self.old) job) }
        ensures sound { IsSound self.new }
        ensures submits { IfSome held.old (λ job. (entries sent : List ℕ) → (sent ≡ []) ⊎ (posted_length job.body ≡ 32)
            → IsAsked (namespace_of self.old).block_size (self.old.port.number + 1) entries (sent ++ data.old) job
            → Submits result self.old self.new entries
            (record { bytes = sent ++ data.old; posted = posted.old }) (record { bytes = sent ++ data.new; posted = posted.new })) }
    {
        told_statuses_fit_their_entries();
        let Some(job) = &*held else {
            unreachable!("a job is held")
        };
        if posted.len() != entries_length(job) {
            return Code::BadLength;
        }
        let Ok(number) = draw(&mut self.number, &mut self.log) else {
            return Code::NoMemory;
        };
        match self.space.begin_job(alloc, number, job) {
            Progress::Done(done) => {
                tell(&done.completions, data, posted);
                keep(&mut self.log, number, held, done);
                Code::Done
            }
            Progress::Pending(under_way) => {
                self.go_on(alloc, number, held, under_way, data, posted)
            }
        }
    }

    /// Goes on with the job that is pending.
    pub(crate) fn poll(&mut self, alloc: Global, data: &mut [u8], posted: &mut [u8]) -> Code
        requires { IsSound self.old }
        ensures sound { IsSound self.new }
        ensures polls { Polls result self.old self.new
            (record { bytes = data.old; posted = posted.old }) (record { bytes = data.new; posted = posted.new }) }
    {
        let Some(pending) = &self.pending else {
            return Code::Idle;
        };
        let room = pending.room(self.space.geometry().block_size());
        if posted.len() != pending.entries_length() || data.len() < room {
            return Code::BadLength;
        }
        let Some(taken) = self.pending.take() else {
            unreachable!("a job is pending")
        };
        match taken {
            Pending::UnderWay {
                number,
                job,
                under_way,
            } => {
                let mut held = Some(job);
                self.go_on(alloc, number, &mut held, under_way, data, posted)
            }
            Pending::Waiting(waiting) => self.try_again(alloc, waiting, room, data, posted),
        }
    }

    /// Goes on with a job that isn't in `pending`. It is taken if it is kept or pending then.
    fn go_on(
        &mut self,
        alloc: Global,
        number: u32,
        held: &mut Option<Job>,
        under_way: JobUnderWay,
        data: &mut [u8],
        posted: &mut [u8],
    ) -> Code
        requires of { IsPortOf (space_of self.old) self.old.port }
        requires few { self.old.port.number < 64 }
        requires idle { self.old.pending ≡ None }
        requires held { IsSome held.old }
        requires fits { IfSome held.old (λ job. FitsNamespace (namespace_of self.old) job) }
        requires under_way { IfSome held.old (λ job. (start : List PassView)
            × IsUnderWay (namespace_of self.old) (space_of self.old).lists job under_way start (seen_by self.old)) }
        requires same { under_way.number ≡ number }
        requires log { HasRoomIn self.old.log }
        requires room { IfSome held.old (λ job. length posted.old ≡ posted_length job.body) }
        ensures sound { IsSound self.new }
        ensures space { space_of self.new ≡ space_of self.old }
        ensures number { self.new.number ≡ self.old.number }
        ensures progress { IfSome held.old (λ job. (start : List PassView)
            → IsUnderWay (namespace_of self.old) (space_of self.old).lists job under_way start (seen_by self.old)
            → Progresses result (space_of self.old) number job start (seen_by self.new) self.new.pending
            (kept_by self.old.log) (kept_by self.new.log)
            (record { bytes = data.old; posted = posted.old }) (record { bytes = data.new; posted = posted.new })) }
    {
        told_statuses_fit_their_entries();
        let Some(job) = &*held else {
            unreachable!("a job is held")
        };
        match self
            .space
            .poll_job(alloc, &mut self.port, job, under_way, &Quiet)
        {
            Progress::Done(done) => {
                tell(&done.completions, data, posted);
                keep(&mut self.log, number, held, done);
                Code::Done
            }
            Progress::Pending(under_way) => {
                let Some(job) = held.take() else {
                    unreachable!("a job is held")
                };
                self.pending = Some(Pending::UnderWay {
                    number,
                    job,
                    under_way,
                });
                Code::Pending
            }
        }
    }
}

impl Pending {
    /// How many bytes the job's completion entries are.
    fn entries_length(&self) -> usize
        ensures { result ≡ posted_length (pending_job self.now).body }
    {
        match self {
            Pending::UnderWay { job, .. } => entries_length(job),
            Pending::Waiting(waiting) => waiting.entries_length(),
        }
    }

    /// How many bytes the job reads, if it succeeds.
    fn room(&self, size: BlockSize) -> usize
        ensures { result ≡ room_of size (pending_job self.now).body }
    {
        match self {
            Pending::UnderWay { job, .. } => match &job.body {
                Body::Single(command) => room(command.op, command.nlb, size),
                Body::Pair(_, _) => 0,
            },
            Pending::Waiting(waiting) => waiting.room(size),
        }
    }
}

/// Each status of a job that was done fits its entry, and there is an entry for each of the job's commands.
pub(crate) fn told_statuses_fit_their_entries()
    ensures fit { (ns : Namespace) (lists : Bool) (number : ℕ) (job : Asked) (start now : List PassView) (done : Told)
        → DoesJob ns lists number job start now done → FitEntries done.completions }
    ensures each { (ns : Namespace) (lists : Bool) (number : ℕ) (job : Asked) (start now : List PassView) (done : Told)
        → DoesJob ns lists number job start now done → told_length done.completions ≡ posted_length job.body }
{}
