ghost use Rattle.std.specs.Prelude.{◌≡◌, ◌↔◌, ◌≤◌, IsTrue, length};
ghost use Rattle.nvm_plan.specs.declared.part.PartResult.TheVariants.{Done};
ghost use Rattle.nvm_audit.specs.LawfulUnit.{HasMadeEntry, MadeEntry};
ghost use Rattle.nvm_audit.specs.PointOrder.{least_after};
ghost use Rattle.nvm_audit.specs.RecordedPart.{told_of};

use crate::done_job::DoneJob;
use nvm_plan::{Part, PartResult};
use nvm_record::{Status, Statuses};
use nvm_store::{Entry, History};
use std::marker::Model;

/// One part that a record shows, with the done job of which it is.
///
/// Contracts see it as plain data.
#[derive(Debug, Drop)]
pub(crate) struct DonePart<'a> {
    pub done: &'a DoneJob,
    pub part: Part,
    /// The number of the worker that did it.
    pub worker: u16,
    /// Whether it is the last part that was done of the job.
    pub is_last: bool,
}

impl<'a> Model for DonePart<'a> {
    ghost use Rattle.nvm_audit.specs.RecordedPart.{RecordedPart, recorded_part};

    ghost Value = { RecordedPart };

    ghost view = { λ p. recorded_part p.worker p.done.now p.part p.is_last };
}

impl<'a> DonePart<'a> {
    /// What was answered for the part: the job's statuses of the last one, and success of one that has others after it.
    pub(crate) fn told(&self) -> Statuses
        ensures { result ≡ told_of self.now }
    {
        let done = self.done;
        if self.is_last {
            done.statuses
        } else {
            Statuses::One(Status::SUCCESSFUL_COMPLETION)
        }
    }

    /// Whether the part made this entry, at its point.
    fn made(&self, entry: &Entry) -> bool
        ensures { IsTrue result ↔ MadeEntry self.now.part.point entry.now self.now }
    {
        let done = self.done;
        self.part.result == PartResult::Done && entry.pass == self.worker && entry.job == done.job
    }

    /// Whether the history has, at the part's point, the entry that the part made.
    pub(crate) fn made_entry(&self, history: &History) -> bool
        ensures { IsTrue result ↔ HasMadeEntry history.now.items self.now }
    {
        let point = self.part.point as usize;
        point < history.len() && self.made(&history[point])
    }

    /// Whether the history has come to the part's point, and has the part's entry there, where it made one.
    pub(crate) fn has_its_point(&self, history: &History) -> bool
        ensures { IsTrue result ↔ ((self.now.part.point ≤ length history.now.items)
            × (self.now.part.result ≡ Done → HasMadeEntry history.now.items self.now)) }
    {
        if self.part.point as usize > history.len() {
            return false;
        }
        self.part.result != PartResult::Done || self.made_entry(history)
    }

    /// The lowest point that the worker's next part in the unit may have: past the entry, where the part made one.
    pub(crate) fn next_point(&self) -> u32
        requires { self.now.part.point ≤ 4194304 }
        ensures { result ≡ least_after self.now.part self.now.part.result }
    {
        match self.part.result {
            PartResult::Done => self.part.point + 1,
            PartResult::Failed | PartResult::Looked | PartResult::NoMemory | PartResult::Full => {
                self.part.point
            }
        }
    }
}
