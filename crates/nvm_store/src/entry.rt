ghost use Rattle.std.specs.Prelude.{◌≡◌, ◌↔◌, IsTrue};
ghost use Rattle.nvm_store.specs.Inside.SameEntries.{same_entry};

use crate::act::Act;
use std::alloc::AllocError;
use std::cmp::PartialEq;
use std::marker::Model;

/// One change of a unit, as its history keeps it.
///
/// Contracts see it as plain data: the numbers, and the operation that the act stands for.
#[derive(Debug, Drop)]
pub struct Entry {
    /// The number of the pass that made the change.
    pub pass: u16,
    /// The number of the job that the change is a part of.
    pub job: u32,
    /// What was done.
    pub act: Act,
}

impl Model for Entry {
    ghost use Rattle.nvm_store.specs.HistoryEntry.{HistoryEntry};
    ghost use Rattle.nvm_store.specs.Act.{operation_of};

    ghost Value = { HistoryEntry };

    ghost view = { λ e. record { pass = e.pass; job = e.job; operation = operation_of e.act } };
}

/// Two are equal where their numbers are, and their acts have the same ranges and the same data.
impl PartialEq for Entry {
    ghost use Rattle.std.proofs.Common.{rules};
    ghost use Rattle.std.specs.Cmp.Rules.{comparing};

    ghost eq = { same_entry };

    ghost laws = { Prim.search (comparing, rules) depth 12 };

    fn eq(&self, other: &Entry) -> bool
        ensures value { result ≡ same_entry self.now other.now }
        ensures same { IsTrue result ↔ (self.now ≡ other.now) }
    {
        self.pass == other.pass && self.job == other.job && self.act.is_same(&other.act)
    }
}

impl Eq for Entry {
    ghost use Rattle.std.proofs.Common.{rules};
    ghost use Rattle.std.specs.Cmp.Rules.{comparing};

    ghost laws = { Prim.search (comparing, rules) depth 12 };
}

/// A copy of the entry, which shares its data.
impl Clone for Entry {
    ghost is_clone = { λ entry copy. copy ≡ entry };

    fn clone(&self) -> Result<Entry, AllocError> {
        let act = self.act.clone()?;
        Ok(Entry {
            pass: self.pass,
            job: self.job,
            act,
        })
    }
}
