//! What a unit keeps of its history.
ghost use Rattle.std.specs.Prelude.{◌≡◌, ◌<◌, ◌-◌, ◌^◌, ◌++◌, List, [], ◌∷◌, length, take, IfOk, OnErr, OnOk};
ghost use Rattle.nvm_store.specs.ActRef.{lent_operation_of};
ghost use Rattle.nvm_store.specs.HistoryEntry.{HistoryEntry};

use nvm_record::NoMemory;
use nvm_store::{ActRef, Entry, History};
use std::alloc::Global;

/// What a unit keeps of its history's entries. Contracts see all of them, whatever is kept.
pub trait Kept: Drop {
    ghost told: { Self → List HistoryEntry };

    /// No entry. It takes no memory.
    fn nothing(alloc: Global) -> Self
        ensures { told result ≡ [] };

    /// Whether it keeps acts, which share their data with the blocks that they wrote where a payload shares it. No clause hangs on it: only where a
    /// unit's blocks are.
    fn keeps_acts() -> bool;

    /// The number of entries.
    fn entries(&self) -> u64
        ensures { result ≡ length (told self.now) };

    /// Keeps one entry more, or what is to be kept of it. A refusal leaves all as it was.
    fn keep(&mut self, alloc: Global, pass: u16, job: u32, act: ActRef<'_>) -> Result<(), NoMemory>
        requires few { length (told self.old) < 2 ^ 62 }
        ensures kept { OnOk result (told self.new ≡ told self.old ++ record { pass = pass; job = job; operation = lent_operation_of act.entry } ∷ []) }
        ensures same { OnErr result (told self.new ≡ told self.old) };

    /// Takes the last entry back. It takes no memory.
    fn take_back(&mut self)
        requires { 0 < length (told self.old) }
        ensures { told self.new ≡ take (length (told self.old) - 1) (told self.old) };
}

/// Every entry.
impl Kept for History {
    ghost told = { λ v. v.items };

    fn nothing(alloc: Global) -> History {
        Vec::new(alloc)
    }

    fn keeps_acts() -> bool {
        true
    }

    fn entries(&self) -> u64 {
        self.len() as u64
    }

    fn keep(
        &mut self,
        alloc: Global,
        pass: u16,
        job: u32,
        act: ActRef<'_>,
    ) -> Result<(), NoMemory> {
        self.reserve(1)?;
        let entry = Entry {
            pass,
            job,
            act: act.to_act(alloc)?,
        };
        self.push_reserved(entry);
        Ok(())
    }

    fn take_back(&mut self) {
        drop(self.take_last());
    }
}

/// A copy of the history, which shares its data, and whose room is reserved once.
pub(crate) fn copy_of(alloc: Global, history: &History) -> Result<History, NoMemory>
    ensures { IfOk result (λ v. v.items ≡ history.now.items) }
{
    let mut copies = Vec::with_capacity(alloc, history.len())?;
    for entry in history {
        copies.push(entry.clone()?)?;
    }
    Ok(copies)
}
