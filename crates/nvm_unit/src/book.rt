ghost use Rattle.std.specs.Prelude.{◌≡◌, [], ◌∷◌, ◌++◌, ◌<◌, ◌^◌, length, is_some, true, OnOk, OnErr};
ghost use Rattle.nvm_record.specs.Medium.{zero_medium};
ghost use Rattle.nvm_record.specs.Status.{IsSuccess};
ghost use Rattle.nvm_record.specs.Step.{statuses_of};
ghost use Rattle.nvm_store.specs.ActRef.{lent_operation_of};
ghost use Rattle.nvm_store.specs.Contents.{Holds, LiesAt};
ghost use Rattle.nvm_store.specs.Place.{IsCovered};
ghost use Rattle.nvm_store.specs.History.{replay_of};
ghost use Rattle.nvm_unit.specs.Inside.Snapshot.{IsSnapshotOf};

use crate::kept::Kept;
use crate::snapshot::Snapshot;
use nvm_record::{NoMemory, Statuses};
use nvm_store::laws::{replay_of_one_more, success_on_held};
use nvm_store::{ActRef, UnitBlocks, judge};
use std::alloc::Global;
use std::marker::Model;
use std::mem;

/// A unit's history, and the blocks to which it leads.
///
/// Contracts see where the unit lies, and the history.
#[derive(Drop)]
pub struct Book<K: Kept> {
    kept: K,
    blocks: UnitBlocks,
}

impl<K: Kept> Model for Book<K> {
    ghost use Rattle.nvm_store.specs.Contents.{Holds, place_of};
    ghost use Rattle.nvm_store.specs.History.{replay_of};
    ghost use Rattle.nvm_unit.specs.Inside.Book.{Recorded};

    ghost Value = { Recorded };

    ghost view = { λ b. record {
      place = place_of b.blocks;
      history = K.told b.kept;
    } };

    ghost invariant = { λ b. Holds b.blocks (replay_of b.blocks.size (K.told b.kept)) };
}

impl<K: Kept> Book<K> {
    /// The book of a unit whose blocks are all zero bytes. It has no entry, and takes no memory.
    pub fn new(alloc: Global, blocks: UnitBlocks) -> Book<K>
        requires { Holds blocks (zero_medium blocks.size) }
        ensures place { LiesAt result.place blocks }
        ensures history { result.history ≡ [] }
    {
        Book {
            kept: K::nothing(alloc),
            blocks,
        }
    }

    /// The number of entries.
    pub fn entries(&self) -> u64
        ensures { result ≡ length self.now.history }
    {
        self.kept.entries()
    }

    /// The statuses that the act completes with. It takes no memory.
    pub fn judge(&self, act: ActRef<'_>) -> Statuses
        requires { IsCovered self.now.place (lent_operation_of act) }
        ensures { result
            ≡ statuses_of (lent_operation_of act.entry) (replay_of self.now.place.size self.now.history) }
    {
        judge(&self.blocks, act)
    }

    /// The blocks.
    pub fn blocks(&self) -> &UnitBlocks
        ensures place { LiesAt self.now.place result.now }
        ensures holds { Holds result.now (replay_of self.now.place.size self.now.history) }
    {
        &self.blocks
    }

    /// Replaces a pass's snapshot by one of this book, unless it is that already. The old one is handed out, so that
    /// the caller can free its blocks once the unit is given back. It takes no memory.
    #[inline(always)]
    pub fn renew(&self, snapshot: &mut Snapshot, versions: bool) -> Option<Snapshot>
        requires seen { snapshot.old.entries ≡ length self.now.history → IsSnapshotOf snapshot.old self.now }
        requires kept { is_some snapshot.old.version ≡ true → versions ≡ true }
        ensures shown { IsSnapshotOf snapshot.new self.now }
        ensures kept { is_some snapshot.new.version ≡ true → versions ≡ true }
    {
        if !versions {
            snapshot.set_entries(self.kept.entries());
            return None;
        }
        if self.kept.entries() == snapshot.entries() && snapshot.keeps() {
            return None;
        }
        Some(mem::replace(snapshot, self.snapshot(versions)))
    }

    /// Makes it a snapshot of this book. One that has no version and wants none moves to another point, and nothing is freed. It takes no memory.
    #[inline(always)]
    pub fn show(&self, snapshot: &mut Snapshot, versions: bool)
        ensures shown { IsSnapshotOf snapshot.new self.now }
        ensures kept { is_some snapshot.new.version ≡ true → versions ≡ true }
    {
        if versions || snapshot.keeps() {
            *snapshot = self.snapshot(versions);
        } else {
            snapshot.set_entries(self.kept.entries());
        }
    }

    /// This book, as a pass keeps it. It takes no memory.
    pub fn snapshot(&self, versions: bool) -> Snapshot
        ensures shown { IsSnapshotOf result self.now }
        ensures kept { is_some result.version ≡ true → versions ≡ true }
    {
        Snapshot::of(self.kept.entries(), &self.blocks, versions)
    }

    /// Keeps the act's entry, and makes its step. Both may be refused: where the step is, the entry is taken back. An
    /// error leaves all as it was.
    pub fn add(
        &mut self,
        alloc: Global,
        pass: u16,
        job: u32,
        act: ActRef<'_>,
    ) -> Result<(), NoMemory>
        requires covered { IsCovered self.old.place (lent_operation_of act) }
        requires few { length self.old.history < 2 ^ 62 }
        requires success { IsSuccess (statuses_of (lent_operation_of act) (replay_of self.old.place.size self.old.history)) }
        ensures added { OnOk result (self.new ≡ record {
          place = self.old.place;
          history = self.old.history ++ record { pass = pass; job = job; operation = lent_operation_of act.entry } ∷ [];
        }) }
        ensures same { OnErr result (self.new ≡ self.old) }
    {
        success_on_held();
        replay_of_one_more();
        self.kept.keep(alloc, pass, job, act)?;
        if let Err(refused) = self.blocks.change(alloc, act) {
            self.kept.take_back();
            return Err(refused);
        }
        Ok(())
    }

    /// What is kept of the history.
    pub fn kept(&self) -> &K
        ensures { K.told result.now ≡ self.now.history }
    {
        &self.kept
    }

    /// What is kept of the history, alone. It takes no memory.
    pub fn into_kept(self) -> K
        ensures { K.told result ≡ self.history }
    {
        let Book { kept, blocks: _ } = self;
        kept
    }
}
