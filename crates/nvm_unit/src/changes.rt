//! The calls that change a unit.
ghost use Rattle.std.specs.Prelude.{◌≡◌, IfErr, IfOk, MatchOption, OnErr};
ghost use Rattle.nvm_store.specs.ActRef.{lent_operation_of};
ghost use Rattle.nvm_store.specs.Place.{IsCovered};
ghost use Rattle.nvm_unit.specs.Inside.Parts.{FailsAt, HasUnit, IsWhole, seated, state_of};
ghost use Rattle.nvm_unit.specs.Passes.{IsPassOf, IsProperPass};
ghost use Rattle.nvm_unit.specs.Replies.{Makes, MakesOrLearns, Waits};

use crate::attempt::attempt;
use crate::gate::Gate;
use crate::kept::Kept;
use crate::pass::{Parts, Pass};
use crate::replies::{Busy, Changed};
use crate::rule::{Always, Decides, Never};
use crate::steps;
use crate::unit::Unit;
use nvm_store::ActRef;
use nvm_store::laws::{acts_and_looks, lawful_with_one_more};
use std::alloc::Global;
use std::sync::Wait;

impl<K: Kept> Unit<K> {
    /// Does the act, as one step of the unit, unless it is a pair whose comparison fails, the history is
    /// at its limit, or memory is refused. The gate is called once, while the unit is held. It waits for the
    /// unit.
    pub fn change<R: Wait, G: Gate>(
        &self,
        rt: &R,
        alloc: Global,
        pass: &mut Pass<K>,
        job: u32,
        act: ActRef<'_>,
        gate: &G,
    ) -> Changed
        requires of { IsPassOf self.now pass.old }
        requires covered { IsCovered self.now.bounds.place (lent_operation_of act) }
        ensures of { IsPassOf self.now pass.new }
        ensures number { pass.new.view.number ≡ pass.old.view.number }
        ensures made { Makes result pass.old.view job (lent_operation_of act.entry) pass.new.view }
        ensures proper { IsProperPass pass.new.view }
    {
        // Each answer brings a new snapshot, so the old version goes before anybody has to wait for it.
        pass.parts.snapshot.drop_version();
        self.take(rt, &mut pass.parts.token);
        let changed = self.change_held(alloc, &mut pass.parts, job, act, gate);
        self.wake();
        changed
    }

    /// A [`change`](Unit::change) that gives up at once where it would wait: another pass has the unit, or takes it
    /// between the load and the exchange that are made here. `Busy` says so, and the unit was not touched. Only a
    /// change that gets the unit calls the gate.
    pub fn try_change<G: Gate>(
        &self,
        alloc: Global,
        pass: &mut Pass<K>,
        job: u32,
        act: ActRef<'_>,
        gate: &G,
    ) -> Result<Changed, Busy>
        requires of { IsPassOf self.now pass.old }
        requires covered { IsCovered self.now.bounds.place (lent_operation_of act) }
        ensures of { IsPassOf self.now pass.new }
        ensures number { pass.new.view.number ≡ pass.old.view.number }
        ensures keeps { OnErr result (pass.new.keeps ≡ pass.old.keeps) }
        ensures made { MakesOrLearns result pass.old.view job (lent_operation_of act.entry) pass.new.view }
        ensures proper { IsProperPass pass.new.view }
    {
        match self.change_if_free::<Always, G>(alloc, pass, job, act, gate) {
            Ok(changed) => {
                self.wake();
                Ok(changed)
            }
            Err(word) => Err(Busy { word }),
        }
    }

    /// A [`change`](Unit::change) in pieces, for callers that may not wait: `None` says that the unit was not free,
    /// and the same call can be made again. All calls of one change leave one mark together, which is that of the last. Only
    /// the last calls the gate.
    #[inline(always)]
    pub fn poll_change<G: Gate>(
        &self,
        alloc: Global,
        pass: &mut Pass<K>,
        job: u32,
        act: ActRef<'_>,
        gate: &G,
    ) -> Option<Changed>
        requires of { IsPassOf self.now pass.old }
        requires covered { IsCovered self.now.bounds.place (lent_operation_of act) }
        ensures of { IsPassOf self.now pass.new }
        ensures number { pass.new.view.number ≡ pass.old.view.number }
        ensures made { MatchOption result (Waits pass.old.view pass.new.view)
            (λ changed. Makes changed pass.old.view job (lent_operation_of act.entry) pass.new.view) }
        ensures proper { IsProperPass pass.new.view }
    {
        match self.change_if_free::<Never, G>(alloc, pass, job, act, gate) {
            Ok(changed) => {
                gate.after_put(self);
                Some(changed)
            }
            Err(_) => None,
        }
    }

    /// Makes the change if the unit is free. Else the error is the word that was found, and the pass keeps what it has.
    fn change_if_free<D: Decides, G: Gate>(
        &self,
        alloc: Global,
        pass: &mut Pass<K>,
        job: u32,
        act: ActRef<'_>,
        gate: &G,
    ) -> Result<Changed, u64>
        requires of { IsPassOf self.now pass.old }
        requires covered { IsCovered self.now.bounds.place (lent_operation_of act) }
        ensures of { IsPassOf self.now pass.new }
        ensures number { pass.new.view.number ≡ pass.old.view.number }
        ensures keeps { OnErr result (pass.new.keeps ≡ pass.old.keeps) }
        ensures made { IfOk result (λ changed. Makes changed pass.old.view job (lent_operation_of act.entry) pass.new.view) }
        ensures failed { IfErr result (λ word. FailsAt word D.decides pass.old.view pass.new.view) }
        ensures proper { IsProperPass pass.new.view }
    {
        self.take_if_free::<D>(&mut pass.parts.token)?;
        // A version that is still kept would have the change copy its blocks.
        pass.parts.snapshot.drop_version();
        Ok(self.change_held(alloc, &mut pass.parts, job, act, gate))
    }

    /// Does the act on the book in its slot and gives the unit back, so that the parts are a pass again. It wakes nobody.
    fn change_held<G: Gate>(
        &self,
        alloc: Global,
        parts: &mut Parts<K>,
        job: u32,
        act: ActRef<'_>,
        gate: &G,
    ) -> Changed
        requires at { parts.old.token.seat.table_id ≡ self.now.table }
        requires has { HasUnit self.now parts.old.token.seat.me }
        requires numbered { parts.old.number ≡ (seated parts.old.token.seat.me).number }
        requires covered { IsCovered self.now.bounds.place (lent_operation_of act) }
        ensures of { IsPassOf self.now (state_of parts.new) }
        ensures whole { IsWhole parts.new }
        ensures made { Makes result (seated parts.old.token.seat.me) job (lent_operation_of act.entry)
            (seated parts.new.token.seat.me) }
    {
        lawful_with_one_more();
        acts_and_looks();
        let book = parts.token.book_mut(&self.latch.desk);
        let changed = attempt(alloc, book, self.bounds.limit, parts.number, job, act);
        gate.before_put(self.number, job);
        book.show(&mut parts.snapshot, self.versions);
        let entries = book.entries();
        steps::put::<K, Always>(&self.latch.desk, &mut parts.token, entries);
        changed
    }
}
