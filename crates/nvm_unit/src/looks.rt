//! The calls that read a unit's blocks.
ghost use Rattle.std.specs.Prelude.{◌≡◌, MatchOption, is_some, length, true};
ghost use Rattle.nvm_store.specs.Answer.{IsAnswerInto, IsRoomFor};
ghost use Rattle.nvm_store.specs.History.{replay_of};
ghost use Rattle.nvm_store.specs.Look.{look_operation_of};
ghost use Rattle.nvm_store.specs.Place.{IsCovered};
ghost use Rattle.nvm_unit.specs.Inside.Parts.{HasUnit, IsFree, IsWhole, Recalls, held_history, seated, state_of};
ghost use Rattle.nvm_unit.specs.Inside.Book.{recorded};
ghost use Rattle.nvm_unit.specs.Inside.Snapshot.{IsSnapshotOf};
ghost use Rattle.nvm_unit.specs.Passes.{IsPassOf, IsProperPass};
ghost use Rattle.nvm_unit.specs.Replies.{AnswersLook, Looks, Observes, ObservesInto, Waits};
ghost use Rattle.nvm_unit.specs.Views.{shown};

use crate::attempt::{looked, observed};
use crate::gate::Gate;
use crate::kept::Kept;
use crate::pass::{Parts, Pass};
use crate::replies::{LookFault, ObserveFault, Observed, ObservedStatus};
use crate::rule::{Always, Never};
use crate::snapshot::Snapshot;
use crate::steps::Token;
use crate::unit::Unit;
use nvm_store::{Look, answer_into};
use std::alloc::Global;
use std::sync::Wait;

impl<K: Kept> Unit<K> {
    /// What the look is answered, as one step of the unit. It waits for the unit.
    pub fn observe<R: Wait>(
        &self,
        rt: &R,
        alloc: Global,
        pass: &mut Pass<K>,
        look: Look<'_>,
    ) -> Result<Observed, ObserveFault>
        requires of { IsPassOf self.now pass.old }
        requires covered { IsCovered self.now.bounds.place (look_operation_of look) }
        ensures of { IsPassOf self.now pass.new }
        ensures number { pass.new.view.number ≡ pass.old.view.number }
        ensures observed { Observes result pass.old.view (look_operation_of look.entry) pass.new.view }
        ensures proper { IsProperPass pass.new.view }
    {
        self.take(rt, &mut pass.parts.token);
        let answer = self.observe_held(alloc, &mut pass.parts, look);
        self.wake();
        answer
    }

    /// An [`observe`](Unit::observe) in pieces, for callers that may not wait: `None` says that the unit was not free,
    /// and the same call can be made again. All calls of one look leave one mark together, which is that of the last.
    #[inline(always)]
    pub fn poll_observe<G: Gate>(
        &self,
        alloc: Global,
        pass: &mut Pass<K>,
        look: Look<'_>,
        gate: &G,
    ) -> Option<Result<Observed, ObserveFault>>
        requires of { IsPassOf self.now pass.old }
        requires covered { IsCovered self.now.bounds.place (look_operation_of look) }
        ensures of { IsPassOf self.now pass.new }
        ensures number { pass.new.view.number ≡ pass.old.view.number }
        ensures observed { MatchOption result (Waits pass.old.view pass.new.view)
            (λ answer. Observes answer pass.old.view (look_operation_of look.entry) pass.new.view) }
        ensures proper { IsProperPass pass.new.view }
    {
        match self.take_if_free::<Never>(&mut pass.parts.token) {
            Ok(()) => {
                let answer = self.observe_held(alloc, &mut pass.parts, look);
                gate.after_put(self);
                Some(answer)
            }
            Err(_) => None,
        }
    }

    /// A [`poll_observe`](Unit::poll_observe) whose answer takes no memory: the data of a Read whose status is 0/00 is in the buffer, which
    /// has its length. Else the buffer is as it was.
    #[inline(always)]
    pub fn poll_observe_into<G: Gate>(
        &self,
        pass: &mut Pass<K>,
        look: Look<'_>,
        buffer: &mut [u8],
        gate: &G,
    ) -> Option<ObservedStatus>
        requires of { IsPassOf self.now pass.old }
        requires covered { IsCovered self.now.bounds.place (look_operation_of look) }
        requires room { IsRoomFor (look_operation_of look) self.now.bounds.place.size buffer.old }
        ensures of { IsPassOf self.now pass.new }
        ensures number { pass.new.view.number ≡ pass.old.view.number }
        ensures observed { MatchOption result (Waits pass.old.view pass.new.view × (buffer.new ≡ buffer.old))
            (λ answer. ObservesInto answer buffer.old buffer.new pass.old.view (look_operation_of look.entry) pass.new.view) }
        ensures proper { IsProperPass pass.new.view }
    {
        match self.take_if_free::<Never>(&mut pass.parts.token) {
            Ok(()) => {
                let answer = self.observe_held_into(&mut pass.parts, look, buffer);
                gate.after_put(self);
                Some(answer)
            }
            Err(_) => None,
        }
    }

    /// Answers the look at the book in its slot and gives the unit back, so that the parts are a pass again. It wakes nobody.
    fn observe_held(
        &self,
        alloc: Global,
        parts: &mut Parts<K>,
        look: Look<'_>,
    ) -> Result<Observed, ObserveFault>
        requires at { parts.old.token.seat.table_id ≡ self.now.table }
        requires has { HasUnit self.now parts.old.token.seat.me }
        requires numbered { parts.old.number ≡ (seated parts.old.token.seat.me).number }
        requires recalls { Recalls parts.old.snapshot (seated parts.old.token.seat.me) }
        requires kept { is_some parts.old.snapshot.version ≡ true → self.now.versions ≡ true }
        requires covered { IsCovered self.now.bounds.place (look_operation_of look) }
        ensures of { IsPassOf self.now (state_of parts.new) }
        ensures whole { IsWhole parts.new }
        ensures observed { Observes result (seated parts.old.token.seat.me) (look_operation_of look.entry)
            (seated parts.new.token.seat.me) }
    {
        let book = parts.token.book_mut(&self.latch.desk);
        let old = book.renew(&mut parts.snapshot, self.versions);
        let answer = self.answer_held(alloc, &mut parts.token, &parts.snapshot, look);
        drop(old);
        answer
    }

    /// Answers the look and gives the unit back. With a version in the snapshot others needn't wait for the answer: it is
    /// read there once the unit is free again.
    fn answer_held(
        &self,
        alloc: Global,
        token: &mut Token<K>,
        snapshot: &Snapshot,
        look: Look<'_>,
    ) -> Result<Observed, ObserveFault>
        requires at { token.old.seat.table_id ≡ self.now.table }
        requires has { HasUnit self.now token.old.seat.me }
        requires covered { IsCovered self.now.bounds.place (look_operation_of look) }
        requires snapshot { IsSnapshotOf snapshot.now (recorded self.now.bounds (held_history token.old.seat.me)) }
        ensures at { token.new.seat.table_id ≡ token.old.seat.table_id }
        ensures free { IsFree self.now token.new.seat.me }
        ensures shown { seated token.new.seat.me
            ≡ shown true (length (held_history token.old.seat.me)) (held_history token.old.seat.me) (seated token.old.seat.me) }
        ensures answer { AnswersLook result (length (held_history token.old.seat.me)) (look_operation_of look.entry)
            (replay_of self.now.bounds.place.size (held_history token.old.seat.me)) }
    {
        let point = snapshot.entries();
        match snapshot.version() {
            Some(version) => {
                self.give_back::<Always>(token, point);
                observed(alloc, point, version, look)
            }
            None => {
                let book = token.book_mut(&self.latch.desk);
                let answer = observed(alloc, point, book.blocks(), look);
                self.give_back::<Always>(token, point);
                answer
            }
        }
    }

    /// What [`observe_held`](Unit::observe_held) does, with a Read's data in the buffer.
    #[inline(always)]
    fn observe_held_into(
        &self,
        parts: &mut Parts<K>,
        look: Look<'_>,
        buffer: &mut [u8],
    ) -> ObservedStatus
        requires at { parts.old.token.seat.table_id ≡ self.now.table }
        requires has { HasUnit self.now parts.old.token.seat.me }
        requires numbered { parts.old.number ≡ (seated parts.old.token.seat.me).number }
        requires recalls { Recalls parts.old.snapshot (seated parts.old.token.seat.me) }
        requires kept { is_some parts.old.snapshot.version ≡ true → self.now.versions ≡ true }
        requires covered { IsCovered self.now.bounds.place (look_operation_of look) }
        requires room { IsRoomFor (look_operation_of look) self.now.bounds.place.size buffer.old }
        ensures of { IsPassOf self.now (state_of parts.new) }
        ensures whole { IsWhole parts.new }
        ensures observed { ObservesInto result buffer.old buffer.new (seated parts.old.token.seat.me) (look_operation_of look.entry)
            (seated parts.new.token.seat.me) }
    {
        let book = parts.token.book_mut(&self.latch.desk);
        let old = book.renew(&mut parts.snapshot, self.versions);
        let answer = self.answer_held_into(&mut parts.token, &parts.snapshot, look, buffer);
        drop(old);
        answer
    }

    /// What [`answer_held`](Unit::answer_held) does, with a Read's data in the buffer.
    #[inline(always)]
    fn answer_held_into(
        &self,
        token: &mut Token<K>,
        snapshot: &Snapshot,
        look: Look<'_>,
        buffer: &mut [u8],
    ) -> ObservedStatus
        requires at { token.old.seat.table_id ≡ self.now.table }
        requires has { HasUnit self.now token.old.seat.me }
        requires covered { IsCovered self.now.bounds.place (look_operation_of look) }
        requires room { IsRoomFor (look_operation_of look) self.now.bounds.place.size buffer.old }
        requires snapshot { IsSnapshotOf snapshot.now (recorded self.now.bounds (held_history token.old.seat.me)) }
        ensures at { token.new.seat.table_id ≡ token.old.seat.table_id }
        ensures free { IsFree self.now token.new.seat.me }
        ensures shown { seated token.new.seat.me
            ≡ shown true (length (held_history token.old.seat.me)) (held_history token.old.seat.me) (seated token.old.seat.me) }
        ensures point { result.point ≡ length (held_history token.old.seat.me) }
        ensures answer { IsAnswerInto (look_operation_of look.entry) (replay_of self.now.bounds.place.size (held_history token.old.seat.me))
            result.status buffer.old buffer.new }
    {
        let point = snapshot.entries();
        match snapshot.version() {
            Some(version) => {
                self.give_back::<Always>(token, point);
                let status = answer_into(version, look, buffer);
                ObservedStatus { point, status }
            }
            None => {
                let book = token.book_mut(&self.latch.desk);
                let status = answer_into(book.blocks(), look, buffer);
                self.give_back::<Always>(token, point);
                ObservedStatus { point, status }
            }
        }
    }

    /// What the look is answered from the version that the pass keeps, as long as nothing has changed since. One load
    /// shows whether that is so, and it doesn't matter who has the unit. It waits for nothing.
    pub fn look(
        &self,
        alloc: Global,
        pass: &mut Pass<K>,
        look: Look<'_>,
    ) -> Result<Observed, LookFault>
        requires of { IsPassOf self.now pass.old }
        requires covered { IsCovered self.now.bounds.place (look_operation_of look) }
        requires versions { self.now.versions ≡ true }
        ensures of { IsPassOf self.now pass.new }
        ensures number { pass.new.view.number ≡ pass.old.view.number }
        ensures keeps { pass.new.keeps ≡ pass.old.keeps }
        ensures looked { Looks result pass.old.keeps pass.old.view (look_operation_of look.entry) pass.new.view }
        ensures proper { IsProperPass pass.new.view }
    {
        let count = self.count(&mut pass.parts.token);
        looked(alloc, &pass.parts.snapshot, count, look)
    }
}
