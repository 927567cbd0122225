//! The calls that bring passes up to the history.
ghost use Rattle.std.specs.Prelude.{◌≡◌, IfOk, is_some, length, true, false};
ghost use Rattle.nvm_unit.specs.Inside.Parts.{HasUnit, IsWhole, Recalls, held_history, seated, state_of};
ghost use Rattle.nvm_unit.specs.Passes.{IsPassOf, IsProperPass};
ghost use Rattle.nvm_unit.specs.Replies.{IsBroughtUp, Meet};
ghost use Rattle.nvm_unit.specs.Views.{shown};

use crate::kept::{Kept, copy_of};
use crate::pass::{Parts, Pass};
use crate::rule::Never;
use crate::unit::Unit;
use nvm_record::NoMemory;
use nvm_store::History;
use std::alloc::Global;
use std::sync::Wait;

impl<K: Kept> Unit<K> {
    /// Brings the pass to the history that it finds. It waits for the unit, and takes no memory.
    pub fn refresh<R: Wait>(&self, rt: &R, pass: &mut Pass<K>)
        requires { IsPassOf self.now pass.old }
        ensures of { IsPassOf self.now pass.new }
        ensures number { pass.new.view.number ≡ pass.old.view.number }
        ensures up { IsBroughtUp pass.old.view pass.new.view }
        ensures proper { IsProperPass pass.new.view }
    {
        self.take(rt, &mut pass.parts.token);
        self.leave(&mut pass.parts);
        self.wake();
    }

    /// Brings the pass up to the book in its slot and gives the unit back, so that the parts are a pass again. It leaves no
    /// mark, and wakes nobody.
    fn leave(&self, parts: &mut Parts<K>)
        requires at { parts.old.token.seat.table_id ≡ self.now.table }
        requires has { HasUnit self.now parts.old.token.seat.me }
        requires numbered { parts.old.number ≡ (seated parts.old.token.seat.me).number }
        requires recalls { Recalls parts.old.snapshot (seated parts.old.token.seat.me) }
        requires kept { is_some parts.old.snapshot.version ≡ true → self.now.versions ≡ true }
        ensures of { IsPassOf self.now (state_of parts.new) }
        ensures whole { IsWhole parts.new }
        ensures shown { seated parts.new.token.seat.me
            ≡ shown false (length (held_history parts.old.token.seat.me)) (held_history parts.old.token.seat.me)
            (seated parts.old.token.seat.me) }
    {
        let book = parts.token.book_mut(&self.latch.desk);
        let old = book.renew(&mut parts.snapshot, self.versions);
        let entries = book.entries();
        self.give_back::<Never>(&mut parts.token, entries);
        drop(old);
    }

    /// Brings both passes to one history, so that what either had seen is in it. It waits for the
    /// unit, and takes no memory.
    pub fn meet<R: Wait>(&self, rt: &R, one: &mut Pass<K>, other: &mut Pass<K>)
        requires one { IsPassOf self.now one.old }
        requires other { IsPassOf self.now other.old }
        ensures one { IsPassOf self.now one.new }
        ensures other { IsPassOf self.now other.new }
        ensures number { one.new.view.number ≡ one.old.view.number }
        ensures other_number { other.new.view.number ≡ other.old.view.number }
        ensures met { Meet one.old.view other.old.view one.new.view other.new.view }
        ensures one_proper { IsProperPass one.new.view }
        ensures other_proper { IsProperPass other.new.view }
    {
        let (mine, yours) = self.latch.meet(
            rt,
            &mut one.parts.token,
            &mut other.parts.token,
            self.versions,
        );
        one.parts.snapshot = mine;
        other.parts.snapshot = yours;
    }
}

impl Unit {
    /// Brings the pass to the history that it finds, and gives a copy of it. It waits for the unit. Where
    /// memory is refused, the pass is brought up nevertheless.
    pub fn history<R: Wait>(
        &self,
        rt: &R,
        alloc: Global,
        pass: &mut Pass,
    ) -> Result<History, NoMemory>
        requires { IsPassOf self.now pass.old }
        ensures of { IsPassOf self.now pass.new }
        ensures number { pass.new.view.number ≡ pass.old.view.number }
        ensures up { IsBroughtUp pass.old.view pass.new.view }
        ensures proper { IsProperPass pass.new.view }
        ensures seen { IfOk result (λ v. v.items ≡ pass.new.view.seen) }
    {
        let token = &mut pass.parts.token;
        self.take(rt, token);
        let copy = copy_of(alloc, token.book_mut(&self.latch.desk).kept());
        self.leave(&mut pass.parts);
        self.wake();
        copy
    }
}
