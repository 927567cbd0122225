//! How one pass takes its unit and gives it back.
ghost use Rattle.std.specs.Prelude.{◌≡◌, ◌+◌, ◌*◌, ℕ, IfErr, OnOk, length};
ghost use Rattle.nvm_unit.specs.Inside.Parts.{FailsAt, HasUnit, IsFree, held_history, seated};
ghost use Rattle.nvm_unit.specs.Replies.{Learns, Waits};
ghost use Rattle.nvm_unit.specs.Views.{shown};

use crate::kept::Kept;
use crate::rule::{Always, Decides};
use crate::steps;
use crate::steps::Token;
use crate::unit::Unit;
use std::sync::Wait;

impl<K: Kept> Unit<K> {
    /// Waits until the token has the unit.
    pub(crate) fn take<R: Wait>(&self, rt: &R, token: &mut Token<K>)
        requires at { token.old.seat.table_id ≡ self.now.table }
        requires free { IsFree self.now token.old.seat.me }
        ensures at { token.new.seat.table_id ≡ token.old.seat.table_id }
        ensures has { HasUnit self.now token.new.seat.me }
        ensures waited { Waits (seated token.old.seat.me) (seated token.new.seat.me) }
    {
        self.latch.hold(rt, token);
    }

    /// Takes the unit if nobody has it. Else the error is the word that was in the way, and `D` says whether the
    /// caller's answer rests on it.
    pub(crate) fn take_if_free<D: Decides>(&self, token: &mut Token<K>) -> Result<(), u64>
        requires at { token.old.seat.table_id ≡ self.now.table }
        requires free { IsFree self.now token.old.seat.me }
        ensures at { token.new.seat.table_id ≡ token.old.seat.table_id }
        ensures has { OnOk result (HasUnit self.now token.new.seat.me) }
        ensures waited { OnOk result (Waits (seated token.old.seat.me) (seated token.new.seat.me)) }
        ensures free { IfErr result (λ word. IsFree self.now token.new.seat.me) }
        ensures failed { IfErr result (λ word. FailsAt word D.decides (seated token.old.seat.me) (seated token.new.seat.me)) }
    {
        self.latch.try_hold::<D>(token)
    }

    /// Wakes one of those who wait for the unit, if somebody does.
    pub(crate) fn wake(&self) {
        self.latch.wake();
    }

    /// Gives the unit back unchanged, with as many entries as it has. It wakes nobody.
    pub(crate) fn give_back<D: Decides>(&self, token: &mut Token<K>, entries: u64)
        requires at { token.old.seat.table_id ≡ self.now.table }
        requires has { HasUnit self.now token.old.seat.me }
        requires count { entries ≡ length (held_history token.old.seat.me) }
        ensures at { token.new.seat.table_id ≡ token.old.seat.table_id }
        ensures free { IsFree self.now token.new.seat.me }
        ensures shown { seated token.new.seat.me
            ≡ shown (D.decides (2 * entries + 1)) entries (held_history token.old.seat.me) (seated token.old.seat.me) }
    {
        steps::put::<K, D>(&self.latch.desk, token, entries);
    }

    /// The number of entries in the history at this moment, as a step on which the caller's answer rests.
    pub(crate) fn count(&self, token: &mut Token<K>) -> u64
        requires at { token.old.seat.table_id ≡ self.now.table }
        requires free { IsFree self.now token.old.seat.me }
        ensures at { token.new.seat.table_id ≡ token.old.seat.table_id }
        ensures free { IsFree self.now token.new.seat.me }
        ensures learns { Learns result (seated token.old.seat.me) (seated token.new.seat.me) }
    {
        steps::load::<K, Always>(&self.latch.desk, token) / 2
    }
}
