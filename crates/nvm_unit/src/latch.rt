ghost use Rattle.std.specs.Prelude.{◌≡◌, ℕ, ◌^◌, ◌<◌, ◌≤◌, [], ◌∷◌, length, is_some, true, OnOk, IfErr};
ghost use Rattle.nvm_unit.specs.Inside.Seats.{only};
ghost use Rattle.nvm_unit.specs.Inside.Plays.{resting, Takes};
ghost use Rattle.nvm_unit.specs.Inside.Holding.{HasMissed, HasMet};

use crate::kept::Kept;
use crate::rule::{Decides, IfHeld, Never};
use crate::snapshot::Snapshot;
use crate::steps;
use crate::steps::{Desk, Token};
use std::sync::Wait;
use std::sync::atomic::{AtomicU64, Ordering};
use std::{mem, thread};

/// How many times a thread yields before it sleeps.
const YIELDS: u32 = 16;

/// A unit's table, and how many threads sleep until it is put back.
#[derive(Drop)]
pub struct Latch<K: Kept> {
    pub(crate) desk: Desk<K>,
    sleepers: AtomicU64,
}

impl<K: Kept> Latch<K> {
    /// The latch of a table on which nobody sleeps yet.
    pub(crate) fn new(desk: Desk<K>) -> Latch<K>
        ensures { result.desk ≡ desk }
    {
        Latch {
            desk,
            sleepers: AtomicU64::new(0),
        }
    }

    /// The table alone.
    pub(crate) fn into_desk(self) -> Desk<K>
        ensures { result ≡ self.desk }
    {
        let Latch { desk, sleepers: _ } = self;
        desk
    }

    /// Lets others go on for a while, since the word was this one: first by yielding, and then by
    /// sleeping.
    fn pause<R: Wait>(&self, rt: &R, turns: u32, word: u64) {
        if turns < YIELDS {
            thread::yield_now();
        } else {
            self.sleepers.fetch_add(1, Ordering::SeqCst);
            steps::sleep(&self.desk, rt, word);
            self.sleepers.fetch_sub(1, Ordering::SeqCst);
        }
    }

    /// Takes the unit if that needs no wait. A load comes first, so that a word of a unit that is taken costs no exchange; an
    /// exchange follows an even word. The error is the last word that was found, and `D` says whether an answer rests on it.
    pub(crate) fn try_hold<D: Decides>(&self, token: &mut Token<K>) -> Result<(), u64>
        requires at { token.old.seat.table_id ≡ self.now.desk.table.shared.table_id }
        requires rests { token.old.seat.me.1 ≡ [] }
        requires filled { 0 < length token.old.seat.me.0.passes }
        requires alone { (word : ℕ) → D.decides word ≡ true → length token.old.seat.me.0.passes ≡ 1 }
        ensures at { token.new.seat.table_id ≡ token.old.seat.table_id }
        ensures held { OnOk result (Takes token.old.seat.me token.new.seat.me) }
        ensures missed { IfErr result (λ word. HasMissed D.decides word token.old.seat.me token.new.seat.me) }
    {
        let word = steps::load::<K, IfHeld<D>>(&self.desk, token);
        if word % 2 == 1 {
            return Err(word);
        }
        let found = steps::take::<K, D>(&self.desk, token, word);
        if found != word {
            return Err(found);
        }
        Ok(())
    }

    /// Takes the unit. It tries again at once where another pass was quicker, and pauses where one has the unit.
    pub(crate) fn hold<R: Wait>(&self, rt: &R, token: &mut Token<K>)
        requires at { token.old.seat.table_id ≡ self.now.desk.table.shared.table_id }
        requires rests { token.old.seat.me.1 ≡ [] }
        requires filled { 0 < length token.old.seat.me.0.passes }
        ensures at { token.new.seat.table_id ≡ token.old.seat.table_id }
        ensures held { Takes token.old.seat.me token.new.seat.me }
    {
        let mut turns = 0;
        for _ in rt.forever() {
            match self.try_hold::<Never>(token) {
                Ok(()) => return,
                Err(word) => {
                    if word % 2 == 1 {
                        self.pause(rt, turns, word);
                        turns = turns.saturating_add(1);
                    }
                }
            }
        }
        unreachable!()
    }

    /// One step shows both passes the same history. Hands out a snapshot of it for each.
    pub(crate) fn meet<R: Wait>(
        &self,
        rt: &R,
        one: &mut Token<K>,
        other: &mut Token<K>,
        versions: bool,
    ) -> (Snapshot, Snapshot)
        requires one { one.old.seat.table_id ≡ self.now.desk.table.shared.table_id }
        requires other { other.old.seat.table_id ≡ self.now.desk.table.shared.table_id }
        requires one_rests { one.old.seat.me ≡ resting (only one.old.seat.me.0.passes ∷ []) }
        requires other_rests { other.old.seat.me ≡ resting (only other.old.seat.me.0.passes ∷ []) }
        requires limit { (only one.old.seat.me.0.passes).bounds.limit ≤ 2 ^ 62 }
        ensures one { one.new.seat.table_id ≡ one.old.seat.table_id }
        ensures other { other.new.seat.table_id ≡ other.old.seat.table_id }
        ensures met { HasMet result.0 result.1 (only one.old.seat.me.0.passes) (only other.old.seat.me.0.passes)
            one.new.seat.me other.new.seat.me }
        ensures kept { is_some result.0.version ≡ true → versions ≡ true }
        ensures other_kept { is_some result.1.version ≡ true → versions ≡ true }
    {
        let spare = steps::split(&self.desk, one);
        let joining = mem::replace(other, spare);
        steps::join(&self.desk, one, joining);
        self.hold(rt, one);
        let book = one.book_mut(&self.desk);
        let snapshots = (book.snapshot(versions), book.snapshot(versions));
        let entries = book.entries();
        steps::put::<K, Never>(&self.desk, one, entries);
        self.wake();
        *other = steps::split(&self.desk, one);
        snapshots
    }

    /// Wakes one of those who sleep, if somebody does.
    pub(crate) fn wake(&self) {
        if self.sleepers.load(Ordering::SeqCst) > 0 {
            steps::wake(&self.desk);
        }
    }
}
