//! The atomic steps on a unit's word. They alone have the table and its seats, so nothing else writes what
//! a pass knows.
ghost use Rattle.std.specs.Prelude.{◌≡◌, ◌≢◌, ◌⊎◌, ℕ, ◌+◌, ◌*◌, ◌%◌, ◌^◌, ◌<◌, List, [], ◌∷◌, ◌++◌, length, take, drop, true, false, Some, None, IfOk};
ghost use Rattle.nvm_store.specs.HistoryEntry.{HistoryEntry};
ghost use Rattle.nvm_unit.specs.declared.bounds.Bounds.{Bounds as UnitBounds};
ghost use Rattle.nvm_unit.specs.declared.views.PassView.{PassView as View};
ghost use Rattle.nvm_unit.specs.declared.views.Group.{Group as Carried};
ghost use Rattle.nvm_unit.specs.Inside.Book.{Recorded, recorded};
ghost use Rattle.nvm_unit.specs.Events.{loads, takes, misses};
ghost use Rattle.nvm_unit.specs.Ends.{IsWholeHistory, HasCome};
ghost use Rattle.nvm_unit.specs.Inside.Seats.{AreAllViews};
ghost use Rattle.nvm_unit.specs.Machine.{newcomers};
ghost use Rattle.nvm_unit.specs.Inside.Plays.{resting, holding, HasLooked, WasEvent, WasPut, Takes, ReturnsAs, AddsAs, CanReturn, CanAppend};

use crate::book::Book;
use crate::bounds::Bounds;
use crate::kept::Kept;
use crate::rule::{Decides, FirstStays, Looks, Never, Puts, Together, Tries, UnitRule};
use crate::views::Group;
use atomic_table::{Refused, Seat, Table};
use nvm_record::NoMemory;
use nvm_store::laws::lawful_with_one_more;
use std::alloc::{AllocError, Global};
use std::sync::Wait;

/// The table of one unit: its word, and the slot that has its book.
#[derive(Drop)]
pub struct Desk<K: Kept> {
    table: Table<Option<Book<K>>, Group, Bounds, UnitRule, Global>,
    ghost sized: { (table.shared.table_id.words ≡ 1) × (table.shared.table_id.slots ≡ 1) },
}

/// A seat at a unit's table. It has no bytes.
#[derive(Drop)]
pub struct Token<K: Kept> {
    seat: Seat<Option<Book<K>>, Group>,
}

impl<K: Kept> Token<K> {
    ghost use Rattle.std.specs.Borrow.{sem};
    ghost use Rattle.nvm_unit.specs.Inside.Lending.{lends_book};

    /// The book, in its slot. The seat holds the unit.
    pub fn book_mut<'a>(&'a mut self, desk: &'a Desk<K>) -> &'a mut Book<K>
        requires at { self.old.seat.table_id ≡ desk.now.table.shared.table_id }
        requires held { (ps : List View) × (history : List HistoryEntry) × (book : Recorded)
            × (self.old.seat.me ≡ holding ps history book) }
        ensures* writes_back { sem 𝓛 (lends_book K.row K.Kept self.entry result) }
        ensures value { self.old.seat.me.1 ≡ (0, Some result.now) ∷ [] }
    {
        match self.seat.slot_mut(&desk.table.shared, 0) {
            Some(book) => book,
            None => unreachable!(),
        }
    }
}

/// Loads the word, and gives it.
pub fn load<K: Kept, D: Decides>(desk: &Desk<K>, token: &mut Token<K>) -> u64
    requires at { token.old.seat.table_id ≡ desk.now.table.shared.table_id }
    requires filled { 0 < length token.old.seat.me.0.passes }
    requires alone { (word : ℕ) → D.decides word ≡ true → length token.old.seat.me.0.passes ≡ 1 }
    ensures at { token.new.seat.table_id ≡ token.old.seat.table_id }
    ensures looked { HasLooked D.decides result token.old.seat.me token.new.seat.me }
    ensures event { WasEvent (λ j. loads j (D.decides result)) result token.old.seat.me token.new.seat.me }
{
    desk.table.shared.load::<Looks<D>>(&mut token.seat, 0)
}

/// Takes the unit where the word is `word`, which is that of a free unit. Gives the word that it found.
pub fn take<K: Kept, D: Decides>(desk: &Desk<K>, token: &mut Token<K>, word: u64) -> u64
    requires at { token.old.seat.table_id ≡ desk.now.table.shared.table_id }
    requires free { word % 2 ≡ 0 }
    requires filled { 0 < length token.old.seat.me.0.passes }
    requires alone { (word : ℕ) → D.decides word ≡ true → length token.old.seat.me.0.passes ≡ 1 }
    requires rests { token.old.seat.me.1 ≡ [] }
    ensures at { token.new.seat.table_id ≡ token.old.seat.table_id }
    ensures taken { result ≡ word → Takes token.old.seat.me token.new.seat.me }
    ensures lost { result ≢ word → HasLooked D.decides result token.old.seat.me token.new.seat.me }
    ensures taken_event { result ≡ word → WasEvent takes result token.old.seat.me token.new.seat.me }
    ensures lost_event { result ≢ word
        → WasEvent (λ j. misses j (D.decides result)) result token.old.seat.me token.new.seat.me }
{
    desk.table
        .shared
        .compare_exchange::<Tries<D>>(&mut token.seat, 0, word, word + 1)
}

/// Puts the unit back, which then has `entries` entries: as many as before, or one more.
pub fn put<K: Kept, D: Decides>(desk: &Desk<K>, token: &mut Token<K>, entries: u64)
    requires at { token.old.seat.table_id ≡ desk.now.table.shared.table_id }
    requires few { entries < 2 ^ 63 }
    requires ready { ((ps : List View) × (history : List HistoryEntry) × (b : UnitBounds)
        × CanReturn D.decides entries token.old.seat.me ps history b)
        ⊎ ((p : View) × (history : List HistoryEntry) × (entry : HistoryEntry)
        × CanAppend entries token.old.seat.me p history entry) }
    ensures at { token.new.seat.table_id ≡ token.old.seat.table_id }
    ensures returned { ReturnsAs D.decides entries token.old.seat.me token.new.seat.me }
    ensures added { AddsAs entries token.old.seat.me token.new.seat.me }
    ensures event { WasPut D.decides token.old.seat.me token.new.seat.me }
{
    lawful_with_one_more();
    desk.table
        .shared
        .store::<Puts<D>>(&mut token.seat, 0, 2 * entries);
}

/// The passes of the other seat join those of this one.
pub fn join<K: Kept>(desk: &Desk<K>, token: &mut Token<K>, other: Token<K>)
    requires at { token.old.seat.table_id ≡ desk.now.table.shared.table_id }
    requires other { other.seat.table_id ≡ desk.now.table.shared.table_id }
    requires rests { token.old.seat.me ≡ resting token.old.seat.me.0.passes }
    requires other_rests { other.seat.me ≡ resting other.seat.me.0.passes }
    ensures at { token.new.seat.table_id ≡ token.old.seat.table_id }
    ensures joined { token.new.seat.me ≡ resting (token.old.seat.me.0.passes ++ other.seat.me.0.passes) }
{
    let Token { seat } = other;
    desk.table
        .shared
        .join_seat::<Together>(&mut token.seat, seat);
}

/// All passes of the seat but the first go to a seat of their own.
pub fn split<K: Kept>(desk: &Desk<K>, token: &mut Token<K>) -> Token<K>
    requires at { token.old.seat.table_id ≡ desk.now.table.shared.table_id }
    requires rests { token.old.seat.me ≡ resting token.old.seat.me.0.passes }
    ensures at { token.new.seat.table_id ≡ token.old.seat.table_id }
    ensures other { result.seat.table_id ≡ token.old.seat.table_id }
    ensures first { token.new.seat.me ≡ resting (take 1 token.old.seat.me.0.passes) }
    ensures others { result.seat.me ≡ resting (drop 1 token.old.seat.me.0.passes) }
{
    Token {
        seat: desk.table.shared.split_seat::<FirstStays>(&mut token.seat),
    }
}

/// Sleeps until a put, if the word is still this one, or returns for no reason.
pub fn sleep<K: Kept, R: Wait>(desk: &Desk<K>, rt: &R, word: u64) {
    desk.table.shared.park(rt, 0, (word & 0xffff_ffff) as u32);
}

/// Wakes one of those who sleep.
pub fn wake<K: Kept>(desk: &Desk<K>) {
    desk.table.shared.wake_one(0);
}

/// The table of a new unit, and a seat with all its passes.
pub fn open<K: Kept>(
    alloc: Global,
    bounds: Bounds,
    book: Book<K>,
) -> Result<(Desk<K>, Token<K>), NoMemory>
    requires { book ≡ recorded bounds [] }
    ensures { IfOk result (λ t. (t.0.table.shared.key ≡ bounds)
        × (t.1.seat.table_id ≡ t.0.table.shared.table_id)
        × (t.1.seat.me ≡ resting (newcomers bounds))) }
{
    let mut slots = Vec::with_capacity(alloc, 1)?;
    slots.push_reserved(Some(book));
    match Table::new(alloc, &[0], slots, &bounds) {
        Ok((table, seat)) => Ok((Desk { table }, Token { seat })),
        Err(Refused { slots: _ }) => Err(AllocError),
    }
}

/// What is kept of the history of a unit whose passes are all at this seat. It takes no memory.
pub fn close<K: Kept>(desk: Desk<K>, token: Token<K>) -> K
    requires at { token.seat.table_id ≡ desk.table.shared.table_id }
    requires rests { token.seat.me ≡ resting token.seat.me.0.passes }
    requires all { AreAllViews desk.table.shared.key.passes token.seat.me.0.passes }
    ensures whole { IsWholeHistory desk.table.shared.key token.seat.me.0.passes (K.told result) }
    ensures events { HasCome desk.table.shared.key token.seat.me.0.passes (K.told result) }
{
    let Desk { table } = desk;
    let Token { seat } = token;
    let mut closed = table.close_with(seat);
    let book = closed.take(0).unwrap();
    closed.free();
    book.into_kept()
}
