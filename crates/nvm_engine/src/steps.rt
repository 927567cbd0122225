//! The atomic steps on a counter's word. They alone have the table and its seats, so nothing else writes what
//! a claim knows.
ghost use Rattle.std.specs.Prelude.{◌≡◌, ℕ, ◌<◌, List, [], ◌∷◌, ◌++◌, All, take, drop, length, IfOk};
ghost use Rattle.nvm_engine.specs.Claims.{IsClaims, HasCome};
ghost use Rattle.nvm_engine.specs.Inside.Rule.{no_numbers};
ghost use Rattle.nvm_engine.specs.Inside.Plays.{resting, HasDrawn};

use crate::bounds::Bounds;
use crate::rule::{ClaimRule, Draws, FirstStays, Lists, Together};
use atomic_table::{Seat, Table};
use nvm_record::NoMemory;
use std::alloc::Global;

/// The table of one counter, whose word is the next number.
#[derive(Drop)]
pub struct Desk {
    table: Table<(), Lists, Bounds, ClaimRule, Global>,
    ghost sized: { (table.shared.table_id.words ≡ 1) × (table.shared.table_id.slots ≡ 0) },
}

/// A seat at a counter's table. It has no bytes.
#[derive(Drop)]
pub struct Token {
    seat: Seat<(), Lists>,
}

/// Adds 1 to the word. Gives what it was.
pub fn draw(desk: &Desk, token: &mut Token) -> u64
    requires at { token.old.seat.table_id ≡ desk.now.table.shared.table_id }
    requires goes_on { (drawn : List ℕ) × (token.old.seat.me ≡ resting (drawn ∷ []))
        × All (λ x. x < desk.now.table.shared.key.jobs) drawn }
    ensures at { token.new.seat.table_id ≡ token.old.seat.table_id }
    ensures drawn { HasDrawn result token.old.seat.me token.new.seat.me }
{
    desk.table.shared.fetch_add::<Draws>(&mut token.seat, 0, 1)
}

/// The workers of the other seat join those of this one.
pub fn join(desk: &Desk, token: &mut Token, other: Token)
    requires at { token.old.seat.table_id ≡ desk.now.table.shared.table_id }
    requires other { other.seat.table_id ≡ desk.now.table.shared.table_id }
    requires rests { token.old.seat.me ≡ resting token.old.seat.me.0 }
    requires other_rests { other.seat.me ≡ resting other.seat.me.0 }
    ensures at { token.new.seat.table_id ≡ token.old.seat.table_id }
    ensures joined { token.new.seat.me ≡ resting (token.old.seat.me.0 ++ other.seat.me.0) }
{
    let Token { seat } = other;
    desk.table
        .shared
        .join_seat::<Together>(&mut token.seat, seat);
}

/// All workers of the seat but the first get a seat of their own.
pub fn split(desk: &Desk, token: &mut Token) -> Token
    requires at { token.old.seat.table_id ≡ desk.now.table.shared.table_id }
    requires rests { token.old.seat.me ≡ resting token.old.seat.me.0 }
    ensures at { token.new.seat.table_id ≡ token.old.seat.table_id }
    ensures other { result.seat.table_id ≡ token.old.seat.table_id }
    ensures first { token.new.seat.me ≡ resting (take 1 token.old.seat.me.0) }
    ensures others { result.seat.me ≡ resting (drop 1 token.old.seat.me.0) }
{
    Token {
        seat: desk.table.shared.split_seat::<FirstStays>(&mut token.seat),
    }
}

/// The table of a new counter, and a seat with all its workers, none of whom has drawn a number.
pub fn open(alloc: Global, bounds: Bounds) -> Result<(Desk, Token), NoMemory>
    ensures { IfOk result (λ t. (t.0.table.shared.key ≡ bounds)
        × (t.1.seat.table_id ≡ t.0.table.shared.table_id)
        × (t.1.seat.me ≡ resting (no_numbers bounds))) }
{
    let (table, seat) = Table::of_words(alloc, &[0], &bounds)?;
    Ok((Desk { table }, Token { seat }))
}

/// What the word has become, once all workers are at this seat. It takes no memory.
pub fn close(desk: Desk, token: Token) -> u64
    requires at { token.seat.table_id ≡ desk.table.shared.table_id }
    requires all { length token.seat.me.0 ≡ desk.table.shared.key.workers }
    ensures claims { IsClaims desk.table.shared.key.jobs (record { word = result; lists = token.seat.me.0 }) }
    ensures draws { HasCome desk.table.shared.key.jobs desk.table.shared.key.workers result token.seat.me.0 }
{
    let Desk { table } = desk;
    let Token { seat } = token;
    let closed = table.close_with(seat);
    let word = closed.word(0);
    closed.free();
    word
}
