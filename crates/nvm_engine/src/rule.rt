//! The rule of a counter's table, and what its steps report.
ghost use Rattle.std.specs.Prelude.{[]};
ghost use Rattle.nvm_engine.specs.Inside.Rule.{IsRuled, no_numbers};
ghost use Rattle.nvm_engine.specs.Inside.Plays.{draws, first_of, others_of, together};

use crate::bounds::Bounds;
use atomic_table::{Join, Play, Split, TableRule};
use std::collections::LinkedList;

/// What one seat carries: for each of its workers the numbers that it has drawn. It exists in proofs alone.
pub type Lists = LinkedList<LinkedList<u64>>;

/// Between any two steps, the word and the lists of all seats are claims.
pub struct ClaimRule;

impl TableRule<(), Lists, Bounds> for ClaimRule {
    ghost holds = { IsRuled };

    ghost first = { no_numbers };
}

/// A fetch_add of 1, whose worker draws the number that it finds.
pub struct Draws;

impl Play<(), Lists> for Draws {
    ghost then = { draws };
}

/// The first worker stays, and the others get a seat of their own.
pub struct FirstStays;

impl Split<Lists> for FirstStays {
    ghost left = { first_of };

    ghost right = { others_of };
}

/// The workers of two seats come to one.
pub struct Together;

impl Join<Lists> for Together {
    ghost both = { together };

    ghost spent = { [] };
}
