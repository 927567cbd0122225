//! The rule of a unit's table, and what its steps show.
ghost use Rattle.std.specs.Prelude.{ℕ, ◌%◌, ◌&&◌, Bool, nat_eq, true, false};
ghost use Rattle.nvm_unit.specs.Inside.Rule.{IsRuled, all_newcomers};
ghost use Rattle.nvm_unit.specs.Inside.Plays.{looks, tries, puts, first_of, others_of, together};
ghost use Rattle.nvm_unit.specs.Events.{idle};
ghost use Rattle.std.specs.Prelude.{[]};

use crate::book::Book;
use crate::bounds::Bounds;
use crate::kept::Kept;
use crate::views::Group;
use atomic_table::{Join, Play, Split, TableRule};
use std::marker::PhantomData;

/// Between any two steps, the table shows a state to which events of the seven kinds lead from a new unit, and
/// so one that is sound.
pub struct UnitRule;

impl<K: Kept> TableRule<Option<Book<K>>, Group, Bounds> for UnitRule {
    ghost holds = { IsRuled };

    ghost first = { all_newcomers };
}

/// Whether a step is the one on which a call's answer rests, by the word that it finds.
pub trait Decides {
    ghost decides: { ℕ → Bool };
}

/// It is.
pub struct Always;

impl Decides for Always {
    ghost decides = { λ word. true };
}

/// It isn't.
pub struct Never;

impl Decides for Never {
    ghost decides = { λ word. false };
}

/// It is where the word is that of a unit in use, and `D` says so.
pub struct IfHeld<D> {
    decides: PhantomData<D>,
}

impl<D: Decides> Decides for IfHeld<D> {
    ghost decides = { λ word. nat_eq (word % 2) 1 && D.decides word };
}

/// A load.
pub struct Looks<D> {
    decides: PhantomData<D>,
}

impl<K: Kept, D: Decides> Play<Option<Book<K>>, Group> for Looks<D> {
    ghost then = { looks D.decides };
}

/// A compare_exchange that may take the unit.
pub struct Tries<D> {
    decides: PhantomData<D>,
}

impl<K: Kept, D: Decides> Play<Option<Book<K>>, Group> for Tries<D> {
    ghost then = { tries D.decides };
}

/// A store that puts the unit back.
pub struct Puts<D> {
    decides: PhantomData<D>,
}

impl<K: Kept, D: Decides> Play<Option<Book<K>>, Group> for Puts<D> {
    ghost then = { puts D.decides };
}

/// The first pass stays, and the others become a group of their own.
pub struct FirstStays;

impl Split<Group> for FirstStays {
    ghost left = { first_of };

    ghost right = { others_of };
}

/// The passes of two groups become one group.
pub struct Together;

impl Join<Group> for Together {
    ghost both = { together };

    ghost spent = { idle [] };
}
