//! A unit of LBAs 0 to 7 with blocks of 512 bytes, and its two passes.
ghost use Rattle.std.specs.Prelude.{◌≡◌, IfSome, true};
ghost use Rattle.nvm_unit.specs.Ends.{new_passes};
ghost use Rattle.nvm_unit.specs.Passes.{IsPassOf};

use crate::units::passes::{Counting, called};
use nvm_record::BlockSize;
use nvm_store::{Limit, Place};
use nvm_unit::{Pass, Unit};
use std::alloc::Global;
use std::io;
use std::marker::Model;
use std::sync::Wait;

const PLACE: Place = Place {
    first: 0,
    blocks: 8,
    size: BlockSize::BYTES_512,
};

/// Contracts see the unit. That the passes are all of its, and that it has versions, is true of each.
#[derive(Drop)]
pub struct Ground {
    unit: Unit,
    first: Pass,
    second: Pass,
    gate: Counting,
}

impl Model for Ground {
    ghost use Rattle.std.specs.Prelude.{◌≡◌, true};
    ghost use Rattle.nvm_unit.specs.Passes.{IsPassOf, UnitName};

    ghost Value = { UnitName };

    ghost view = { λ g. g.unit };

    ghost invariant = { λ g. IsPassOf g.unit g.first × IsPassOf g.unit g.second × (g.unit.bounds.passes ≡ 2)
        × (g.first.view.number ≡ 0) × (g.second.view.number ≡ 1) × (g.unit.versions ≡ true) };
}

impl Ground {
    /// Its history has so many entries at most.
    pub fn open(alloc: Global, limit: Limit) -> Option<Ground> {
        match Unit::new(alloc, 3, PLACE, 2, limit) {
            Ok((unit, passes)) => with_both(unit, passes),
            Err(_) => None,
        }
    }

    /// Tells what a call of both passes answers, or of the one that has this number.
    pub fn answered<R: AllocGlobal + Print + Wait>(
        &mut self,
        rt: &R,
        who: &str,
        call: &str,
        of: &str,
    ) -> io::Result<()> {
        match who {
            "0" => called(rt, &self.unit, &mut self.first, &self.gate, call, of),
            "1" => called(rt, &self.unit, &mut self.second, &self.gate, call, of),
            "meet" => {
                self.unit.meet(rt, &mut self.first, &mut self.second);
                rt.println("met")
            }
            "keeps" => println!(rt; "keeps {} {}", self.first.keeps(), self.second.keeps()),
            "gate" => println!(rt; "calls {}", self.gate.calls()),
            _ => rt.println("unread"),
        }
    }

    /// Tells how many entries the whole history has.
    pub fn closed<R: AllocGlobal + Print>(self, rt: &R) -> io::Result<()> {
        let Ground {
            unit,
            first,
            second,
            gate: _,
        } = self;
        match vec![in rt.alloc(); first, second] {
            Ok(passes) => println!(rt; "entries {}", unit.close(passes).len()),
            Err(_) => rt.println("unread"),
        }
    }
}

/// A new unit with its two passes.
fn with_both(unit: Unit, passes: Vec<Pass>) -> Option<Ground>
    requires count { unit.bounds.passes ≡ 2 }
    requires passes { passes.items ≡ new_passes unit }
    requires versions { unit.versions ≡ true }
{
    let Some((unit, first, second)) = dealt(unit, passes) else {
        return None;
    };
    Some(Ground {
        unit,
        first,
        second,
        gate: Counting::new(),
    })
}

/// A new unit, and its two passes.
fn dealt(unit: Unit, passes: Vec<Pass>) -> Option<(Unit, Pass, Pass)>
    requires count { unit.bounds.passes ≡ 2 }
    requires passes { passes.items ≡ new_passes unit }
    ensures same { IfSome result (λ u. u.0 ≡ unit) }
    ensures of { IfSome result (λ u. IsPassOf u.0 u.1 × IsPassOf u.0 u.2) }
    ensures numbers { IfSome result (λ u. (u.1.view.number ≡ 0) × (u.2.view.number ≡ 1)) }
{
    let mut passes = passes;
    let Some(second) = passes.pop() else {
        return None;
    };
    let Some(first) = passes.pop() else {
        return None;
    };
    Some((unit, first, second))
}
