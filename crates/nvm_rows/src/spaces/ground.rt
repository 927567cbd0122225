//! LBAs 0 to 31 with blocks of 512 bytes, in 4 units of 8 LBAs each, and the two ports of a space of them, which counts its entries.
ghost use Rattle.std.specs.Prelude.{◌≡◌, IfSome};
ghost use Rattle.nvm_space.specs.Ports.{AreAllPortsOf, IsPortOf};

use crate::spaces::ports::called;
use nvm_geometry::Geometry;
use nvm_space::{Port, Space};
use nvm_store::Limit;
use nvm_unit::{Count, Kept};
use std::alloc::Global;
use std::io;
use std::marker::Model;
use std::sync::Wait;

/// Contracts see the space. That the ports are all of its is true of each.
#[derive(Drop)]
pub struct Ground {
    space: Space<Count>,
    first: Port<Count>,
    second: Port<Count>,
}

impl Model for Ground {
    ghost use Rattle.std.specs.Prelude.{◌≡◌};
    ghost use Rattle.nvm_space.specs.Ports.{IsPortOf};
    ghost use Rattle.nvm_space.specs.Spaces.{SpaceName};

    ghost Value = { SpaceName };

    ghost view = { λ g. g.space };

    ghost invariant = { λ g. IsPortOf g.space g.first × IsPortOf g.space g.second × (g.space.ports ≡ 2)
        × (g.first.number ≡ 0) × (g.second.number ≡ 1) };
}

impl Ground {
    /// With versions, where each unit's history has so many entries at most; else without. A Write of up to 8 blocks is one step, and a pair of up
    /// to 4.
    pub fn open(alloc: Global, limit: Option<Limit>) -> Option<Ground> {
        let Ok(namespace) = Geometry::new(32, 512, 7, 0, 7, 3) else {
            return None;
        };
        let opened = match limit {
            Some(limit) => Space::counted(alloc, namespace, 2, limit, true),
            None => Space::unrecorded(alloc, namespace.large(), 2, false),
        };
        match opened {
            Ok((space, ports)) => with_both(space, ports),
            Err(_) => None,
        }
    }

    /// Tells what a call of both ports answers, or of the one that has this number.
    pub fn answered<R: AllocGlobal + Print + Wait>(
        &mut self,
        rt: &R,
        who: &str,
        call: &str,
        of: &str,
    ) -> io::Result<()> {
        match who {
            "0" => called(rt, &self.space, &mut self.first, call, of),
            "1" => called(rt, &self.space, &mut self.second, call, of),
            "meet" => {
                self.space.meet(rt, &mut self.first, &mut self.second);
                rt.println("met")
            }
            _ => rt.println("unread"),
        }
    }

    /// Tells how many entries the whole history of each unit has.
    pub fn closed<R: AllocGlobal + Print>(self, rt: &R) -> io::Result<()> {
        let Ground {
            space,
            first,
            second,
        } = self;
        let Ok(ports) = vec![in rt.alloc(); first, second] else {
            return rt.println("unread");
        };
        match space.close(rt.alloc(), ports) {
            Ok(kept) => counted(rt, &kept),
            Err(_) => rt.println("NoMemory"),
        }
    }
}

fn counted(rt: &impl Print, kept: &[Count]) -> io::Result<()> {
    rt.print("entries")?;
    for count in kept {
        print!(rt; " {}", count.entries())?;
    }
    rt.println("")
}

/// A new space with its two ports.
fn with_both(space: Space<Count>, ports: Vec<Port<Count>>) -> Option<Ground>
    requires count { space.ports ≡ 2 }
    requires all { AreAllPortsOf space ports.items }
{
    let Some((space, first, second)) = dealt(space, ports) else {
        return None;
    };
    Some(Ground {
        space,
        first,
        second,
    })
}

/// A new space, and its two ports.
fn dealt(
    space: Space<Count>,
    ports: Vec<Port<Count>>,
) -> Option<(Space<Count>, Port<Count>, Port<Count>)>
    requires count { space.ports ≡ 2 }
    requires all { AreAllPortsOf space ports.items }
    ensures same { IfSome result (λ s. s.0 ≡ space) }
    ensures of { IfSome result (λ s. IsPortOf s.0 s.1 × IsPortOf s.0 s.2) }
    ensures numbers { IfSome result (λ s. (s.1.number ≡ 0) × (s.2.number ≡ 1)) }
{
    let mut ports = ports;
    let Some(second) = ports.pop() else {
        return None;
    };
    let Some(first) = ports.pop() else {
        return None;
    };
    Some((space, first, second))
}
