//! How a space ends: the passes of its last unit are gathered from the ports, the unit is closed, and then the
//! one before it.
ghost use Rattle.std.specs.Prelude.{◌≡◌, ◌≢◌, ℕ, [], IfOk, OnOk, length};
ghost use Rattle.nvm_record.specs.Lists.{IsAt};
ghost use Rattle.nvm_unit.specs.Passes.{UnitName};
ghost use Rattle.nvm_space.specs.Closing.{EndsWhole};
ghost use Rattle.nvm_space.specs.Inside.Dealing.{HaveOneMore};
ghost use Rattle.nvm_space.specs.Ports.{AreAllPortsOf, PortState};
ghost use Rattle.nvm_space.specs.Spaces.{SpaceName, IsLaidOut};

use crate::port::Port;
use nvm_record::NoMemory;
use nvm_unit::{Kept, Pass, Unit};
use std::alloc::Global;

/// What is kept of the histories of the regions, in their order.
pub(crate) fn histories<K: Kept>(
    alloc: Global,
    units: Vec<Unit<K>>,
    ports: Vec<Port<K>>,
) -> Result<Vec<K>, NoMemory>
    requires { (s : SpaceName) × (s.units ≡ units.items) × IsLaidOut s × AreAllPortsOf s ports.items }
    ensures count { IfOk result (λ hs. length hs.items ≡ length units.items) }
    ensures each { IfOk result (λ hs. (k : ℕ) (unit : UnitName) (history : _) → IsAt units.items k unit
        → IsAt hs.items k history → EndsWhole k unit ports.items (K.told history)) }
{
    let mut units = units;
    let mut ports = ports;
    let mut ended = Vec::with_capacity(alloc, units.len())?;
    while let Some(unit) = units.pop() {
        let passes = gathered(alloc, &mut ports)?;
        ended.push(unit.close(passes))?;
    }
    ended.reverse();
    Ok(ended)
}

/// The last pass of each port, in the order of the ports.
fn gathered<K: Kept>(alloc: Global, ports: &mut Vec<Port<K>>) -> Result<Vec<Pass<K>>, NoMemory>
    requires { (w : ℕ) (port : PortState) → IsAt ports.old.items w port → port.passes ≢ [] }
    ensures { IfOk result (λ passes. HaveOneMore passes.items ports.new.items ports.old.items) }
{
    let mut passes = Vec::with_capacity(alloc, ports.len())?;
    for place in 0..ports.len() {
        passes.push(ports[place].take_last())?;
    }
    Ok(passes)
}
