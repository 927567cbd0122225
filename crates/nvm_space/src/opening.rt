//! How a space begins: its regions are made one after the other, and each region's passes are handed out to the
//! ports.
ghost use Rattle.std.specs.Prelude.{◌≡◌, ◌+◌, ◌<◌, ◌≤◌, ◌^◌, [], IfOk, IfErr, OnOk, length};
ghost use Rattle.nvm_geometry.specs.Boundaries.{units_of};
ghost use Rattle.nvm_geometry.specs.Large.{regions_of};
ghost use Rattle.nvm_plan.specs.UnitPlace.{IsUnitPlace};
ghost use Rattle.nvm_space.specs.Inside.Dealing.{space_of, AreDealt, HaveOneMore};
ghost use Rattle.nvm_space.specs.Ports.{new_ports};
ghost use Rattle.nvm_space.specs.Spaces as spec;
ghost use Rattle.nvm_space.specs.Spaces.{IsLaidOut, IsPortCount, IsSpaceFault};

use crate::port::Port;
use crate::space_fault::SpaceFault;
use nvm_geometry::{LargeGeometry, Regions};
use nvm_record::NoMemory;
use nvm_store::{Limit, Place};
use nvm_unit::laws::new_passes_are_all;
use nvm_unit::{Kept, MOST_ENTRIES, Pass, Unit};
use std::alloc::Global;

/// The regions of a new space, and its ports.
pub(crate) fn opened<K: Kept>(
    alloc: Global,
    geometry: &LargeGeometry,
    regions: Regions,
    ports: u16,
    limit: &Option<Limit>,
    versions: bool,
) -> Result<(Vec<Unit<K>>, Vec<Port<K>>), SpaceFault>
    requires ports { IsPortCount ports }
    requires regions { regions ≡ regions_of geometry.now }
    ensures refused { IfErr result (IsSpaceFault ports) }
    ensures units { IfOk result (λ u. IsLaidOut (space_of geometry.now ports limit.now versions u.0.items)) }
    ensures ports { IfOk result (λ u. u.1.items ≡ new_ports (space_of geometry.now ports limit.now versions u.0.items)) }
{
    new_passes_are_all();
    let most = most_entries(limit);
    let count = regions.count();
    let mut dealt = bare_ports(alloc, ports, count)?;
    let mut units = Vec::with_capacity(alloc, usize::from(count))?;
    for number in 0..count {
        let place = region_place(regions, number);
        let Ok((unit, passes)) = Unit::with_limit(alloc, number, place, ports, most, versions)
        else {
            return Err(SpaceFault::NoMemory);
        };
        hand_out(&mut dealt, passes)?;
        units.push(unit)?;
    }
    Ok((units, dealt))
}

/// Where a region lies.
fn region_place(regions: Regions, region: u16) -> Place
    requires { region < units_of regions }
    ensures place { IsUnitPlace regions region result }
    ensures some { 0 < result.blocks }
    ensures low { result.first + result.blocks ≤ 2 ^ 40 }
{
    let (first, blocks) = regions.range(region);
    Place {
        first,
        blocks,
        size: regions.block_size(),
    }
}

/// How many entries a history may have.
fn most_entries(limit: &Option<Limit>) -> u64
    ensures most { result ≡ spec.most_entries limit.now }
    ensures few { result ≤ 2 ^ 62 }
{
    match limit {
        Some(limit) => u64::from(limit.entries()),
        None => MOST_ENTRIES,
    }
}

/// The ports of a space that has no regions yet, with room for `units` passes each.
fn bare_ports<K: Kept>(alloc: Global, count: u16, units: u16) -> Result<Vec<Port<K>>, NoMemory>
    ensures { IfOk result (λ ports. AreDealt count [] ports.items) }
{
    let mut ports = Vec::with_capacity(alloc, usize::from(count))?;
    for number in 0..count {
        let passes = Vec::with_capacity(alloc, usize::from(units))?;
        ports.push(Port { number, passes })?;
    }
    Ok(ports)
}

/// Hands a pass to each port, in their order.
fn hand_out<K: Kept>(ports: &mut Vec<Port<K>>, passes: Vec<Pass<K>>) -> Result<(), NoMemory>
    requires { length passes.items ≡ length ports.old.items }
    ensures { OnOk result (HaveOneMore passes.items ports.old.items ports.new.items) }
{
    let mut place = 0;
    for pass in passes {
        ports[place].add(pass)?;
        place += 1;
    }
    Ok(())
}
