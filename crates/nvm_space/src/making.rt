//! Spaces as they are made: with histories or without, and of any size.
ghost use Rattle.std.specs.Prelude.{◌≡◌, ◌^◌, IfOk, IfErr, is_some, true, false};
ghost use Rattle.nvm_space.specs.Inside.Recorded.{AreRecordedOf, limit_of};
ghost use Rattle.nvm_space.specs.Ports.{AreAllPortsOf, new_ports};
ghost use Rattle.nvm_space.specs.Spaces.{IsLaidOut, IsPortCount, IsSpaceFault, most_entries};

use crate::opening::opened;
use crate::port::Port;
use crate::space::{MOST_PORTS, Recorded, Space};
use crate::space_fault::SpaceFault;
use nvm_geometry::{Geometry, LargeGeometry};
use nvm_store::Limit;
use nvm_unit::{Count, Kept};
use std::alloc::Global;

impl Space {
    /// A new space of this geometry, whose blocks are all zero bytes, and its ports, which are numbered from 0.
    /// Each unit's history may have as many entries as the limit says. `Ports` says that there can't be that many
    /// ports; a refusal of memory leaves nothing. It costs a step for each unit and port.
    ///
    /// Each port keeps the version of each unit at the last point that it has seen there, for
    /// [`read_now`](Space::read_now). [`Unit::new`] says what that costs.
    pub fn new(
        alloc: Global,
        geometry: Geometry,
        ports: u16,
        limit: Limit,
    ) -> Result<(Space, Vec<Port>), SpaceFault>
        ensures taken { IfOk result (λ s. IsPortCount ports) }
        ensures refused { IfErr result (IsSpaceFault ports) }
        ensures namespace { IfOk result (λ s. s.0.namespace ≡ geometry) }
        ensures limit { IfOk result (λ s. s.0.limit ≡ limit) }
        ensures lists { IfOk result (λ s. s.0.lists ≡ true) }
        ensures units { IfOk result (λ s. IsLaidOut s.0) }
        ensures count { IfOk result (λ s. s.0.ports ≡ ports) }
        ensures ports { IfOk result (λ s. s.1.items ≡ new_ports s.0) }
        ensures all { IfOk result (λ s. AreAllPortsOf s.0 s.1.items) }
        ensures versions { IfOk result (λ s. s.0.versions ≡ true) }
    {
        Space::open(alloc, geometry, ports, limit, true)
    }

    /// What [`new`](Space::new) does, with versions or without. Without, no port ever keeps a version: nobody can
    /// [`read_now`](Space::read_now), and no change copies anything for a reader.
    pub fn open(
        alloc: Global,
        geometry: Geometry,
        ports: u16,
        limit: Limit,
        versions: bool,
    ) -> Result<(Space, Vec<Port>), SpaceFault>
        ensures taken { IfOk result (λ s. IsPortCount ports) }
        ensures refused { IfErr result (IsSpaceFault ports) }
        ensures namespace { IfOk result (λ s. s.0.namespace ≡ geometry) }
        ensures limit { IfOk result (λ s. s.0.limit ≡ limit) }
        ensures lists { IfOk result (λ s. s.0.lists ≡ true) }
        ensures units { IfOk result (λ s. IsLaidOut s.0) }
        ensures count { IfOk result (λ s. s.0.ports ≡ ports) }
        ensures ports { IfOk result (λ s. s.1.items ≡ new_ports s.0) }
        ensures all { IfOk result (λ s. AreAllPortsOf s.0 s.1.items) }
        ensures versions { IfOk result (λ s. s.0.versions ≡ versions) }
    {
        // For the proof alone: it has no more units than there can be regions.
        let _units = geometry.units();
        let recorded = Recorded { geometry, limit };
        Space::made(alloc, geometry.large(), ports, Some(recorded), versions)
    }
}

impl Space<Count> {
    /// What [`open`](Space::open) does, but the space keeps no histories. Each unit still has one, of which contracts speak; it takes no
    /// memory, and no call gives it. [`close`](Space::close) gives the number of its entries. The points of parts are those that a record can
    /// hold, and a job that is done lists its parts.
    pub fn counted(
        alloc: Global,
        geometry: Geometry,
        ports: u16,
        limit: Limit,
        versions: bool,
    ) -> Result<(Space<Count>, Vec<Port<Count>>), SpaceFault>
        ensures taken { IfOk result (λ s. IsPortCount ports) }
        ensures refused { IfErr result (IsSpaceFault ports) }
        ensures namespace { IfOk result (λ s. s.0.namespace ≡ geometry) }
        ensures limit { IfOk result (λ s. s.0.limit ≡ limit) }
        ensures lists { IfOk result (λ s. s.0.lists ≡ true) }
        ensures units { IfOk result (λ s. IsLaidOut s.0) }
        ensures count { IfOk result (λ s. s.0.ports ≡ ports) }
        ensures ports { IfOk result (λ s. s.1.items ≡ new_ports s.0) }
        ensures all { IfOk result (λ s. AreAllPortsOf s.0 s.1.items) }
        ensures versions { IfOk result (λ s. s.0.versions ≡ versions) }
    {
        // For the proof alone: it has no more units than there can be regions.
        let _units = geometry.units();
        let recorded = Recorded { geometry, limit };
        Space::made(alloc, geometry.large(), ports, Some(recorded), versions)
    }

    /// What [`counted`](Space::counted) does, of a namespace of any size and without a limit: the history of each region may have 2^62 entries, and
    /// no parts are listed.
    pub fn unrecorded(
        alloc: Global,
        geometry: LargeGeometry,
        ports: u16,
        versions: bool,
    ) -> Result<(Space<Count>, Vec<Port<Count>>), SpaceFault>
        ensures taken { IfOk result (λ s. IsPortCount ports) }
        ensures refused { IfErr result (IsSpaceFault ports) }
        ensures namespace { IfOk result (λ s. s.0.namespace ≡ geometry) }
        ensures limit { IfOk result (λ s. s.0.limit ≡ 2 ^ 62) }
        ensures lists { IfOk result (λ s. s.0.lists ≡ false) }
        ensures units { IfOk result (λ s. IsLaidOut s.0) }
        ensures count { IfOk result (λ s. s.0.ports ≡ ports) }
        ensures ports { IfOk result (λ s. s.1.items ≡ new_ports s.0) }
        ensures all { IfOk result (λ s. AreAllPortsOf s.0 s.1.items) }
        ensures versions { IfOk result (λ s. s.0.versions ≡ versions) }
    {
        Space::made(alloc, geometry, ports, None, versions)
    }
}

impl<K: Kept> Space<K> {
    /// A new space, whatever it keeps.
    fn made(
        alloc: Global,
        geometry: LargeGeometry,
        ports: u16,
        recorded: Option<Recorded>,
        versions: bool,
    ) -> Result<(Space<K>, Vec<Port<K>>), SpaceFault>
        requires { AreRecordedOf geometry recorded }
        ensures taken { IfOk result (λ s. IsPortCount ports) }
        ensures refused { IfErr result (IsSpaceFault ports) }
        ensures namespace { IfOk result (λ s. s.0.namespace ≡ geometry) }
        ensures limit { IfOk result (λ s. s.0.limit ≡ most_entries (limit_of recorded)) }
        ensures lists { IfOk result (λ s. s.0.lists ≡ is_some recorded) }
        ensures units { IfOk result (λ s. IsLaidOut s.0) }
        ensures count { IfOk result (λ s. s.0.ports ≡ ports) }
        ensures ports { IfOk result (λ s. s.1.items ≡ new_ports s.0) }
        ensures all { IfOk result (λ s. AreAllPortsOf s.0 s.1.items) }
        ensures versions { IfOk result (λ s. s.0.versions ≡ versions) }
    {
        if ports == 0 || ports > MOST_PORTS {
            return Err(SpaceFault::Ports);
        }
        let regions = geometry.regions();
        let limit = limit_in(&recorded);
        let (units, dealt) = opened(alloc, &geometry, regions, ports, &limit, versions)?;
        Ok((
            Space {
                geometry,
                regions,
                ports,
                recorded,
                versions,
                units,
            },
            dealt,
        ))
    }
}

/// The most entries of a unit's history, where there is such a limit.
fn limit_in(recorded: &Option<Recorded>) -> Option<Limit>
    ensures { result ≡ limit_of recorded.now }
{
    match recorded {
        Some(recorded) => Some(recorded.limit),
        None => None,
    }
}
