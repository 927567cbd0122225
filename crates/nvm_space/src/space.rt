ghost use Rattle.std.specs.Prelude.{◌≡◌, ◌<◌, ◌≤◌, ℕ, IfOk, IfSome, is_some, length};
ghost use Rattle.nvm_record.specs.Lists.{IsAt};
ghost use Rattle.nvm_store.specs.HistoryEntry.{HistoryEntry};
ghost use Rattle.nvm_geometry.specs.Boundaries.{units_of};
ghost use Rattle.nvm_geometry.specs.Faults.{most_units};
ghost use Rattle.nvm_geometry.specs.Large.{regions_of};
ghost use Rattle.nvm_store.specs.Limit.{IsLimit};
ghost use Rattle.nvm_unit.specs.declared.views.PassView.{PassView};
ghost use Rattle.nvm_unit.specs.Ends.{views_of};
ghost use Rattle.nvm_unit.specs.Passes.{UnitName};
ghost use Rattle.nvm_unit.specs.Replies.{IsBroughtUp};
ghost use Rattle.nvm_space.specs.Visits.{BecomesAt, MeetInEach};
ghost use Rattle.nvm_space.specs.Closing.{EndsWhole};
ghost use Rattle.nvm_space.specs.Inside.Recorded.{limit_of};
ghost use Rattle.nvm_space.specs.Ports.{AreAllPortsOf, IsPortOf};
ghost use Rattle.nvm_space.specs.Spaces.{most_entries};

use crate::closing::histories;
use crate::meeting::meet_in_each;
use crate::port::Port;
use nvm_geometry::{Geometry, LargeGeometry, Regions};
use nvm_record::NoMemory;
use nvm_store::{History, Limit};
use nvm_unit::{Kept, Unit};
use std::alloc::Global;
use std::marker::Model;
use std::sync::Wait;

/// The most ports of a space.
pub const MOST_PORTS: u16 = 64;

/// A namespace of up to 2^40 blocks, as at most 4,096 regions of whole atomic units, which many threads read and change by their ports. Where it
/// has no more units than that, each of them is a region.
///
/// It keeps the history of each region, or only counts its entries (`Space<Count>`). A part of a job, which lies in one unit, is one step of the
/// region's history.
///
/// Contracts see the namespace, the number of ports, the limit of each region's history (2^62 where it has none), whether jobs list
/// their parts, whether it was opened with versions, and the regions.
#[derive(Drop)]
pub struct Space<K: Kept = History> {
    pub(crate) geometry: LargeGeometry,
    pub(crate) regions: Regions,
    pub(crate) ports: u16,
    /// What a record says of it. `None` only where no histories are kept.
    pub(crate) recorded: Option<Recorded>,
    /// Whether the ports' passes keep versions.
    pub(crate) versions: bool,
    /// Region k is at place k.
    pub(crate) units: Vec<Unit<K>>,
}

/// The geometry of a namespace that is recorded, and the most entries of a unit's history.
#[derive(Clone, Copy, Debug)]
pub struct Recorded {
    pub geometry: Geometry,
    pub limit: Limit,
}

impl<K: Kept> Model for Space<K> {
    ghost use Rattle.std.specs.Prelude.{◌≡◌, is_some};
    ghost use Rattle.nvm_geometry.specs.Large.{regions_of};
    ghost use Rattle.nvm_space.specs.Inside.Recorded.{AreRecordedOf, limit_of};
    ghost use Rattle.nvm_space.specs.Spaces.{SpaceName, IsLaidOut, most_entries};

    ghost Value = { SpaceName };

    ghost view = { λ s. record { namespace = s.geometry; ports = s.ports; limit = most_entries (limit_of s.recorded); lists = is_some s.recorded; versions = s.versions; units = s.units.items } };

    ghost invariant = { λ s. IsLaidOut (record {
      namespace = s.geometry;
      ports = s.ports;
      limit = most_entries (limit_of s.recorded);
      lists = is_some s.recorded;
      versions = s.versions;
      units = s.units.items;
    }) × (s.regions ≡ regions_of s.geometry) × AreRecordedOf s.geometry s.recorded };
}

impl<K: Kept> Space<K> {
    /// The namespace that it is.
    pub fn geometry(&self) -> LargeGeometry
        ensures { result ≡ self.now.namespace }
    {
        self.geometry
    }

    /// Its regions.
    pub fn regions(&self) -> Regions
        ensures { result ≡ regions_of self.now.namespace }
    {
        self.regions
    }

    /// The geometry and the limit with which it was opened. `None` if it was opened without a limit: then the limit is 2^62.
    pub fn recorded(&self) -> Option<Recorded>
        ensures geometry { IfSome result (λ it. it.geometry ≡ self.now.namespace) }
        ensures limit { self.now.limit ≡ most_entries (limit_of result) }
        ensures lists { self.now.lists ≡ is_some result }
        ensures valid { IfSome result (λ it. IsLimit it.limit) }

        // Each of its units is a region.
        ensures few { IfSome result (λ it. units_of self.now.namespace ≤ most_units) }
    {
        if let Some(recorded) = self.recorded {
            // For the proof alone: how large it can be.
            let _entries = recorded.limit.entries();
        }
        self.recorded
    }

    /// Whether it was opened with versions.
    pub fn versions(&self) -> bool
        ensures { result ≡ self.now.versions }
    {
        self.versions
    }

    /// Brings the port's pass of the region to the history that it finds. It waits for the region, and takes no
    /// memory.
    pub fn refresh<R: Wait>(&self, rt: &R, port: &mut Port<K>, region: u16)
        requires of { IsPortOf self.now port.old }
        requires known { region < units_of (regions_of self.now.namespace) }
        ensures of { IsPortOf self.now port.new }
        ensures number { port.new.number ≡ port.old.number }
        ensures up { BecomesAt region IsBroughtUp (views_of port.old.passes) (views_of port.new.passes) }
    {
        let place = usize::from(region);
        self.units[place].refresh(rt, &mut port.passes[place]);
    }

    /// Brings both ports to one history in each unit, so that what either had seen is in it. It waits for
    /// the units, one after the other, and takes no memory.
    pub fn meet<R: Wait>(&self, rt: &R, one: &mut Port<K>, other: &mut Port<K>)
        requires one { IsPortOf self.now one.old }
        requires other { IsPortOf self.now other.old }
        ensures one { IsPortOf self.now one.new }
        ensures other { IsPortOf self.now other.new }
        ensures number { one.new.number ≡ one.old.number }
        ensures other_number { other.new.number ≡ other.old.number }
        ensures met { MeetInEach (views_of one.old.passes) (views_of other.old.passes) (views_of one.new.passes)
            (views_of other.new.passes) }
    {
        meet_in_each(rt, &self.units, &mut one.passes, &mut other.passes);
    }

    /// What is kept of the whole history of each region, in their order, once nobody uses the space any more: the
    /// history, or the number of its entries. The ports are those that came with the space, in their order. It waits for
    /// nothing. A refusal of memory leaves nothing.
    pub fn close(self, alloc: Global, ports: Vec<Port<K>>) -> Result<Vec<K>, NoMemory>
        requires { AreAllPortsOf self ports.items }
        ensures count { IfOk result (λ hs. length hs.items ≡ length self.units) }
        ensures each { IfOk result (λ hs. (k : ℕ) (unit : UnitName) (history : _) → IsAt self.units k unit
            → IsAt hs.items k history → EndsWhole k unit ports.items (K.told history)) }
    {
        let Space {
            geometry: _,
            regions: _,
            ports: _,
            recorded: _,
            versions: _,
            units,
        } = self;
        histories(alloc, units, ports)
    }
}

impl Space {
    /// Brings the port's pass of the region to the history that it finds, and gives a copy of it. It waits for the
    /// region. Where memory is refused, the pass is brought up nevertheless.
    pub fn history<R: Wait>(
        &self,
        rt: &R,
        alloc: Global,
        port: &mut Port,
        region: u16,
    ) -> Result<History, NoMemory>
        requires of { IsPortOf self.now port.old }
        requires known { region < units_of (regions_of self.now.namespace) }
        ensures of { IsPortOf self.now port.new }
        ensures number { port.new.number ≡ port.old.number }
        ensures up { BecomesAt region IsBroughtUp (views_of port.old.passes) (views_of port.new.passes) }
        ensures seen { IfOk result (λ v. (view : PassView) → IsAt (views_of port.new.passes) region view
            → v.items ≡ view.seen) }
    {
        let place = usize::from(region);
        self.units[place].history(rt, alloc, &mut port.passes[place])
    }
}
