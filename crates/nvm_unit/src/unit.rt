ghost use Rattle.std.specs.Prelude.{◌≡◌, ◌↔◌, ◌+◌, ◌^◌, ◌≤◌, ◌<◌, IfOk, IfErr, IsTrue, true};
ghost use Rattle.nvm_unit.specs.Ends.{IsPassCount, IsUnitFault, new_passes, AreAllPassesOf, IsWholeHistory, HasCome, views_of};
ghost use Rattle.nvm_store.specs.ActRef.{lent_operation_of};
ghost use Rattle.nvm_record.specs.Medium.{zero_medium};
ghost use Rattle.nvm_store.specs.Contents.{Holds, LiesAt};
ghost use Rattle.nvm_store.specs.Place.{IsCovered};
ghost use Rattle.nvm_store.specs.Look.{look_operation_of};

use crate::book::Book;
use crate::bounds::Bounds;
use crate::count::Count;
use crate::kept::Kept;
use crate::latch::Latch;
use crate::pass::Pass;
use crate::seats::{deal, gather};
use crate::steps;
use crate::unit_fault::UnitFault;
use nvm_record::NoMemory;
use nvm_store::{ActRef, History, Limit, Look, Place, UnitBlocks};
use std::alloc::Global;
use std::marker::Model;

/// The most passes of a unit.
pub const MOST_PASSES: u16 = 64;

/// The most entries in the history of a unit that keeps none: 2^62.
pub const MOST_ENTRIES: u64 = 4_611_686_018_427_387_904;

/// Blocks that many threads read and change, each change one atomic step.
///
/// Contracts see which unit it is, its number, its LBAs and block size, the number of its passes, its limit, and
/// whether it was opened with versions.
#[derive(Drop)]
pub struct Unit<K: Kept = History> {
    pub(crate) latch: Latch<K>,
    /// What is reported to the gate.
    pub(crate) number: u16,
    pub(crate) bounds: Bounds,
    /// Whether its passes keep versions.
    pub(crate) versions: bool,
}

impl<K: Kept> Model for Unit<K> {
    ghost use Rattle.std.specs.Prelude.{◌≡◌, ◌<◌, ◌≤◌, ◌^◌};
    ghost use Rattle.nvm_unit.specs.Passes.{UnitName};

    ghost Value = { UnitName };

    ghost view = { λ u. record {
      table = u.latch.desk.table.shared.table_id;
      number = u.number;
      bounds = u.bounds;
      versions = u.versions;
    } };

    ghost invariant = { λ u. (u.latch.desk.table.shared.key ≡ u.bounds) × (u.bounds.limit ≤ 2 ^ 62) × (0 < u.bounds.passes) };
}

impl Unit {
    /// A new unit in this place, whose blocks are all zero bytes, and its passes, which are numbered from 0.
    /// The unit's number is reported to a gate. `Passes` says that there can't be that many passes; a refusal of
    /// memory leaves nothing.
    ///
    /// Each pass keeps the version of the blocks at the last point that it has seen, for
    /// [`look`](Unit::look). So where two passes change the unit in turn, each change copies the path from the root
    /// of the unit's blocks to the blocks that it changes.
    pub fn new(
        alloc: Global,
        number: u16,
        place: Place,
        passes: u16,
        limit: Limit,
    ) -> Result<(Unit, Vec<Pass>), UnitFault>
        requires some { 0 < place.blocks }
        requires low { place.first + place.blocks ≤ 2 ^ 40 }
        ensures taken { IfOk result (λ u. IsPassCount passes) }
        ensures refused { IfErr result (IsUnitFault passes) }
        ensures bounds { IfOk result (λ u. u.0.bounds ≡ record { place = place; passes = passes; limit = limit }) }
        ensures number { IfOk result (λ u. u.0.number ≡ number) }
        ensures passes { IfOk result (λ u. u.1.items ≡ new_passes u.0) }
        ensures versions { IfOk result (λ u. u.0.versions ≡ true) }
    {
        Unit::open(alloc, number, place, passes, limit, true)
    }

    /// What [`new`](Unit::new) does, with versions or without. Without, no pass ever keeps a version: nobody can
    /// [`look`](Unit::look), and no change copies anything for a reader.
    pub fn open(
        alloc: Global,
        number: u16,
        place: Place,
        passes: u16,
        limit: Limit,
        versions: bool,
    ) -> Result<(Unit, Vec<Pass>), UnitFault>
        requires some { 0 < place.blocks }
        requires low { place.first + place.blocks ≤ 2 ^ 40 }
        ensures taken { IfOk result (λ u. IsPassCount passes) }
        ensures refused { IfErr result (IsUnitFault passes) }
        ensures bounds { IfOk result (λ u. u.0.bounds ≡ record { place = place; passes = passes; limit = limit }) }
        ensures number { IfOk result (λ u. u.0.number ≡ number) }
        ensures passes { IfOk result (λ u. u.1.items ≡ new_passes u.0) }
        ensures versions { IfOk result (λ u. u.0.versions ≡ versions) }
    {
        Unit::with_limit(
            alloc,
            number,
            place,
            passes,
            u64::from(limit.entries()),
            versions,
        )
    }
}

impl Unit<Count> {
    /// What [`open`](Unit::open) does, of a unit that keeps no entry. Its history is that of all its changes as before, and contracts
    /// speak of it, but nobody can ask for it. It takes no memory for it, and has no limit but 2^62 entries.
    pub fn unrecorded(
        alloc: Global,
        number: u16,
        place: Place,
        passes: u16,
        versions: bool,
    ) -> Result<(Unit<Count>, Vec<Pass<Count>>), UnitFault>
        requires some { 0 < place.blocks }
        requires low { place.first + place.blocks ≤ 2 ^ 40 }
        ensures taken { IfOk result (λ u. IsPassCount passes) }
        ensures refused { IfErr result (IsUnitFault passes) }
        ensures bounds { IfOk result (λ u. u.0.bounds ≡ record { place = place; passes = passes; limit = 2 ^ 62 }) }
        ensures number { IfOk result (λ u. u.0.number ≡ number) }
        ensures passes { IfOk result (λ u. u.1.items ≡ new_passes u.0) }
        ensures versions { IfOk result (λ u. u.0.versions ≡ versions) }
    {
        Unit::with_limit(alloc, number, place, passes, MOST_ENTRIES, versions)
    }
}

impl<K: Kept> Unit<K> {
    /// What [`open`](Unit::open) and [`unrecorded`](Unit::unrecorded) do, of a unit that keeps a `K` of its history,
    /// which may have at most `limit` entries.
    pub fn with_limit(
        alloc: Global,
        number: u16,
        place: Place,
        passes: u16,
        limit: u64,
        versions: bool,
    ) -> Result<(Unit<K>, Vec<Pass<K>>), UnitFault>
        requires some { 0 < place.blocks }
        requires low { place.first + place.blocks ≤ 2 ^ 40 }
        requires few { limit ≤ 2 ^ 62 }
        ensures taken { IfOk result (λ u. IsPassCount passes) }
        ensures refused { IfErr result (IsUnitFault passes) }
        ensures bounds { IfOk result (λ u. u.0.bounds ≡ record { place = place; passes = passes; limit = limit }) }
        ensures number { IfOk result (λ u. u.0.number ≡ number) }
        ensures passes { IfOk result (λ u. u.1.items ≡ new_passes u.0) }
        ensures versions { IfOk result (λ u. u.0.versions ≡ versions) }
    {
        if passes == 0 || passes > MOST_PASSES {
            return Err(UnitFault::Passes);
        }
        let bounds = Bounds {
            place,
            passes,
            limit,
        };
        let blocks = blocks_of(alloc, bounds, !versions && !K::keeps_acts())?;
        let book = Book::new(alloc, blocks.share()?);
        let (desk, token) = steps::open(alloc, bounds, book)?;
        let dealt = deal(alloc, &desk, token, passes, &blocks, versions)?;
        let latch = Latch::new(desk);
        Ok((
            Unit {
                latch,
                number,
                bounds,
                versions,
            },
            dealt,
        ))
    }

    /// The LBAs of the unit, and the size of its blocks.
    pub fn place(&self) -> Place
        ensures { result ≡ self.now.bounds.place }
    {
        self.bounds.place
    }

    /// What is kept of the whole history of the unit, once nobody uses it any more: the history, or the number of its entries. The
    /// passes are those that came with the unit, in their order. It takes no memory, and waits for nothing.
    pub fn close(self, passes: Vec<Pass<K>>) -> K
        requires { AreAllPassesOf self passes.items }
        ensures whole { IsWholeHistory self.bounds (views_of passes.items) (K.told result) }
        ensures events { HasCome self.bounds (views_of passes.items) (K.told result) }
    {
        let Unit {
            latch,
            number: _,
            bounds: _,
            versions: _,
        } = self;
        let desk = latch.into_desk();
        let token = gather(&desk, passes);
        steps::close(desk, token)
    }

    /// Whether the act's range has a block and lies in the unit, and its data has exactly the blocks of the
    /// range. It takes no memory.
    pub fn covers(&self, act: ActRef<'_>) -> bool
        ensures { IsTrue result ↔ IsCovered self.now.bounds.place (lent_operation_of act.entry) }
    {
        self.bounds.place.covers(act)
    }

    /// Whether the look's range has a block and lies in the unit, and its data, if it has any, has exactly
    /// the blocks of the range. It takes no memory.
    pub fn covers_look(&self, look: Look<'_>) -> bool
        ensures { IsTrue result ↔ IsCovered self.now.bounds.place (look_operation_of look.entry) }
    {
        self.bounds.place.covers_look(look)
    }
}

/// The blocks of a new unit, all of them zero bytes: where nobody shares them, in memory of their own.
fn blocks_of(alloc: Global, bounds: Bounds, own: bool) -> Result<UnitBlocks, NoMemory>
    requires some { 0 < bounds.place.blocks }
    requires low { bounds.place.first + bounds.place.blocks ≤ 2 ^ 40 }
    ensures place { IfOk result (LiesAt bounds.place) }
    ensures zeroes { IfOk result (λ unit. Holds unit (zero_medium bounds.place.size)) }
{
    let place = bounds.place;
    if own {
        return UnitBlocks::own(alloc, place.first, place.blocks, place.size);
    }
    UnitBlocks::zeroed(alloc, place.first, place.blocks, place.size)
}
