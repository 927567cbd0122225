ghost use Rattle.std.specs.Prelude.{◌≡◌, ◌≤◌, ◌<◌, ◌+◌, IfOk, IsTrue, MatchOption, false, take};
ghost use Rattle.nvm_geometry.specs.Boundaries.{units_of};
ghost use Rattle.nvm_record.specs.Medium.{Medium, zero_medium};
ghost use Rattle.nvm_record.specs.Step.{medium_after, statuses_of};
ghost use Rattle.nvm_store.specs.Contents.{Covers, Holds, StaysInPlace};
ghost use Rattle.nvm_explain.specs.UnitAt.{AreCovered, AreCoveredIn, IsAfter, IsAtPoint};
ghost use Rattle.nvm_explain.specs.Reached.{all_succeed, is_reached, is_success};

use nvm_geometry::Geometry;
use nvm_plan::unit_place;
use nvm_record::NoMemory;
use nvm_store::{Entry, Place, UnitBlocks, judge};
use std::alloc::Global;

/// A unit at a point of its history.
#[derive(Drop)]
pub struct UnitAt<'a> {
    /// The number of the unit.
    pub unit: u16,
    /// The entries before the point.
    pub before: &'a [Entry],
    /// What the unit holds after them.
    pub blocks: UnitBlocks,
}

/// The unit of this number at a point of its history, if there is such a point, and each entry before it succeeds.
#[tactic(auto, using(crate::proofs::Covering::covered_front), unfolding(crate::specs::Reached::is_reached))]
pub(crate) fn unit_at<'a>(
    alloc: Global,
    geometry: &Geometry,
    unit: u16,
    history: &'a [Entry],
    point: u32,
) -> Result<Option<UnitAt<'a>>, NoMemory>
    requires known { unit < units_of geometry.now }
    requires covered { AreCoveredIn geometry.now unit history.now }
    ensures { IfOk result (λ found. MatchOption found (is_reached geometry.now.block_size history.now point ≡ false)
        (λ at. (at.unit ≡ unit) × (at.before.now ≡ take point history.now)
        × IsAtPoint geometry.now unit history.now point at.blocks)) }
{
    let point = point as usize;
    if point > history.len() {
        return Ok(None);
    }
    let _nsze = geometry.nsze();
    let place = unit_place(geometry, unit);
    let before = &history[..point];
    let Some(blocks) = blocks_after(alloc, place, before)? else {
        return Ok(None);
    };
    Ok(Some(UnitAt {
        unit,
        before,
        blocks,
    }))
}

/// The unit's blocks after these entries, from zero bytes, or `None` where one of them doesn't succeed after those before it.
fn blocks_after(
    alloc: Global,
    place: Place,
    entries: &[Entry],
) -> Result<Option<UnitBlocks>, NoMemory>
    requires some { 0 < place.blocks }
    requires low { place.first + place.blocks ≤ 65536 }
    requires covered { AreCovered place entries.now }
    ensures { IfOk result (λ found. MatchOption found (all_succeed place.size (zero_medium place.size) entries.now ≡ false)
        (λ blocks. IsAfter place entries.now blocks)) }
{
    let mut blocks = UnitBlocks::zeroed(alloc, place.first, place.blocks, place.size)?;
    for entry in entries {
        if !goes_on(alloc, &mut blocks, entry)? {
            return Ok(None);
        }
    }
    Ok(Some(blocks))
}

/// Makes the entry's step, if it succeeds. The result says whether it does.
fn goes_on(alloc: Global, blocks: &mut UnitBlocks, entry: &Entry) -> Result<bool, NoMemory>
    requires { Covers blocks.old entry.now.operation }
    ensures place { StaysInPlace blocks.old blocks.new }
    ensures goes { IfOk result (λ goes. (m : Medium) → Holds blocks.old m
        → goes ≡ is_success (statuses_of entry.now.operation m)) }
    ensures step { IfOk result (λ goes. (m : Medium) → IsTrue goes → Holds blocks.old m
        → Holds blocks.new (medium_after blocks.old.size entry.now.operation m)) }
{
    let act = entry.act.as_ref();
    if !judge(blocks, act).is_success() {
        return Ok(false);
    }
    blocks.change(alloc, act)?;
    Ok(true)
}
