ghost use Rattle.std.specs.Prelude.{◌≡◌, ◌↔◌, ◌+◌, ◌<◌, ◌≤◌, length, IfOk, IsTrue, MatchOption, OnOk};
ghost use Rattle.std.specs.List.{AllByRecursion};
ghost use Rattle.nvm_record.specs.Lists.{IsAt};
ghost use Rattle.nvm_plan.specs.UnitPlace.{IsUnitPlace};
ghost use Rattle.nvm_store.specs.Contents.{Holds, place_of};
ghost use Rattle.nvm_store.specs.HistoryEntry.{HistoryEntry};
ghost use Rattle.nvm_store.specs.Point.{point};
ghost use Rattle.nvm_audit.specs.Inside.Audited.{view_of_shown, IsKnownUnit, IsJudged, AreJudgedBelow, AreByPoint, IsFirstAmong, checks_of_entry, IsWalkedTo, IsWalkedWhole};
ghost use Rattle.nvm_audit.specs.Inside.Claims.{AreClaims};
ghost use Rattle.nvm_audit.specs.LawfulUnit.{IsClaimed};
ghost use Rattle.nvm_audit.specs.UnitChecks.{IsEntryRight, PassesInUnit, entry_checks};
ghost use Rattle.nvm_audit.specs.RecordedPart.{RecordedPart};

use crate::audit_fault::{AuditFault, Spot};
use crate::by_point::ByPoint;
use crate::entries::entry_is_right;
use crate::judging::{Finding, judge_part};
use crate::shown_unit::ShownUnit;
use nvm_plan::unit_place;
use nvm_record::NoMemory;
use nvm_store::UnitBlocks;
use nvm_store::laws::{next_point, success_on_held};
use std::alloc::Global;

/// What is found of the part of this number, on the blocks at its point.
fn finding(u: &ShownUnit<'_, '_>, k: usize, blocks: &UnitBlocks) -> Finding
    requires known { IsKnownUnit (view_of_shown u.now) }
    requires there { k < length u.now.parts.now.items }
    requires lies { IsUnitPlace u.now.geometry.now u.now.unit (place_of blocks.now) }
    ensures { (p : RecordedPart) → IsAt u.now.parts.now.items k p → p.part.point ≤ length u.now.history.now.items
        → Holds blocks.now (point u.now.geometry.now.block_size u.now.history.now.items p.part.point)
        → IsJudged (view_of_shown u.now) p result }
{
    let p = &u.parts[k];
    let done = p.done;
    judge_part(u.geometry, u.limit, &u.jobs[done.job as usize], p, blocks)
}

/// Judges the parts at a point, on its blocks, and puts down what is found of each.
#[inline(always)]
fn judge_at(
    u: &ShownUnit<'_, '_>,
    by_point: &ByPoint,
    n: usize,
    blocks: &UnitBlocks,
    findings: &mut Vec<Finding>,
)
    requires known { IsKnownUnit (view_of_shown u.now) }
    requires by_point { AreByPoint (length u.now.history.now.items) u.now.parts.now.items by_point.now.last.items
        by_point.now.before.items }
    requires within { n ≤ length u.now.history.now.items }
    requires lies { IsUnitPlace u.now.geometry.now u.now.unit (place_of blocks.now) }
    requires held { Holds blocks.now (point u.now.geometry.now.block_size u.now.history.now.items n) }
    requires each { length findings.old.items ≡ length u.now.parts.now.items }
    requires judged { AreJudgedBelow (view_of_shown u.now) n findings.old.items }
    ensures each { length findings.new.items ≡ length u.now.parts.now.items }
    ensures judged { AreJudgedBelow (view_of_shown u.now) (n + 1) findings.new.items }
{
    let mut at = by_point.last[n];
    while at > 0 {
        let k = at - 1;
        findings[k] = finding(u, k, blocks);
        at = by_point.before[k];
    }
}

/// What is wrong with the entry at this place, after which the blocks aren't changed yet, if anything is.
fn entry_fault(
    u: &ShownUnit<'_, '_>,
    place: usize,
    is_claimed: bool,
    blocks: &UnitBlocks,
) -> Option<AuditFault>
    requires known { IsKnownUnit (view_of_shown u.now) }
    requires there { place < length u.now.history.now.items }
    requires lies { IsUnitPlace u.now.geometry.now u.now.unit (place_of blocks.now) }
    requires held { Holds blocks.now (point u.now.geometry.now.block_size u.now.history.now.items place) }
    requires claimed { (entry : HistoryEntry) → IsAt u.now.history.now.items place entry
        → IsTrue is_claimed ↔ IsClaimed u.now.parts.now.items place entry }
    ensures { (entry : HistoryEntry) → IsAt u.now.history.now.items place entry → MatchOption result
        (AllByRecursion (PassesInUnit (view_of_shown u.now)) (checks_of_entry place entry))
        (IsFirstAmong (view_of_shown u.now) (checks_of_entry place entry)) }
{
    let entry = &u.history[place];
    let spot = Spot {
        unit: u.unit,
        place: place as u32,
    };
    if !entry_is_right(
        u.geometry,
        &u.jobs[entry.job as usize],
        u.unit,
        is_claimed,
        entry,
        blocks,
    ) {
        return Some(AuditFault::EntryWrong {
            job: entry.job,
            spot,
        });
    }
    if !is_claimed {
        return Some(AuditFault::EntryUnclaimed {
            job: entry.job,
            spot,
        });
    }
    None
}

/// Changes the blocks by the entry at this place, which is right.
fn advance(
    alloc: Global,
    u: &ShownUnit<'_, '_>,
    place: usize,
    blocks: &mut UnitBlocks,
) -> Result<(), NoMemory>
    requires known { IsKnownUnit (view_of_shown u.now) }
    requires there { place < length u.now.history.now.items }
    requires lies { IsUnitPlace u.now.geometry.now u.now.unit (place_of blocks.old) }
    requires held { Holds blocks.old (point u.now.geometry.now.block_size u.now.history.now.items place) }
    requires right { (entry : HistoryEntry) → IsAt u.now.history.now.items place entry
        → IsEntryRight (view_of_shown u.now) place entry }
    ensures lies { IsUnitPlace u.now.geometry.now u.now.unit (place_of blocks.new) }
    ensures held { OnOk result
        (Holds blocks.new (point u.now.geometry.now.block_size u.now.history.now.items (place + 1))) }
{
    success_on_held();
    next_point();
    let entry = &u.history[place];
    blocks.change(alloc, entry.act.as_ref())
}

/// Judges the parts at this place and the entry there, and goes on after it.
fn step(
    alloc: Global,
    u: &ShownUnit<'_, '_>,
    by_point: &ByPoint,
    claimed: &Vec<bool>,
    place: usize,
    blocks: &mut UnitBlocks,
    findings: &mut Vec<Finding>,
) -> Result<Option<AuditFault>, NoMemory>
    requires known { IsKnownUnit (view_of_shown u.now) }
    requires by_point { AreByPoint (length u.now.history.now.items) u.now.parts.now.items by_point.now.last.items
        by_point.now.before.items }
    requires claimed { AreClaims u.now.history.now.items u.now.parts.now.items claimed.now.items }
    requires there { place < length u.now.history.now.items }
    requires walked { IsWalkedTo (view_of_shown u.now) place blocks.old findings.old.items }
    ensures { IfOk result (λ found. MatchOption found
        (IsWalkedTo (view_of_shown u.now) (place + 1) blocks.new findings.new.items)
        (IsFirstAmong (view_of_shown u.now) (entry_checks 0 u.now.history.now.items))) }
{
    judge_at(u, by_point, place, blocks, findings);
    match entry_fault(u, place, claimed[place], blocks) {
        Some(fault) => Ok(Some(fault)),
        None => {
            advance(alloc, u, place, blocks)?;
            Ok(None)
        }
    }
}

/// Goes through the unit's history once, from zero bytes: judges each part at its point and puts down what is found of it, and
/// looks for the first entry that is wrong or that no part made.
pub(crate) fn walk(
    alloc: Global,
    u: &ShownUnit<'_, '_>,
    by_point: &ByPoint,
    claimed: &Vec<bool>,
    findings: &mut Vec<Finding>,
) -> Result<Option<AuditFault>, NoMemory>
    requires known { IsKnownUnit (view_of_shown u.now) }
    requires by_point { AreByPoint (length u.now.history.now.items) u.now.parts.now.items by_point.now.last.items
        by_point.now.before.items }
    requires claimed { AreClaims u.now.history.now.items u.now.parts.now.items claimed.now.items }
    requires long { length findings.old.items ≡ length u.now.parts.now.items }
    ensures { IfOk result (λ found. MatchOption found (IsWalkedWhole (view_of_shown u.now) findings.new.items)
        (IsFirstAmong (view_of_shown u.now) (entry_checks 0 u.now.history.now.items))) }
{
    let place = unit_place(u.geometry, u.unit);
    let mut blocks = UnitBlocks::zeroed(alloc, place.first, place.blocks, place.size)?;
    for place in 0..u.history.len() {
        match step(alloc, u, by_point, claimed, place, &mut blocks, findings)? {
            Some(fault) => return Ok(Some(fault)),
            None => {}
        }
    }
    judge_at(u, by_point, u.history.len(), &blocks, findings);
    Ok(None)
}
