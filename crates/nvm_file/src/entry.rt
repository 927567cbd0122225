//! The histories of units, in a record file.
ghost use Rattle.std.specs.Prelude.{◌≡◌, ◌<◌, length, map};
ghost use Rattle.nvm_geometry.specs.Boundaries.{units_of as unit_count};
ghost use Rattle.nvm_file.specs.EntryReading.{entry_at, history_at, place_of};
ghost use Rattle.nvm_file.specs.Fields.{Gives, items_at};
ghost use Rattle.nvm_file.specs.Reading.{units_at};
ghost use Rattle.nvm_file.specs.Inside.Rest.{left_of};

use crate::act::act_of;
use crate::fields::{u16_below, u32_below, u32_in};
use crate::frame::Frame;
use crate::items::items_of;
use crate::record_fault::RecordFault;
use crate::rest::Rest;
use nvm_geometry::{Geometry, laws};
use nvm_plan::unit_place;
use nvm_store::{Entry, History, Place};
use std::alloc::Global;

/// A history has so many bytes at least: the number of its entries.
const LEAST_HISTORY_BYTES: usize = 4;

/// An entry has so many bytes at least: its numbers, its kind and its range.
const LEAST_BYTES: usize = 19;

/// The history of each unit, in the order of the units. Their data is shared with the file.
pub fn units_of<'a>(
    alloc: Global,
    frame: &Frame,
    from: Rest<'a>,
) -> Result<(Vec<History>, Rest<'a>), RecordFault>
    ensures { Gives (λ x. (map (λ history. history.items) x.0.items, left_of x.1)) result (units_at frame.now (left_of from.entry)) }
{
    let count = frame.geometry.units();
    items_of(
        alloc,
        count as u32,
        LEAST_HISTORY_BYTES,
        from,
        |unit, rest| { history_of(alloc, frame, unit as u16, rest) },
    )
}

/// The history of a unit: how many entries it has, and each of them. The data of its entries has a count of owners that no other unit
/// uses, so threads that audit different units don't wait for each other. A unit without entries takes none.
#[tactic(auto, unfolding(crate::specs::EntryReading::history_at))]
fn history_of<'a>(
    alloc: Global,
    frame: &Frame,
    unit: u16,
    rest: Rest<'a>,
) -> Result<(History, Rest<'a>), RecordFault>
    requires { unit < unit_count frame.now.geometry }
    ensures { Gives (λ x. (x.0.items, left_of x.1)) result (history_at frame.now unit (left_of rest.entry)) }
{
    let (count, rest) = u32_in(frame.total, 0, frame.limit.entries(), rest)?;
    if count == 0 {
        return Ok((Vec::new(alloc), rest));
    }
    let place = place_in(&frame.geometry, unit);
    let file = rest.own_share(alloc)?;
    let (history, after) = entries_of(alloc, frame, &place, count, rest.in_share(&file))?;
    Ok((history, rest.up_to(after)))
}

/// Where the unit lies.
#[tactic(auto, unfolding(crate::specs::EntryReading::place_of))]
fn place_in(geometry: &Geometry, unit: u16) -> Place
    requires { unit < unit_count geometry.now }
    ensures { result ≡ place_of geometry.now unit }
{
    laws::each_unit_has_one_place();
    let _nsze = geometry.nsze();
    unit_place(geometry, unit)
}

/// So many entries of a unit.
fn entries_of<'a>(
    alloc: Global,
    frame: &Frame,
    place: &Place,
    count: u32,
    from: Rest<'a>,
) -> Result<(History, Rest<'a>), RecordFault>
    ensures { Gives (λ x. (x.0.items, left_of x.1)) result (items_at (λ _. entry_at frame.now place.now) 0 count (left_of from.entry)) }
{
    items_of(alloc, count, LEAST_BYTES, from, |_, rest| {
        entry_of(alloc, frame, place, rest)
    })
}

/// An entry in the unit that lies there: the numbers of its pass and of its job, and what was done.
#[tactic(auto, unfolding(crate::specs::EntryReading::entry_at))]
fn entry_of<'a>(
    alloc: Global,
    frame: &Frame,
    place: &Place,
    rest: Rest<'a>,
) -> Result<(Entry, Rest<'a>), RecordFault>
    ensures { Gives (λ x. (x.0, left_of x.1)) result (entry_at frame.now place.now (left_of rest.entry)) }
{
    let (pass, rest) = u16_below(frame.total, frame.workers, rest)?;
    let (job, rest) = u32_below(frame.total, frame.jobs, rest)?;
    let (act, rest) = act_of(alloc, frame.total, frame.version, place, rest)?;
    Ok((Entry { pass, job, act }, rest))
}
