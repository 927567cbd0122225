ghost use Rattle.std.specs.Prelude.{◌+◌, ◌<◌, ◌≤◌, length};
ghost use Rattle.nvm_geometry.specs.Boundaries.{units_of};

use crate::looked_up::entries_of;
use nvm_audit::{Record, Spot};
use nvm_geometry::Geometry;
use nvm_geometry::laws::each_unit_has_one_place;
use nvm_listing::push_entry;
use nvm_record::NoMemory;
use nvm_store::{Entry, Limit};

/// How many entries are listed before a place.
const BEFORE: usize = 3;
/// How many entries are listed from a place on.
const FROM: usize = 4;

/// Appends where the unit lies and how many entries it has, and its entries round a place. The job, if there is one, has the part
/// that rests there.
pub(crate) fn push_around(
    text: &mut String,
    run: &Record,
    spot: Spot,
    job: Option<u32>,
) -> Result<(), NoMemory> {
    let Some(history) = entries_of(run, spot.unit) else {
        return Ok(());
    };
    let Spot { unit, place } = spot;
    push_place(text, &run.geometry, run.limit, unit, history.len())?;
    let at = (place as usize).min(history.len());
    let before = &history[..at];
    let from = at.saturating_sub(BEFORE);
    push_entries(text, unit, from, &before[from..])?;
    if let Some(job) = job {
        write!(text, "unit {unit} point {place} rests job {job}\n")?;
    }
    let after = &history[at..];
    push_entries(text, unit, at, &after[..after.len().min(FROM)])
}

/// Appends where the unit lies, how many entries it has, and how many it may have.
fn push_place(
    text: &mut String,
    geometry: &Geometry,
    limit: Limit,
    unit: u16,
    entries: usize,
) -> Result<(), NoMemory>
    requires { unit < units_of geometry.now }
{
    each_unit_has_one_place();
    let (first, blocks) = geometry.unit_range(unit);
    let limit = limit.entries();
    write!(
        text,
        "unit {unit} first {first} blocks {blocks} entries {entries} limit {limit}\n"
    )
}

/// Appends the lines of entries, of which the first has place `from`.
fn push_entries(
    text: &mut String,
    unit: u16,
    from: usize,
    entries: &[Entry],
) -> Result<(), NoMemory>
    requires { from + length entries.now ≤ 18446744073709551615 }
{
    for (i, entry) in entries.iter().enumerate() {
        push_entry(text, usize::from(unit), from + i, entry)?;
    }
    Ok(())
}
