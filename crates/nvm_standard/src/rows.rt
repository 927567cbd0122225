ghost use Rattle.std.specs.Prelude.{◌≡◌, ◌++◌, ◌<◌, ◌≤◌, ◌+◌, OnOk, Some, None, map};
ghost use Rattle.nvm_standard.specs.PointView.{seen, seen_found, seen_put};
ghost use Rattle.nvm_standard.specs.Rows as spec;
ghost use Rattle.nvm_standard.specs.Rows.{where_some};
ghost use Rattle.nvm_geometry.specs.Parts.{pieces_of};

use crate::doer::Doer;
use crate::point::{Found, Point, Presence, Put};
use crate::profile::Held;
use crate::run::{Run, data_part};
use crate::told::Told;
use nvm_geometry::{Geometry, laws};
use nvm_record::NoMemory;

/// For each block of the run one point, sure, between the command's beginning and its end. It does nothing yet.
pub(crate) fn for_each<'t>(doer: Doer, run: Run) -> Point<'t>
    ensures { seen result ≡ spec.for_each doer run }
{
    Point {
        command: doer.command,
        first: run.first,
        blocks: run.blocks,
        each: true,
        found: Found::Nothing,
        put: Put::Nothing,
        presence: Presence::Sure,
        after: false,
        tied: false,
        from: doer.began,
        until: doer.ended,
        over: None,
    }
}

/// Puts the point at the end, where it has a block.
pub(crate) fn put_some<'t>(points: &mut Vec<Point<'t>>, point: Point<'t>) -> Result<(), NoMemory>
    ensures { OnOk result (map seen points.new.items ≡ map seen points.old.items ++ where_some (seen point.entry)) }
{
    if point.blocks > 0 {
        points.push(point)?;
    }
    Ok(())
}

/// Write, Write Zeroes and Write Uncorrectable; `entry`: all blocks are put at one moment.
#[tactic(auto, unfolding(crate::specs::Rows::write_row))]
pub(crate) fn put_write<'t>(
    points: &mut Vec<Point<'t>>,
    doer: Doer,
    run: Run,
    put: Put<'t>,
    entry: bool,
    told: Told,
) -> Result<(), NoMemory>
    ensures { OnOk result (map seen points.new.items
        ≡ map seen points.old.items ++ spec.write_row doer run (seen_put put.entry) entry told) }
{
    let point = for_each(doer, run);
    match told {
        Told::Done => put_some(
            points,
            Point {
                put,
                each: !entry,
                ..point
            },
        ),
        Told::Before => Ok(()),
        Told::Error => put_some(
            points,
            Point {
                put,
                presence: Presence::Optional,
                ..point
            },
        ),
        Told::ByHost => put_some(
            points,
            Point {
                put,
                presence: Presence::Optional,
                until: None,
                ..point
            },
        ),
    }
}

/// Of what is found, that of the blocks after the first `skipped` ones.
fn found_part<'t>(size: u32, skipped: u32, blocks: u32, found: Found<'t>) -> Found<'t>
    ensures { seen_found result ≡ spec.found_part size skipped blocks (seen_found found.entry) }
{
    match found {
        Found::Nothing => Found::Nothing,
        Found::Bytes(payload) => Found::Bytes(data_part(size, skipped, blocks, payload)),
        Found::AnyBytes => Found::AnyBytes,
        Found::OtherThan(payload) => Found::OtherThan(data_part(size, skipped, blocks, payload)),
    }
}

/// What is found in each unit of the run, at one moment each.
fn put_units<'t>(
    points: &mut Vec<Point<'t>>,
    geometry: &Geometry,
    doer: Doer,
    run: Run,
    found: Found<'t>,
) -> Result<(), NoMemory>
    requires some { 0 < run.blocks }
    requires in_range { run.first + run.blocks ≤ geometry.now.nsze }
    ensures { OnOk result (map seen points.new.items ≡ map seen points.old.items
        ++ map (spec.find_in_unit geometry.now.block_size doer run.first (seen_found found.entry))
        (pieces_of geometry.now run.first run.blocks)) }
{
    laws::pieces_stand_in_line();
    // So the numbers of blocks fit 32 bits.
    let _nsze = geometry.nsze();
    let size = geometry.block_size().bytes();
    let mut first = run.first;
    for piece in geometry.parts(u64::from(run.first), run.blocks) {
        let blocks = piece.blocks;
        let point = for_each(doer, Run { first, blocks });
        let part = found_part(size, first - run.first, blocks, found);
        points.push(Point {
            found: part,
            each: false,
            ..point
        })?;
        first += blocks;
    }
    Ok(())
}

/// A Read or a Compare that ended 0/00.
#[tactic(auto, unfolding(crate::specs::Rows::find_row))]
pub(crate) fn put_find<'t>(
    points: &mut Vec<Point<'t>>,
    geometry: &Geometry,
    held: Held,
    tied: bool,
    doer: Doer,
    run: Run,
    found: Found<'t>,
) -> Result<(), NoMemory>
    requires { 0 < run.blocks → run.first + run.blocks ≤ geometry.now.nsze }
    ensures { OnOk result (map seen points.new.items
        ≡ map seen points.old.items ++ spec.find_row geometry.now held tied doer run (seen_found found.entry)) }
{
    if held.is_whole() {
        if run.blocks > 0 {
            return put_units(points, geometry, doer, run, found);
        }
        return Ok(());
    }
    let point = for_each(doer, run);
    put_some(
        points,
        Point {
            found,
            tied,
            ..point
        },
    )
}

/// A Compare that ended 2/85, of which all blocks exist.
#[tactic(auto, unfolding(crate::specs::Rows::differ_row))]
pub(crate) fn put_differ<'t>(
    points: &mut Vec<Point<'t>>,
    doer: Doer,
    run: Run,
    payload: &'t [u8],
) -> Result<(), NoMemory>
    ensures { OnOk result (map seen points.new.items
        ≡ map seen points.old.items ++ spec.differ_row doer run payload.entry.now) }
{
    let point = for_each(doer, run);
    put_some(
        points,
        Point {
            found: Found::OtherThan(payload),
            presence: Presence::OneOf,
            ..point
        },
    )
}

/// One range of a Deallocate that was over at this time, if it ever was.
pub(crate) fn put_deallocate<'t>(
    points: &mut Vec<Point<'t>>,
    doer: Doer,
    over: Option<u64>,
    run: Run,
) -> Result<(), NoMemory>
    ensures { OnOk result (map seen points.new.items
        ≡ map seen points.old.items ++ spec.deallocate_row doer over run) }
{
    let point = for_each(doer, run);
    put_some(
        points,
        Point {
            put: Put::Deallocated,
            presence: Presence::Optional,
            until: None,
            over,
            ..point
        },
    )
}

/// An opcode of which it isn't known what it does.
#[tactic(auto, unfolding(crate::specs::Rows::unknown_row))]
pub(crate) fn put_unknown<'t>(
    points: &mut Vec<Point<'t>>,
    doer: Doer,
    run: Run,
    until: Option<u64>,
) -> Result<(), NoMemory>
    ensures { OnOk result (map seen points.new.items
        ≡ map seen points.old.items ++ spec.unknown_row doer run until) }
{
    let point = for_each(doer, run);
    put_some(
        points,
        Point {
            put: Put::Anything,
            presence: Presence::Repeated,
            until,
            ..point
        },
    )
}
