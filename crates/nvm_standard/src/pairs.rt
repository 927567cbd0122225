ghost use Rattle.std.specs.Prelude.{◌≡◌, ◌++◌, OnOk, map};
ghost use Rattle.nvm_standard.specs.PointView.{seen};
ghost use Rattle.nvm_standard.specs.Rows as spec;

use crate::doer::Doer;
use crate::point::{Found, Point, Presence, Put};
use crate::rows::{for_each, put_some};
use crate::run::Run;
use crate::told::Told;
use nvm_record::NoMemory;

/// The point of a pair's Compare.
fn compared<'t>(doer: Doer, run: Run, payload: &'t [u8]) -> Point<'t>
    ensures { seen result ≡ spec.compared doer run payload.entry.now }
{
    let point = for_each(doer, run);
    Point {
        found: Found::Bytes(payload),
        ..point
    }
}

/// The point of a pair's Write.
fn written<'t>(doer: Doer, run: Run, payload: &'t [u8]) -> Point<'t>
    ensures { seen result ≡ spec.written doer run payload.entry.now }
{
    let point = for_each(doer, run);
    Point {
        put: Put::Bytes(payload),
        after: true,
        ..point
    }
}

/// A pair that was done in full; `entry`: at one moment.
#[tactic(auto, unfolding(crate::specs::Rows::pair_row))]
pub(crate) fn put_pair<'t>(
    points: &mut Vec<Point<'t>>,
    doer: Doer,
    run: Run,
    entry: bool,
    payload: &'t [u8],
    new: &'t [u8],
) -> Result<(), NoMemory>
    ensures { OnOk result (map seen points.new.items
        ≡ map seen points.old.items ++ spec.pair_row doer run entry payload.entry.now new.entry.now) }
{
    if entry {
        let point = for_each(doer, run);
        return put_some(
            points,
            Point {
                found: Found::Bytes(payload),
                put: Put::Bytes(new),
                each: false,
                ..point
            },
        );
    }
    put_some(points, compared(doer, run, payload))?;
    put_some(points, written(doer, run, new))
}

/// What a pair's Write may have done, by what its status says.
fn put_open_write<'t>(
    points: &mut Vec<Point<'t>>,
    doer: Doer,
    run: Run,
    new: &'t [u8],
    second: Told,
) -> Result<(), NoMemory>
    ensures { OnOk result (map seen points.new.items
        ≡ map seen points.old.items ++ spec.open_write_row doer run new.entry.now second) }
{
    let point = written(doer, run, new);
    match second {
        Told::Done => put_some(points, point),
        Told::Before => Ok(()),
        Told::Error => put_some(
            points,
            Point {
                presence: Presence::Optional,
                ..point
            },
        ),
        Told::ByHost => put_some(
            points,
            Point {
                presence: Presence::Optional,
                until: None,
                ..point
            },
        ),
    }
}

/// A pair of which the comparison held.
#[tactic(auto, unfolding(crate::specs::Rows::held_row))]
pub(crate) fn put_held<'t>(
    points: &mut Vec<Point<'t>>,
    doer: Doer,
    run: Run,
    payload: &'t [u8],
    new: &'t [u8],
    second: Told,
) -> Result<(), NoMemory>
    ensures { OnOk result (map seen points.new.items
        ≡ map seen points.old.items ++ spec.held_row doer run payload.entry.now new.entry.now second) }
{
    put_some(points, compared(doer, run, payload))?;
    put_open_write(points, doer, run, new, second)
}

/// A pair of which nothing is known.
#[tactic(auto, unfolding(crate::specs::Rows::open_row))]
pub(crate) fn put_open<'t>(
    points: &mut Vec<Point<'t>>,
    doer: Doer,
    run: Run,
    payload: &'t [u8],
    new: &'t [u8],
    until: Option<u64>,
) -> Result<(), NoMemory>
    ensures { OnOk result (map seen points.new.items
        ≡ map seen points.old.items ++ spec.open_row doer run payload.entry.now new.entry.now until) }
{
    let found = compared(doer, run, payload);
    put_some(
        points,
        Point {
            presence: Presence::Together,
            until,
            ..found
        },
    )?;
    let put = written(doer, run, new);
    put_some(
        points,
        Point {
            presence: Presence::Optional,
            until,
            ..put
        },
    )
}
