ghost use Rattle.std.specs.Prelude.{◌≡◌, ◌++◌, OnOk, map};
ghost use Rattle.nvm_plan.specs.Checks as checks;
ghost use Rattle.nvm_standard.specs.Commands as spec;
ghost use Rattle.nvm_standard.specs.PointView.{seen};

use crate::commands::{blocks_of, data_of, is_here, put_failed, run_of};
use crate::doer::Doer;
use crate::pairs::{put_held, put_open, put_pair};
use crate::point::Point;
use crate::run::is_within;
use crate::told::{Told, ended_as, told_of};
use nvm_geometry::Geometry;
use nvm_record::{Command, NoMemory, Op, Status};

/// Whether the opcodes are those of a Compare and then a Write.
fn are_compare_and_write(first: Op, second: Op) -> bool
    ensures { result ≡ checks.are_compare_and_write first second }
{
    match first {
        Op::Compare => match second {
            Op::Write => true,
            _ => false,
        },
        _ => false,
    }
}

/// Whether the two are a Compare and a Write of the same blocks of this namespace.
#[tactic(auto, unfolding(crate::specs::Commands::is_pair))]
pub(crate) fn is_pair(compare: &Command, write: &Command) -> bool
    ensures { result ≡ spec.is_pair compare.now write.now }
{
    are_compare_and_write(compare.op, write.op)
        && is_here(compare)
        && is_here(write)
        && compare.slba == write.slba
        && compare.nlb == write.nlb
}

/// Whether a pair's statuses say that nothing was written, or nothing is known but that.
fn says_nothing(first: Option<Status>, second: Option<Status>) -> bool
    ensures { result ≡ spec.says_nothing first second }
{
    ended_as(first, 2, 0x81)
        || told_of(second).is_early()
        || told_of(first).is_early() && !ended_as(first, 0, 0x09)
}

/// A pair of which it isn't known whether its comparison held.
#[tactic(auto, unfolding(crate::specs::Commands::unsure_points))]
fn put_unsure<'t>(
    points: &mut Vec<Point<'t>>,
    geometry: &Geometry,
    doer: Doer,
    compare: &'t Command,
    write: &'t Command,
    host: bool,
) -> Result<(), NoMemory>
    ensures { OnOk result (map seen points.new.items ≡ map seen points.old.items
        ++ spec.unsure_points geometry.now doer compare.entry.now write.entry.now host) }
{
    let until = if host { None } else { doer.ended };
    let run = run_of(geometry, compare);
    let payload = data_of(geometry, compare);
    let new = data_of(geometry, write);
    put_open(points, doer, run, payload, new, until)
}

/// A Compare and a Write of the same blocks, by their statuses.
#[tactic(auto, unfolding(crate::specs::Commands::pair_points))]
pub(crate) fn put_pair_of<'t>(
    points: &mut Vec<Point<'t>>,
    geometry: &Geometry,
    doer: Doer,
    compare: &'t Command,
    write: &'t Command,
    first: Option<Status>,
    second: Option<Status>,
) -> Result<(), NoMemory>
    ensures { OnOk result (map seen points.new.items ≡ map seen points.old.items
        ++ spec.pair_points geometry.now doer compare.entry.now write.entry.now first second) }
{
    let told = told_of(first);
    let then = told_of(second);
    let run = run_of(geometry, compare);
    let payload = data_of(geometry, compare);
    let new = data_of(geometry, write);
    if told.is_done() && then.is_done() {
        let entry = is_within(geometry, geometry.nacwu(), compare.slba, blocks_of(compare));
        return put_pair(points, doer, run, entry, payload, new);
    }
    if ended_as(first, 2, 0x85) {
        return put_failed(points, geometry, doer, compare);
    }
    if told.is_done() {
        return put_held(points, doer, run, payload, new, then);
    }
    if then.is_done() {
        return put_held(points, doer, run, payload, new, Told::Done);
    }
    if says_nothing(first, second) {
        return Ok(());
    }
    put_unsure(
        points,
        geometry,
        doer,
        compare,
        write,
        told.is_host() || then.is_host(),
    )
}
