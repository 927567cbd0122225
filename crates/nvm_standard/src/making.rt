ghost use Rattle.std.specs.Prelude.{◌≡◌, ◌++◌, IfErr, IfOk, OnOk, None, map, option_map};
ghost use Rattle.nvm_standard.specs.PointView.{seen, seen_table};
ghost use Rattle.nvm_standard.specs.Table as spec;
ghost use Rattle.nvm_standard.specs.Table.{IsFaultOf, first_wrong as wrong_first, table_of};

use crate::commands::put_single;
use crate::doer::Doer;
use crate::pairing::{is_pair, put_pair_of};
use crate::point::Point;
use crate::points::Points;
use crate::points_fault::PointsFault;
use crate::profile::{Held, Profile};
use crate::told::{ended_as, first_status, second_status, told_of};
use nvm_geometry::Geometry;
use nvm_plan::Body;
use nvm_record::{Command, NoMemory, ReadData, Status};
use nvm_trace::{Ending, Trace, TracedJob};
use std::alloc::Global;

/// The time of the end, where one was seen.
fn time_of(ended: &Option<Ending>) -> Option<u64>
    ensures { result ≡ spec.time_of ended.now }
{
    match ended {
        Some(ending) => Some(ending.time),
        None => None,
    }
}

/// The data that came back.
fn data_told<'t>(ended: &'t Option<Ending>) -> Option<&'t ReadData>
    ensures { option_map (λ p. p.now) result ≡ spec.data_told ended.entry.now }
{
    match ended {
        Some(ending) => match &ending.payload {
            Some(payload) => Some(payload),
            None => None,
        },
        None => None,
    }
}

/// The commands of a body: two that are no pair are two by themselves.
#[tactic(auto, unfolding(crate::specs::Table::body_points))]
fn put_body<'t>(
    points: &mut Vec<Point<'t>>,
    geometry: &Geometry,
    held: Held,
    doer: Doer,
    ended: &'t Option<Ending>,
    body: &'t Body,
) -> Result<(), NoMemory>
    ensures { OnOk result (map seen points.new.items ≡ map seen points.old.items
        ++ spec.body_points geometry.now held doer ended.entry.now body.entry.now) }
{
    let first = first_status(ended);
    match body {
        Body::Single(command) => {
            let payload = data_told(ended);
            put_single(points, geometry, held, doer, command, first, payload)
        }
        Body::Pair(compare, write) => {
            let second = second_status(ended);
            if is_pair(compare, write) {
                return put_pair_of(points, geometry, doer, compare, write, first, second);
            }
            put_single(points, geometry, held, doer, compare, first, None)?;
            put_single(points, geometry, held, doer, write, second, None)
        }
    }
}

/// The points of the command of this number.
fn put_command<'t>(
    points: &mut Vec<Point<'t>>,
    geometry: &Geometry,
    held: Held,
    number: u32,
    traced: &'t TracedJob,
) -> Result<(), NoMemory>
    ensures { OnOk result (map seen points.new.items ≡ map seen points.old.items
        ++ spec.points_of_command geometry.now held number traced.entry.now) }
{
    let doer = Doer {
        command: number,
        began: traced.began,
        ended: time_of(&traced.ended),
    };
    put_body(
        points,
        geometry,
        held,
        doer,
        &traced.ended,
        &traced.job.body,
    )
}

/// Whether one status of a pair says that the comparison held, and the other that it didn't.
fn are_wrong(first: Option<Status>, second: Option<Status>) -> bool
    ensures { result ≡ spec.are_wrong first second }
{
    let told = told_of(first);
    !told.is_done() && !told.is_host() && told_of(second).is_done()
        || told.is_done() && ended_as(second, 0, 0x09)
}

/// Whether two commands with this reply are a pair whose statuses contradict each other.
fn is_wrong_pair(ended: &Option<Ending>, compare: &Command, write: &Command) -> bool
    ensures { result ≡ spec.is_wrong_pair ended.now compare.now write.now }
{
    is_pair(compare, write) && are_wrong(first_status(ended), second_status(ended))
}

/// Whether the reply is wrong by itself.
#[tactic(auto, unfolding(crate::specs::Table::is_wrong))]
fn is_wrong(traced: &TracedJob) -> bool
    ensures { result ≡ spec.is_wrong traced.now }
{
    match &traced.job.body {
        Body::Single(_) => false,
        Body::Pair(compare, write) => is_wrong_pair(&traced.ended, compare, write),
    }
}

/// The number of the first command whose reply is wrong by itself.
fn first_wrong(jobs: &Vec<TracedJob>) -> Option<usize>
    ensures { result ≡ wrong_first jobs.now.items }
{
    jobs.iter().position(|traced| is_wrong(traced))
}

/// The points of the trace's commands.
fn points_in<'t>(alloc: Global, trace: &'t Trace, held: Held) -> Result<Vec<Point<'t>>, NoMemory>
    ensures { IfOk result (λ points. map seen points.items
        ≡ spec.points_from trace.entry.now.namespace held 0 trace.entry.now.jobs) }
{
    let mut points = Vec::new(alloc);
    for number in 0..trace.jobs.len() {
        let traced = &trace.jobs[number];
        put_command(&mut points, &trace.geometry, held, number as u32, traced)?;
    }
    Ok(points)
}

/// The points of a trace's commands, as docs/STANDARD.md has them. Where a reply is wrong by itself it is named, the first such. The
/// time, and the number of points, are at most linear in the trace.
pub fn points_of<'t>(
    alloc: Global,
    trace: &'t Trace,
    profile: Profile,
) -> Result<Points<'t>, PointsFault>
    ensures table { IfOk result (λ points. seen_table points ≡ table_of trace.entry.now profile) }
    ensures right { OnOk result (wrong_first trace.entry.now.jobs ≡ None) }
    ensures fault { IfErr result (IsFaultOf trace.entry.now) }
{
    if let Some(command) = first_wrong(&trace.jobs) {
        return Err(PointsFault::Wrong {
            command: command as u32,
        });
    }
    let points = points_in(alloc, trace, profile.held)?;
    Ok(Points {
        nsze: trace.geometry.nsze() as u32,
        block_size: trace.geometry.block_size(),
        start: trace.start,
        deallocated: profile.deallocated,
        points,
    })
}
