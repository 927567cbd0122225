ghost use Rattle.std.specs.Prelude.{◌≡◌, ◌++◌, ◌<◌, ◌≤◌, ◌+◌, OnOk, map, option_map};
ghost use Rattle.std.specs.List.{flat_map};
ghost use Rattle.nvm_record.specs.Ranges.{ranges_of};
ghost use Rattle.nvm_record.specs.declared.lba_range.LbaRange.{LbaRange as Range};
ghost use Rattle.nvm_standard.specs.Commands as spec;
ghost use Rattle.nvm_standard.specs.PointView.{seen, seen_found};
ghost use Rattle.nvm_standard.specs.Rows as rows;
ghost use Rattle.nvm_standard.specs.Runs as runs;

use crate::doer::Doer;
use crate::point::{Found, Point, Put};
use crate::profile::Held;
use crate::rows::{put_deallocate, put_differ, put_find, put_unknown, put_write};
use crate::run::{Run, front, is_inside, is_within, run_in};
use crate::told::{Told, ended_as, told_of};
use nvm_geometry::Geometry;
use nvm_record::{Command, LbaRange, NoMemory, Op, ReadData, Status, range_count};

/// How many blocks the command's range has.
pub(crate) fn blocks_of(command: &Command) -> u32
    ensures value { result ≡ command.now.nlb + 1 }
    ensures some { 0 < result }
{
    u32::from(command.nlb) + 1
}

/// Those of the command's blocks that exist.
#[tactic(auto, unfolding(crate::specs::Runs::run_in))]
pub(crate) fn run_of(geometry: &Geometry, command: &Command) -> Run
    ensures value { result ≡ spec.run_of geometry.now command.now }
    ensures inside { 0 < result.blocks → result.first + result.blocks ≤ geometry.now.nsze }
{
    run_in(geometry, command.slba, blocks_of(command))
}

/// The data of those of its blocks that exist.
pub(crate) fn data_of<'t>(geometry: &Geometry, command: &'t Command) -> &'t [u8]
    ensures { result.now ≡ spec.data_of geometry.now command.entry.now }
{
    let run = run_of(geometry, command);
    front(
        geometry.block_size().bytes(),
        run.blocks,
        command.payload.as_slice(),
    )
}

/// The data that came back, or any where the trace has none.
fn found_of_read<'t>(geometry: &Geometry, run: Run, payload: Option<&'t ReadData>) -> Found<'t>
    ensures { seen_found result ≡ spec.found_of_read geometry.now run (option_map (λ p. p.now) payload.entry) }
{
    match payload {
        Some(payload) => Found::Bytes(front(
            geometry.block_size().bytes(),
            run.blocks,
            payload.as_slice(),
        )),
        None => Found::AnyBytes,
    }
}

#[tactic(auto, unfolding(crate::specs::Commands::read_points))]
fn put_read<'t>(
    points: &mut Vec<Point<'t>>,
    geometry: &Geometry,
    held: Held,
    doer: Doer,
    command: &'t Command,
    status: Option<Status>,
    payload: Option<&'t ReadData>,
) -> Result<(), NoMemory>
    ensures { OnOk result (map seen points.new.items ≡ map seen points.old.items
        ++ spec.read_points geometry.now held doer command.entry.now status (option_map (λ p. p.now) payload.entry)) }
{
    if !told_of(status).is_done() {
        return Ok(());
    }
    let run = run_of(geometry, command);
    let found = found_of_read(geometry, run, payload);
    put_find(points, geometry, held, held.ties_reads(), doer, run, found)
}

/// A Compare that ended 2/85. Where its range goes past the end it may have no point, and so has none.
#[tactic(auto, unfolding(crate::specs::Commands::differ_points))]
pub(crate) fn put_failed<'t>(
    points: &mut Vec<Point<'t>>,
    geometry: &Geometry,
    doer: Doer,
    command: &'t Command,
) -> Result<(), NoMemory>
    ensures { OnOk result (map seen points.new.items
        ≡ map seen points.old.items ++ spec.differ_points geometry.now doer command.entry.now) }
{
    if !is_inside(geometry, command.slba, blocks_of(command)) {
        return Ok(());
    }
    let run = run_of(geometry, command);
    put_differ(points, doer, run, data_of(geometry, command))
}

#[tactic(auto, unfolding(crate::specs::Commands::compare_points))]
fn put_compare<'t>(
    points: &mut Vec<Point<'t>>,
    geometry: &Geometry,
    held: Held,
    doer: Doer,
    command: &'t Command,
    status: Option<Status>,
) -> Result<(), NoMemory>
    ensures { OnOk result (map seen points.new.items
        ≡ map seen points.old.items ++ spec.compare_points geometry.now held doer command.entry.now status) }
{
    if told_of(status).is_done() {
        let run = run_of(geometry, command);
        let found = Found::Bytes(data_of(geometry, command));
        return put_find(
            points,
            geometry,
            held,
            held.ties_compares(),
            doer,
            run,
            found,
        );
    }
    if ended_as(status, 2, 0x85) {
        return put_failed(points, geometry, doer, command);
    }
    Ok(())
}

/// Whether the command was never begun.
fn was_refused(status: Option<Status>) -> bool
    ensures { result ≡ spec.was_refused status }
{
    ended_as(status, 0, 0x01) || ended_as(status, 0, 0x0b)
}

/// When the command was over: one that the host ended isn't.
fn over_of(doer: Doer, told: Told) -> Option<u64>
    ensures { result ≡ spec.over_of doer told }
{
    if told.is_host() { None } else { doer.ended }
}

/// Each range of a Deallocate.
fn put_ranges<'t>(
    points: &mut Vec<Point<'t>>,
    geometry: &Geometry,
    doer: Doer,
    over: Option<u64>,
    payload: &[u8],
) -> Result<(), NoMemory>
    ensures { OnOk result (map seen points.new.items ≡ map seen points.old.items
        ++ flat_map (λ (r : Range). rows.deallocate_row doer over (runs.run_in geometry.now r.first r.blocks)) (ranges_of payload.now)) }
{
    for place in 0..range_count(payload) {
        let range = LbaRange::at(payload, place);
        let run = run_in(geometry, range.first, range.blocks);
        put_deallocate(points, doer, over, run)?;
    }
    Ok(())
}

#[tactic(auto, unfolding(crate::specs::Commands::deallocate_points))]
fn put_dataset<'t>(
    points: &mut Vec<Point<'t>>,
    geometry: &Geometry,
    doer: Doer,
    command: &Command,
    status: Option<Status>,
) -> Result<(), NoMemory>
    ensures { OnOk result (map seen points.new.items
        ≡ map seen points.old.items ++ spec.deallocate_points geometry.now doer command.now status) }
{
    if was_refused(status) {
        return Ok(());
    }
    let over = over_of(doer, told_of(status));
    put_ranges(points, geometry, doer, over, command.payload.as_slice())
}

/// Whether the opcode is that of Flush, Verify or a reservation.
fn is_silent(opcode: u8) -> bool
    ensures { result ≡ spec.is_silent opcode }
{
    opcode == 0x00
        || opcode == 0x0c
        || opcode == 0x0d
        || opcode == 0x0e
        || opcode == 0x11
        || opcode == 0x15
}

/// The opcode of Copy.
const COPY: u8 = 0x19;

/// An opcode that may do anything at any time: a Copy not after its end.
#[tactic(auto, unfolding(crate::specs::Commands::unknown_points))]
fn put_other<'t>(
    points: &mut Vec<Point<'t>>,
    geometry: &Geometry,
    doer: Doer,
    opcode: u8,
    status: Option<Status>,
) -> Result<(), NoMemory>
    ensures { OnOk result (map seen points.new.items
        ≡ map seen points.old.items ++ spec.unknown_points geometry.now doer opcode status) }
{
    if is_silent(opcode) || was_refused(status) {
        return Ok(());
    }
    let until = if opcode == COPY {
        over_of(doer, told_of(status))
    } else {
        None
    };
    let blocks = geometry.nsze() as u32;
    put_unknown(points, doer, Run { first: 0, blocks }, until)
}

/// A command of this namespace.
#[tactic(auto, unfolding(crate::specs::Commands::op_points))]
fn put_op<'t>(
    points: &mut Vec<Point<'t>>,
    geometry: &Geometry,
    held: Held,
    doer: Doer,
    command: &'t Command,
    status: Option<Status>,
    payload: Option<&'t ReadData>,
) -> Result<(), NoMemory>
    ensures { OnOk result (map seen points.new.items ≡ map seen points.old.items
        ++ spec.op_points geometry.now held doer command.entry.now.op command.entry.now status (option_map (λ p. p.now) payload.entry)) }
{
    let run = run_of(geometry, command);
    let within = is_within(geometry, geometry.nawun(), command.slba, blocks_of(command));
    let told = told_of(status);
    match command.op {
        Op::Write => {
            let put = Put::Bytes(data_of(geometry, command));
            put_write(points, doer, run, put, within, told)
        }
        Op::WriteZeroes => {
            let entry = held.takes_all() && within;
            put_write(points, doer, run, Put::Zeroes, entry, told)
        }
        Op::WriteUncorrectable => {
            let entry = held.takes_all() && within;
            put_write(points, doer, run, Put::Mark, entry, told)
        }
        Op::Read => put_read(points, geometry, held, doer, command, status, payload),
        Op::Compare => put_compare(points, geometry, held, doer, command, status),
        Op::Dataset { deallocate: true } => put_dataset(points, geometry, doer, command, status),
        Op::Dataset { deallocate: false } => Ok(()),
        Op::Other(opcode) => put_other(points, geometry, doer, opcode, status),
    }
}

/// Whether the command is of this namespace.
pub(crate) fn is_here(command: &Command) -> bool
    ensures { result ≡ spec.is_here command.now }
{
    command.nsid == 1
}

/// A command, or one of two that are no pair.
#[tactic(auto, unfolding(crate::specs::Commands::single_points))]
pub(crate) fn put_single<'t>(
    points: &mut Vec<Point<'t>>,
    geometry: &Geometry,
    held: Held,
    doer: Doer,
    command: &'t Command,
    status: Option<Status>,
    payload: Option<&'t ReadData>,
) -> Result<(), NoMemory>
    ensures { OnOk result (map seen points.new.items ≡ map seen points.old.items
        ++ spec.single_points geometry.now held doer command.entry.now status (option_map (λ p. p.now) payload.entry)) }
{
    if is_here(command) {
        put_op(points, geometry, held, doer, command, status, payload)
    } else {
        Ok(())
    }
}
