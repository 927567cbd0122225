//! Two threads on one unit: one holds it, and the other asks meanwhile.
ghost use Rattle.std.specs.Prelude.{◌≡◌, IfOk, true};
ghost use Rattle.nvm_store.specs.ActRef.{lent_operation_of};
ghost use Rattle.nvm_store.specs.Place.{IsCovered};
ghost use Rattle.nvm_unit.specs.Passes.{IsPassOf};

use super::opened;
use crate::holding::{Failure, Holding, NO_MEMORY};
use nvm_record::{Payload, Status};
use nvm_store::{ActRef, Answer, Look};
use nvm_unit::{Busy, Changed, LookFault, ObserveFault, Observed, Open, Pass, Unit};
use std::alloc::Global;
use std::sync::Wait;
use std::test::Fail;
use std::thread::map_vec;

/// The Write of a block, which the unit must cover.
fn write_of<'a>(unit: &Unit, lba: u64, payload: &'a Payload) -> Result<ActRef<'a>, Failure>
    ensures { IfOk result (λ act. IsCovered unit.now.bounds.place (lent_operation_of act)) }
{
    let act = ActRef::Write {
        first: lba,
        blocks: 1,
        payload: payload.lend(),
    };
    if unit.covers(act) {
        Ok(act)
    } else {
        Err("the unit doesn't cover the Write")
    }
}

/// What a pass is told of a try to write LBA 1, of a look that compares LBA 0 with what is written there, and of that Compare once more when
/// polled.
type Told = (
    Result<Changed, Busy>,
    Result<Observed, LookFault>,
    Option<Result<Observed, ObserveFault>>,
);

/// Makes these three calls. None of them is given what a call that waits asks for.
fn ask(alloc: Global, unit: &Unit, pass: &mut Pass, payload: &Payload) -> Result<Told, Failure>
    requires of { IsPassOf unit.now pass.old }
    requires versions { unit.now.versions ≡ true }
    ensures { IsPassOf unit.now pass.new }
{
    let act = write_of(unit, 1, payload)?;
    let look = Look::Compare {
        first: 0,
        blocks: 1,
        payload: payload.as_slice(),
    };
    if !unit.covers_look(look) {
        return Err("the unit doesn't cover the Compare");
    }
    let tried = unit.try_change(alloc, pass, 5, act, &Open);
    if matches!(&tried, Ok(Changed::NoMemory { .. })) {
        return Err(NO_MEMORY);
    }
    let looked = unit.look(alloc, pass, look);
    let polled = unit.poll_observe(alloc, pass, look, &Open);
    Ok((tried, looked, polled))
}

/// Writes LBA 0 as job 0, which the gate holds.
fn hold<R: Wait>(
    rt: &R,
    alloc: Global,
    unit: &Unit,
    pass: &mut Pass,
    gate: &Holding,
    payload: &Payload,
) -> Result<(), Failure>
    requires { IsPassOf unit.now pass.old }
{
    let act = write_of(unit, 0, payload)?;
    let changed = unit.change(rt, alloc, pass, 0, act, gate);
    gate.leave();
    match changed {
        Changed::Done { point: 0 } => Ok(()),
        Changed::NoMemory { .. } => Err(NO_MEMORY),
        _ => Err("the Write isn't the first change"),
    }
}

/// Holds the unit by the first pass. By the second it asks while the unit is held, and once more when it isn't any longer.
fn work<R: Wait>(
    rt: &R,
    alloc: Global,
    unit: &Unit,
    pass: Pass,
    gate: &Holding,
    payload: &Payload,
) -> Result<Option<(Told, Told)>, Failure>
    requires of { IsPassOf unit.now pass }
    requires versions { unit.now.versions ≡ true }
{
    let mut pass = pass;
    if pass.number() == 0 {
        hold(rt, alloc, unit, &mut pass, gate, payload)?;
        return Ok(None);
    }
    gate.holds()?;
    let held = ask(alloc, unit, &mut pass, payload);
    gate.release();
    let held = held?;
    if !gate.is_left() {
        return Err("the unit is held for ever");
    }
    let free = ask(alloc, unit, &mut pass, payload)?;
    Ok(Some((held, free)))
}

fn compared(point: u64, status: Status) -> Observed {
    Observed {
        point,
        answer: Answer::Status(status),
    }
}

#[test]
fn a_look_is_answered_while_a_thread_holds_the_unit(rt: HostRuntime) -> Result<(), Fail> {
    let alloc = rt.alloc();
    let (unit, passes) = opened(alloc, 2, 100)?;
    let payload = Payload::copy_of(alloc, &[0x41; 512])?;
    let shared = &unit;
    let written = &payload;
    let gate = Holding::until(0);
    let answers = map_vec(
        &rt,
        passes,
        &|pass: Pass| -> Result<Option<(Told, Told)>, Failure>
            requires of { IsPassOf shared.now pass }
            requires versions { shared.now.versions ≡ true }
        { work(&rt, alloc, shared, pass, &gate, written) },
    )?;
    for answer in answers {
        if let Some((held, free)) = answer? {
            let differs = compared(0, Status::COMPARE_FAILURE);
            assert_eq!(rt; held, (Err(Busy { word: 1 }), Ok(differs), None));
            let tried = Ok(Changed::Done { point: 1 });
            let same = compared(2, Status::SUCCESSFUL_COMPLETION);
            let still = compared(2, Status::SUCCESSFUL_COMPLETION);
            assert_eq!(rt; free, (tried, Ok(same), Some(Ok(still))));
        }
    }
    assert!(rt; gate.was_seen());
    Ok(())
}
