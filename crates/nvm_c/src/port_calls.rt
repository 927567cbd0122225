//! The calls on one port. Each takes the engine out of the handle, calls it, and puts it back, but for the one that closes. Where a handle has none, the port isn't open.
ghost use Rattle.std.specs.Prelude.{◌++◌};
ghost use Rattle.nvm_c.specs.Exports.{Closes, PollsAt, SubmitsAt};
ghost use Rattle.nvm_c.specs.Identify.{IdentifiesAt};
ghost use Rattle.nvm_c.specs.ReadNow.{ReadsAt};

use crate::code::Code;
use crate::handle::Handle;
use crate::identify::report;
use crate::reading::ReadStatus;
use std::alloc::Global;

/// As `zk_close`, with the code in place of its number.
pub(crate) fn closed(alloc: Global, port: &mut Handle) -> Code
    ensures { Closes result port.old.held.engine port.new.held.engine }
{
    match port.take(alloc) {
        Some(engine) => {
            drop(engine);
            Code::Done
        }
        None => Code::NotOpen,
    }
}

/// As `zk_submit`, with the code in place of its number.
pub(crate) fn submitted(
    alloc: Global,
    port: &mut Handle,
    entries: &[u8],
    data: &mut [u8],
    completions: &mut [u8],
) -> Code
    ensures { SubmitsAt result port.old.held.engine port.new.held.engine entries.now
        (record { bytes = data.old; posted = completions.old }) (record { bytes = data.new; posted = completions.new }) }
{
    let Some(mut engine) = port.take(alloc) else {
        return Code::NotOpen;
    };
    let code = engine.submit(alloc, entries, data, completions);
    port.put(engine);
    code
}

/// As `zk_submit_pair`, with the code in place of its number.
pub(crate) fn submitted_in_pieces(
    alloc: Global,
    port: &mut Handle,
    entries: &[u8],
    compared: &[u8],
    written: &[u8],
    completions: &mut [u8],
) -> Code
    ensures { SubmitsAt result port.old.held.engine port.new.held.engine entries.now
        (record { bytes = compared.now ++ written.now; posted = completions.old }) (record { bytes = compared.now ++ written.now; posted = completions.new }) }
{
    let Some(mut engine) = port.take(alloc) else {
        return Code::NotOpen;
    };
    let code = engine.submit_pieces(alloc, entries, compared, written, completions);
    port.put(engine);
    code
}

/// As `zk_poll`, with the code in place of its number.
pub(crate) fn polled(
    alloc: Global,
    port: &mut Handle,
    data: &mut [u8],
    completions: &mut [u8],
) -> Code
    ensures { PollsAt result port.old.held.engine port.new.held.engine
        (record { bytes = data.old; posted = completions.old }) (record { bytes = data.new; posted = completions.new }) }
{
    let Some(mut engine) = port.take(alloc) else {
        return Code::NotOpen;
    };
    let code = engine.poll(alloc, data, completions);
    port.put(engine);
    code
}

/// As `zk_read_now`, with the code in place of its number.
pub(crate) fn read_now(
    alloc: Global,
    port: &mut Handle,
    slba: u64,
    nlb: u16,
    buffer: &mut [u8],
    status: &mut ReadStatus,
) -> Code
    ensures { ReadsAt result port.old.held.engine port.new.held.engine slba nlb
        (record { bytes = buffer.old; status = status.old }) (record { bytes = buffer.new; status = status.new }) }
{
    let Some(mut engine) = port.take(alloc) else {
        return Code::NotOpen;
    };
    let code = engine.read_now(alloc, slba, nlb, buffer, status);
    port.put(engine);
    code
}

/// As `zk_identify`, with the code in place of its number.
pub(crate) fn identified(alloc: Global, port: &mut Handle, buffer: &mut [u8]) -> Code
    ensures { IdentifiesAt result port.old.held.engine port.new.held.engine buffer.old buffer.new }
{
    let Some(engine) = port.take(alloc) else {
        return Code::NotOpen;
    };
    let geometry = engine.space.geometry();
    port.put(engine);
    report(geometry, buffer)
}
