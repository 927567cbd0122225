ghost use Rattle.std.specs.Prelude.{◌≡◌, ◌≢◌, ◌↔◌, IfOk, IfErr, IsTrue, Some, None};
ghost use Rattle.nvm_record.specs.Completion.{posted};
ghost use Rattle.nvm_record.specs.Entry.{BeginsWith, IsCommandFault};
ghost use Rattle.nvm_record.specs.Status.{successful_completion};
ghost use Rattle.nvm_record.specs.declared.op.Op.TheVariants.{Other};

use nvm_record::{
    BlockSize, Command, CommandFault, Completion, Op, Payload, Status, completion_bytes,
    read_command,
};
use std::alloc::Global;

/// The opcode of Flush, which isn't of the profile.
const FLUSH: u8 = 0x00;

/// A command that was taken from what a host sent.
#[derive(Drop)]
pub struct TakenCommand {
    pub command: Command,
    /// What the host sent behind it.
    pub rest: Payload,
    /// The completion entry of a Flush, which has nothing to do.
    pub flushed: Option<[u8; 16]>,
}

/// Takes the command at the front of what the host of this number sent, and answers a Flush 0/00.
pub fn take_command(
    alloc: Global,
    host: u16,
    sent: &Payload,
    size: BlockSize,
) -> Result<TakenCommand, CommandFault>
    ensures command { IfOk result (λ taken. BeginsWith size sent.now taken.command taken.rest) }
    ensures flush { IfOk result (λ taken. taken.command.op ≡ Other 0 → taken.flushed ≡ Some (posted
        (record { host = host; cid = taken.command.cid; status = successful_completion; payload = None }))) }
    ensures other { IfOk result (λ taken. taken.command.op ≢ Other 0 → taken.flushed ≡ None) }
    ensures fault { IfErr result (IsCommandFault size sent.now) }
{
    let (command, rest) = read_command(alloc, sent, size)?;
    let flushed = if is_flush(command.op) {
        Some(completion_bytes(&Completion {
            host,
            cid: command.cid,
            status: Status::SUCCESSFUL_COMPLETION,
            payload: None,
        }))
    } else {
        None
    };
    Ok(TakenCommand {
        command,
        rest,
        flushed,
    })
}

/// Whether it is a Flush.
fn is_flush(op: Op) -> bool
    ensures { IsTrue result ↔ (op ≡ Other 0) }
{
    op == Op::Other(FLUSH)
}
