ghost use Rattle.std.specs.Prelude.{◌≡◌, IfOk};
ghost use Rattle.nvm_generate.specs.Inside.Commands.{Deallocates, on_blocks};

use crate::range::Range;
use nvm_record::{Command, Fuse, LbaRange, NoMemory, Op, Payload, ranges_data};
use std::alloc::Global;

/// A command on blocks of the one namespace that there is.
pub fn command(cid: u16, fuse: Fuse, op: Op, range: Range, payload: Payload) -> Command
    ensures { result ≡ on_blocks cid fuse op range.first range.nlb payload }
{
    Command {
        cid,
        nsid: 1,
        fuse,
        op,
        slba: range.first,
        nlb: u16::from(range.nlb),
        payload,
    }
}

/// A Dataset Management that deallocates blocks.
pub fn deallocate(alloc: Global, cid: u16, range: Range) -> Result<Command, NoMemory>
    ensures { IfOk result (Deallocates cid range.first range.nlb) }
{
    let blocks = u32::from(range.nlb) + 1;
    let range = LbaRange {
        first: range.first,
        blocks,
    };
    let payload = ranges_data(alloc, &[range])?;
    Ok(Command {
        cid,
        nsid: 1,
        fuse: Fuse::Normal,
        op: Op::Dataset { deallocate: true },
        slba: 0,
        nlb: 0,
        payload,
    })
}
