ghost use Rattle.std.specs.Prelude.{◌≡◌, ◌++◌, ◌+◌, IfOk, OnOk};
ghost use Rattle.nvm_generate.specs.Stamp as spec;

use nvm_record::{BlockSize, NoMemory, Payload};
use std::alloc::Global;

/// The data of `nlb + 1` blocks that the command with this CID of a host writes: a stamp in each.
pub fn stamps(
    alloc: Global,
    size: BlockSize,
    host: u8,
    cid: u16,
    nlb: u8,
) -> Result<Payload, NoMemory>
    ensures { IfOk result (λ p. p ≡ spec.stamps size host cid (nlb + 1)) }
{
    let blocks = u16::from(nlb) + 1;
    let mut bytes = Vec::with_capacity(alloc, blocks as usize * size.bytes() as usize)?;
    for block in 0..blocks {
        let named = [host, (cid / 256) as u8, (cid % 256) as u8, block as u8];
        push_filled(&mut bytes, size, named)?;
        push_filled(&mut bytes, size, named)?;
    }
    Payload::new(alloc, bytes)
}

/// Appends half a block, of which each of these bytes fills a quarter.
fn push_filled(bytes: &mut Vec<u8>, size: BlockSize, named: [u8; 4]) -> Result<(), NoMemory>
    ensures { OnOk result (bytes.new.items ≡ bytes.old.items ++ spec.filled size named) }
{
    let eighth = size.bytes() as usize / 8;
    for byte in named {
        bytes.resize(bytes.len() + eighth, byte)?;
    }
    Ok(())
}
