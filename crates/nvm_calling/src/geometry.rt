ghost use Rattle.std.specs.Prelude.{◌≡◌, ◌+◌, ◌*◌, ◌<◌, ◌≤◌, IfOk, length, map};
ghost use Rattle.std.specs.List.{All, flat_map};
ghost use Rattle.nvm_geometry.specs.Parts.{pieces_of};

use nvm_geometry::laws::pieces_stand_in_line;
use nvm_geometry::{Geometry, Piece};
use nvm_record::{NoMemory, Payload};
use std::alloc::Global;

/// What a Write writes in one unit.
#[derive(Drop)]
pub struct WritePart {
    /// The LBAs of the Write that lie in the unit.
    pub piece: Piece,
    /// The data of just these.
    pub payload: Payload,
}

/// A Write cut at the boundaries: a part for each unit that it meets, ascending. No data is copied.
pub fn write_parts(
    alloc: Global,
    geometry: Geometry,
    slba: u64,
    blocks: u32,
    payload: &Payload,
) -> Result<Vec<WritePart>, NoMemory>
    requires some { 0 < blocks }
    requires in_range { slba + blocks ≤ geometry.nsze }
    requires payload { length payload.now ≡ blocks * geometry.block_size }
    ensures pieces { IfOk result (λ parts. map (λ part. part.piece) parts.items ≡ pieces_of geometry slba blocks) }
    ensures sizes { IfOk result (λ parts. All (λ part. length part.payload ≡ part.piece.blocks * geometry.block_size)
        parts.items) }
    ensures data { IfOk result (λ parts. flat_map (λ part. part.payload) parts.items ≡ payload.now) }
{
    pieces_stand_in_line();
    let size = geometry.block_size().bytes() as usize;
    let mut parts = Vec::with_capacity(alloc, usize::from(geometry.piece_count(slba, blocks)))?;
    let mut skipped: u32 = 0;
    for piece in geometry.parts(slba, blocks) {
        let from = skipped as usize * size;
        let to = from + piece.blocks as usize * size;
        let part = payload.part(from, to)?;
        parts.push(WritePart {
            piece,
            payload: part,
        })?;
        skipped += piece.blocks;
    }
    Ok(parts)
}
