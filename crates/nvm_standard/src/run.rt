ghost use Rattle.std.specs.Prelude.{◌≡◌, ◌+◌, ◌<◌};
ghost use Rattle.nvm_geometry.specs.Parts as parts;
ghost use Rattle.nvm_standard.specs.Runs as spec;

use nvm_geometry::Geometry;

/// Blocks that follow one another.
#[derive(Clone, Copy, Debug)]
pub(crate) struct Run {
    pub first: u32,
    pub blocks: u32,
}

/// Those of the blocks from `first` that exist.
#[tactic(auto, unfolding(crate::specs::Runs::run_in))]
pub(crate) fn run_in(geometry: &Geometry, first: u64, blocks: u32) -> Run
    ensures { result ≡ spec.run_in geometry.now first blocks }
{
    let nsze = geometry.nsze();
    if first < nsze {
        let left = nsze - first;
        Run {
            first: first as u32,
            blocks: u64::from(blocks).min(left) as u32,
        }
    } else {
        Run {
            first: 0,
            blocks: 0,
        }
    }
}

/// Whether all blocks of the range exist.
pub(crate) fn is_inside(geometry: &Geometry, first: u64, blocks: u32) -> bool
    ensures { result ≡ spec.is_inside geometry.now first blocks }
{
    geometry.in_range(first, blocks)
}

/// Whether the range has at most `limit` + 1 blocks, all of one unit and all of the namespace.
#[tactic(auto, unfolding(crate::specs::Runs::is_within))]
pub(crate) fn is_within(geometry: &Geometry, limit: u16, first: u64, blocks: u32) -> bool
    requires { 0 < blocks }
    ensures { result ≡ spec.is_within geometry.now limit first blocks }
{
    let nsze = geometry.nsze();
    let blocks = u64::from(blocks);
    if blocks > nsze || first > nsze - blocks {
        return false;
    }
    blocks <= u64::from(limit) + 1
        && geometry.unit_of(first) == geometry.unit_of(first + blocks - 1)
}

/// The data of the first blocks.
pub(crate) fn front(size: u32, blocks: u32, payload: &[u8]) -> &[u8]
    ensures { result.now ≡ spec.front size blocks payload.now }
{
    let bytes = u64::from(blocks) * u64::from(size);
    &payload[..(bytes as usize).min(payload.len())]
}

/// The data of `blocks` blocks, after that of `skipped` blocks.
pub(crate) fn data_part(size: u32, skipped: u32, blocks: u32, payload: &[u8]) -> &[u8]
    ensures { result.now ≡ parts.data_part size skipped blocks payload.now }
{
    let skipped = u64::from(skipped) * u64::from(size);
    let (_, rest) = payload.split_at((skipped as usize).min(payload.len()));
    front(size, blocks, rest)
}
