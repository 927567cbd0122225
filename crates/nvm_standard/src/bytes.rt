ghost use Rattle.std.specs.Prelude.{◌≡◌, ◌↔◌, IsTrue, replicate};
ghost use Rattle.nvm_record.specs.declared.block.Block.TheVariants.{Bytes};
ghost use Rattle.nvm_standard.specs.Contents as spec;
ghost use Rattle.nvm_standard.specs.OrderView.{block_of, seen_content};

use crate::order::Content;

/// The bytes of the block at this place of data.
pub fn bytes_at(size: u32, payload: &[u8], place: u32) -> &[u8]
    ensures { result.now ≡ spec.bytes_at size payload.now place }
{
    let size = size as usize;
    let (_, rest) = payload.split_at((place as usize * size).min(payload.len()));
    &rest[..size.min(rest.len())]
}

/// Whether they are `size` bytes, all of this value.
fn is_filled(size: u32, bytes: &[u8], byte: u8) -> bool
    ensures { IsTrue result ↔ (bytes.now ≡ replicate size byte) }
{
    for found in bytes {
        if *found != byte {
            return false;
        }
    }
    bytes.len() == size as usize
}

/// Whether the content is these bytes.
pub(crate) fn is_bytes(size: u32, content: Content<'_>, bytes: &[u8]) -> bool
    ensures { IsTrue result ↔ (block_of size (seen_content content.entry) ≡ Bytes bytes.now) }
{
    match content {
        Content::Zeroes => is_filled(size, bytes, 0),
        Content::Ones => is_filled(size, bytes, 0xff),
        Content::Bytes(held) => held == bytes,
        Content::Mark => false,
    }
}
