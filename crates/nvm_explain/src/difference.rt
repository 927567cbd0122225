//! Where data first differs from other data.
ghost use Rattle.std.specs.Prelude.{◌≡◌};
ghost use Rattle.nvm_explain.specs.Difference as spec;

use crate::changes::last_change;
use crate::unit_at::UnitAt;
use nvm_geometry::MOST_BLOCKS;
use nvm_listing::push_entry;
use nvm_record::{BlockSize, LbaRange, NoMemory};
use nvm_text::HexByte;

/// A byte of data that isn't the byte of other data at its place.
#[derive(Clone, Copy)]
pub struct Difference {
    /// The LBA of its block.
    pub lba: u64,
    /// How many bytes are before it in the block.
    pub offset: usize,
    pub byte: u8,
    /// What the other data has there.
    pub other: u8,
}

/// The first byte that differs, if one does and both have the same length. Both are of the same blocks, from `first` on.
pub(crate) fn difference_of(
    first: u64,
    size: BlockSize,
    bytes: &[u8],
    others: &[u8],
) -> Option<Difference>
    ensures { result ≡ spec.difference_of first size bytes.now others.now }
{
    if bytes.len() != others.len() || first > MOST_BLOCKS {
        return None;
    }
    for at in 0..bytes.len() {
        if bytes[at] != others[at] {
            return Some(Difference {
                lba: first + at as u64 / u64::from(size.bytes()),
                offset: at % size.bytes() as usize,
                byte: bytes[at],
                other: others[at],
            });
        }
    }
    None
}

/// Appends the byte that differs, if one does, after the words for it and for the other, and which of the unit's entries before
/// changed its block last.
pub(crate) fn push_difference(
    text: &mut String,
    words: &str,
    others: &str,
    at: &UnitAt<'_>,
    found: Option<Difference>,
) -> Result<(), NoMemory> {
    let Some(difference) = found else {
        return Ok(());
    };
    push_byte(text, words, others, difference)?;
    push_last_change(text, at, difference.lba)
}

/// Appends in which block the byte is and at which offset there, what it is, and what the other is.
pub(crate) fn push_byte(
    text: &mut String,
    words: &str,
    others: &str,
    found: Difference,
) -> Result<(), NoMemory> {
    let Difference { lba, offset, .. } = found;
    let byte = HexByte(found.byte);
    let other = HexByte(found.other);
    write!(
        text,
        "first difference: LBA {lba} byte {offset}{words}{byte}{others}{other}\n"
    )
}

/// Appends which of the unit's entries before changed the block of this LBA last, or that none did.
fn push_last_change(text: &mut String, at: &UnitAt<'_>, lba: u64) -> Result<(), NoMemory> {
    write!(text, "last change of LBA {lba}: ")?;
    let block = LbaRange {
        first: lba,
        blocks: 1,
    };
    match last_change(at.before, block) {
        Some((place, entry)) => push_entry(text, usize::from(at.unit), place, entry),
        None => write!(text, "none\n"),
    }
}
