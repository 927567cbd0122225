ghost use Rattle.std.specs.Prelude.{◌≡◌, IfOk, option_map};
ghost use Rattle.nvm_list.specs.Commas.{read_parts};
ghost use Rattle.nvm_list.specs.Ranges as spec;
ghost use Rattle.nvm_list.specs.Ranges.{read_range};
ghost use Rattle.nvm_list.specs.Answers.{Gives};

use crate::expected::Expected;
use crate::fault::LineFault;
use crate::line_cut::{cut, place_of};
use crate::number_word::number;
use nvm_record::{LbaRange, MOST_RANGES, NoMemory};
use std::alloc::Global;

/// The ranges that a word says, which commas part: 1 to 256 of them.
pub fn ranges(alloc: Global, word: &[u8]) -> Result<Vec<LbaRange>, LineFault>
    ensures { Gives (λ v. v.items) result (spec.ranges word.now) }
{
    let Some(ranges) = ranges_of(alloc, word)? else {
        return Err(LineFault::Expected(Expected::Ranges));
    };
    if ranges.len() > MOST_RANGES {
        return Err(LineFault::Expected(Expected::RangeCount {
            found: ranges.len() as u64,
        }));
    }
    Ok(ranges)
}

/// The ranges that commas part, or `None` where something there isn't a range.
fn ranges_of(alloc: Global, word: &[u8]) -> Result<Option<Vec<LbaRange>>, NoMemory>
    ensures { IfOk result (λ ranges. option_map (λ v. v.items) ranges ≡ read_parts read_range word.now) }
{
    let mut ranges = Vec::new(alloc);
    let mut rest = Some(word);
    while let Some(bytes) = rest {
        let (text, after) = cut(bytes, b',');
        let Some(range) = range(text) else {
            return Ok(None);
        };
        ranges.push(range)?;
        rest = after;
    }
    Ok(Some(ranges))
}

/// The range that `7+2` writes: an LBA and a number of blocks.
fn range(text: &[u8]) -> Option<LbaRange>
    ensures { result ≡ read_range text.now }
{
    let place = place_of(text, b'+');
    if place == text.len() {
        return None;
    }
    let first = number(&text[..place], u64::MAX)?;
    let blocks = number(&text[place + 1..], u64::from(u32::MAX))?;
    Some(LbaRange {
        first,
        blocks: blocks as u32,
    })
}
