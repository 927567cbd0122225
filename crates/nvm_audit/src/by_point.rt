ghost use Rattle.std.specs.Prelude.{◌≡◌, ℕ, List, ◌∷◌, [], ◌++◌, ◌+◌, ◌^◌, ◌<◌, ◌≤◌, IfOk, length};
ghost use Rattle.nvm_audit.specs.Inside.Audited.{AreByPoint};
ghost use Rattle.nvm_audit.specs.RecordedPart.{RecordedPart};

use crate::done_part::DonePart;
use nvm_record::NoMemory;
use std::alloc::Global;

/// The parts of a unit by point. A part goes by its number, counted from 1, and 0 is none.
#[derive(Debug, Drop)]
pub(crate) struct ByPoint {
    /// For each point of the history the last part there.
    pub last: Vec<usize>,
    /// For each part the one before it at its point.
    pub before: Vec<usize>,
}

/// The parts by point, of a history of `entries` entries. It takes one number for each point and one for each part. A part with
/// a point past the history's end is left out.
pub(crate) fn by_point(
    alloc: Global,
    entries: usize,
    parts: &Vec<DonePart<'_>>,
) -> Result<ByPoint, NoMemory>
    requires { entries ≤ 4194304 }
    ensures { IfOk result (λ b. AreByPoint entries parts.now.items b.last.items b.before.items) }
{
    let mut last = vec![in alloc; 0; entries + 1]?;
    let mut before = Vec::with_capacity(alloc, parts.len())?;
    for k in 0..parts.len() {
        let part = &parts[k];
        let earlier = put_last(part.part.point, k, &mut last);
        before.push(earlier)?;
    }
    Ok(ByPoint { last, before })
}

/// Makes the part after `count` others the last one at its point, and gives the one that was.
fn put_last(point: u32, count: usize, last: &mut Vec<usize>) -> usize
    requires { count + 1 < 2 ^ 64 }
    ensures { (entries : ℕ) (parts : List RecordedPart) (p : RecordedPart) (before : List ℕ)
        → AreByPoint entries parts last.old.items before → p.part.point ≡ point → length parts ≡ count
        → AreByPoint entries (parts ++ p ∷ []) last.new.items (before ++ result ∷ []) }
{
    let point = point as usize;
    if point >= last.len() {
        return 0;
    }
    let before = last[point];
    last[point] = count + 1;
    before
}
