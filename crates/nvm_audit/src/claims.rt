ghost use Rattle.std.specs.Prelude.{List, [], ◌∷◌, ◌++◌, ◌≡◌, IfOk, length, vec_len};
ghost use Rattle.nvm_audit.specs.Inside.Claims.{AreClaims};
ghost use Rattle.nvm_audit.specs.RecordedPart.{RecordedPart};

use crate::done_part::DonePart;
use nvm_record::NoMemory;
use nvm_store::History;
use std::alloc::Global;

/// Which entries of the history were made by some part.
pub(crate) fn claims(
    alloc: Global,
    history: &History,
    parts: &Vec<DonePart<'_>>,
) -> Result<Vec<bool>, NoMemory>
    ensures { IfOk result (λ claimed. AreClaims history.now.items parts.now.items claimed.items) }
{
    let mut claimed = vec![in alloc; false; history.len()]?;
    for k in 0..parts.len() {
        claim(history, &parts[k], &mut claimed);
    }
    Ok(claimed)
}

/// Puts down the entry that the part made, where it made one.
fn claim(history: &History, part: &DonePart<'_>, claimed: &mut Vec<bool>)
    requires { length claimed.old.items ≡ length history.now.items }
    ensures { (parts : List RecordedPart) → AreClaims history.now.items parts claimed.old.items
        → AreClaims history.now.items (parts ++ part.now ∷ []) claimed.new.items }
{
    if part.made_entry(history) {
        claimed[part.part.point as usize] = true;
    }
}
