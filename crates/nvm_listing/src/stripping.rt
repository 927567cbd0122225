ghost use Rattle.std.specs.Prelude.{◌≡◌, IfOk};
ghost use Rattle.nvm_listing.specs.Expectations as spec;

use crate::list_line::front;
use nvm_list::cut;
use nvm_record::NoMemory;
use std::alloc::Global;

/// The list without its expectations: of a line that has the word `expect`, what is before that. The other lines are as they were,
/// so each line keeps its number.
pub fn without_expectations(alloc: Global, list: &[u8]) -> Result<Vec<u8>, NoMemory>
    ensures { IfOk result (λ text. text.items ≡ spec.without_expectations list.now) }
{
    let mut text = Vec::with_capacity(alloc, list.len())?;
    let mut rest = Some(list);
    while let Some(bytes) = rest {
        let (line, after) = cut(bytes, b'\n');
        text.extend_from_slice(front(line))?;
        if after.is_some() {
            text.push(b'\n')?;
        }
        rest = after;
    }
    Ok(text)
}
