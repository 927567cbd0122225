ghost use Rattle.std.specs.Prelude.{◌≡◌, ◌+◌, ◌*◌, ◌≤◌, All, IfOk, length, map, replicate};
ghost use Rattle.nvm_trace.specs.Inside.Table.{AreEmptyRows};

use nvm_record::NoMemory;
use nvm_store::History;
use std::alloc::Global;

/// A row of zeroes with a place for each level of a history of `entries` entries.
fn empty_row(alloc: Global, entries: usize) -> Result<Vec<u64>, NoMemory>
    requires { entries ≤ 4194304 }
    ensures { IfOk result (λ row. row.items ≡ replicate (2 * entries + 1) 0) }
{
    let row = vec![in alloc; 0; 2 * entries + 1]?;
    Ok(row)
}

/// A row of zeroes for each unit, with a place for each level of its history.
pub(crate) fn empty_rows(alloc: Global, units: &Vec<History>) -> Result<Vec<Vec<u64>>, NoMemory>
    requires { All (λ history. length history.items ≤ 4194304) units.now.items }
    ensures { IfOk result (λ rows. AreEmptyRows (map (λ history. history.items) units.now.items) (map (λ row. row.items) rows.items)) }
{
    let mut rows = Vec::with_capacity(alloc, units.len())?;
    for unit in 0..units.len() {
        rows.push(empty_row(alloc, units[unit].len())?)?;
    }
    Ok(rows)
}
