//! Which units parts name.
ghost use Rattle.std.specs.Prelude.{◌≡◌, IfOk, map};
ghost use Rattle.nvm_listing.specs.Inside.Named as spec;

use nvm_audit::DoneJob;
use nvm_plan::Part;
use nvm_record::NoMemory;
use std::alloc::Global;

/// Whether each of so many units is named by a part that was done, at the place of the unit's number. It is one pass over all that was
/// done.
pub(crate) fn named_units(
    alloc: Global,
    units: usize,
    done: &[Vec<DoneJob>],
) -> Result<Vec<bool>, NoMemory>
    ensures { IfOk result (λ named. named.items ≡ spec.named_units units (map (λ work. work.items) done.now)) }
{
    let mut named = vec![in alloc; false; units]?;
    for work in done {
        name_units_of_work(&mut named, work);
    }
    Ok(named)
}

/// Marks the units that parts of these done jobs name.
fn name_units_of_work(named: &mut Vec<bool>, work: &[DoneJob])
    ensures { named.new.items ≡ spec.named_by_work work.now named.old.items }
{
    for job in work {
        name_units(named, job.parts.as_slice());
    }
}

/// Marks the units that these parts name.
fn name_units(named: &mut Vec<bool>, parts: &[Part])
    ensures { named.new.items ≡ spec.named_by_parts parts.now named.old.items }
{
    for part in parts {
        let unit = usize::from(part.unit);
        if unit < named.len() {
            named[unit] = true;
        }
    }
}
