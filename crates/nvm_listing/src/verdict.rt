//! How an audit ended, as lines.

use crate::faults::Faults;
use nvm_audit::{AuditFault, Spot, Verdict};
use nvm_record::NoMemory;
use std::alloc::Global;

/// The line of the verdict; or a line for each fault, as an audit prints it, and the line `faults 3`, which says how many these are.
pub fn list_faults(alloc: Global, found: &Faults) -> Result<String, NoMemory> {
    let mut text = String::new(alloc);
    match found {
        Faults::Lawful(verdict) => push_verdict(&mut text, *verdict)?,
        Faults::Unlawful(faults) => {
            for fault in faults {
                push_fault(&mut text, *fault)?;
            }
            let count = faults.len();
            write!(text, "faults {count}\n")?;
        }
    }
    Ok(text)
}

/// Appends the line of a lawful record.
pub fn push_verdict(text: &mut String, verdict: Verdict) -> Result<(), NoMemory> {
    let Verdict {
        jobs,
        units,
        changes,
        refused,
    } = verdict;
    write!(
        text,
        "lawful jobs {jobs} units {units} changes {changes} refused {refused}\n"
    )
}

/// Appends the line of a fault. Refused memory is none, and has no line.
pub fn push_fault(text: &mut String, fault: AuditFault) -> Result<(), NoMemory> {
    let Some(job) = fault.job() else {
        return Ok(());
    };
    let name = fault.name();
    match fault.spot() {
        Some(Spot { unit, place }) => write!(
            text,
            "unlawful {name} job {job} unit {unit} place {place}\n"
        ),
        None => write!(text, "unlawful {name} job {job} unit - place -\n"),
    }
}
