//! How much there was in a lawful record.

use crate::ended::push_ended;
use crate::most::MostText;
use crate::unit_counts::{entry_counts, worker_counts};
use nvm_audit::Record;
use nvm_record::NoMemory;
use std::alloc::Global;

/// Appends how many jobs ended with which statuses, how many each worker did, and in how many units there are entries, and entries of
/// several workers.
pub(crate) fn push_summary(text: &mut String, alloc: Global, run: &Record) -> Result<(), NoMemory> {
    push_ended(text, alloc, &run.done)?;
    for (worker, work) in run.done.iter().enumerate() {
        write!(text, "worker {worker} jobs {}\n", work.len())?;
    }
    let entries = entry_counts(alloc, &run.units)?;
    let workers = worker_counts(alloc, &run.units)?;
    let entries = MostText {
        least: 0,
        counts: &entries,
    };
    let workers = MostText {
        least: 1,
        counts: &workers,
    };
    write!(
        text,
        "units with entries {entries}\nunits of several workers {workers}\n"
    )
}
