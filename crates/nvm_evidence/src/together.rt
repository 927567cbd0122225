//! How many commands of a trace were under way together.
use nvm_record::NoMemory;
use nvm_trace::Trace;
use std::alloc::Global;

/// The most commands of the trace that were under way at one moment, a fused pair as one. A command is under way from when it began until it
/// ended, and where no end was seen ever after.
pub fn most_together(alloc: Global, trace: &Trace) -> Result<usize, NoMemory> {
    let mut begins = Vec::with_capacity(alloc, trace.jobs.len())?;
    let mut ends = Vec::with_capacity(alloc, trace.jobs.len())?;
    for job in &trace.jobs {
        begins.push(job.began)?;
        if let Some(ended) = &job.ended {
            ends.push(ended.time)?;
        }
    }
    begins.sort_unstable();
    ends.sort_unstable();
    Ok(most_of(&begins, &ends))
}

/// The most that have begun and aren't over, at the moments at which one begins. Both are in the order of time, and none is over before it began.
fn most_of(begins: &[u64], ends: &[u64]) -> usize {
    let mut over = 0;
    let mut most = 0;
    for (before, began) in begins.iter().enumerate() {
        while over < ends.len() && ends[over] < *began {
            over += 1;
        }
        most = most.max(before.saturating_sub(over).saturating_add(1));
    }
    most
}
