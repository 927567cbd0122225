//! Jobs as rows have them.
use nvm_list::read_list;
use nvm_plan::{Job, jobs};
use nvm_record::BlockSize;
use std::alloc::Global;

/// The number of each job.
pub const NUMBER: u32 = 5;

/// The job of host 1 that has these words: a command as a command list has it, or a fused pair with a `;` between its two. Blocks have 512
/// bytes.
pub fn job(alloc: Global, words: &str) -> Option<Job> {
    let list = words.replace(alloc, " ; ", "\n").ok()?;
    let commands = read_list(alloc, list.as_bytes(), BlockSize::BYTES_512).ok()?;
    let Ok(hosts) = vec![in alloc; commands] else {
        return None;
    };
    jobs(alloc, hosts).ok()?.pop()
}
