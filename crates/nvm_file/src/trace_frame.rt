use crate::scope::Scope;
use nvm_trace::{Deallocated, Reads, Start};

/// What the front of a trace's file says of all that follows.
#[derive(Drop)]
pub struct TraceFrame {
    /// What the jobs are read by.
    pub scope: Scope,
    /// The LBA of the device at which the traced window begins.
    pub first: u64,
    /// What was known of its blocks before.
    pub start: Start,
    /// What Reads and Compares are held to.
    pub reads: Reads,
    /// What a deallocated block may read as.
    pub deallocated: Deallocated,
    /// How many jobs there are.
    pub jobs: u32,
}
