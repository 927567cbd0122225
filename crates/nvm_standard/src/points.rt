use crate::point::Point;
use nvm_record::BlockSize;
use nvm_trace::{Deallocated, Start};

/// The points of a trace's commands, and what an explanation of it has to know beside them.
#[derive(Debug, Drop)]
pub struct Points<'t> {
    /// How many blocks the namespace has.
    pub nsze: u32,
    /// How many bytes of data each has.
    pub block_size: BlockSize,
    /// What was known of them before.
    pub start: Start,
    /// What a deallocated block may read as.
    pub deallocated: Deallocated,
    /// The points, in the order of their commands' numbers. They are at most linear in the trace.
    pub points: Vec<Point<'t>>,
}
