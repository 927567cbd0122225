//! Numbers in place of what searches of a trace compare: what blocks held is numbered by [`Values`], so that two blocks hold the same
//! exactly if their numbers are the same, and [`Numbers`] keeps what is noted of each number.

mod by_place;
mod hash;
mod values;

pub use by_place::{Numbers, to_u32};
pub use values::{MARK, ONES, Values, ZERO, block_at};
