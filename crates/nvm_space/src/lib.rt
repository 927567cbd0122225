//! A namespace that many threads share: its regions, each of whole atomic units, and the ports through which jobs are done.
//!
//! [`Space::new`] gives a space with its ports, which threads take with them. A port holds a pass of each
//! region, and what its passes have seen grows at each call. [`Space::close`] gives the histories of all regions.
//! [`Space::unrecorded`] gives one of any size that keeps the number of each region's changes alone, in which [`Space::poll_only_part`] does at
//! once what lies in one unit.
#![tactic(auto)]

mod closing;
mod job_done;
pub mod laws;
mod lent;
mod making;
mod meeting;
mod opening;
mod port;
mod read_now;
mod replies;
mod running;
mod space;
mod space_fault;
mod under_way;

pub use job_done::JobDone;
pub use port::Port;
pub use read_now::{ReadAnswer, ReadNow};
pub use space::{MOST_PORTS, Recorded, Space};
pub use space_fault::SpaceFault;
pub use under_way::{JobUnderWay, Progress};
