//! Records of runs: what a finished run shows, and when that is lawful.
//!
//! A [`Record`] has the jobs of a run, the history of each unit and what each worker did. By its type it holds exactly what a
//! record file can hold, whoever made it. Whether it is lawful is a relation in specs alone, over jobs, histories and
//! done jobs, in which no thread and no word occurs, and a pass only as its worker's number; [`laws`] have what holds of it.
#![tactic(auto)]

mod audit_fault;
mod auditing_alone;
mod by_point;
mod claims;
mod counts;
mod done_job;
mod done_jobs;
mod done_part;
mod entries;
mod gathering;
mod grouping;
mod job_fault;
mod judging;
pub mod laws;
mod occurrences;
mod record;
mod record_audit;
mod scanning;
mod shapes;
mod shown_unit;
mod unit_audit;
mod verdict;
mod version;
mod walking;
mod watcher;

pub use audit_fault::{AuditFault, Spot};
pub use auditing_alone::audit_alone;
pub use done_job::DoneJob;
pub use done_jobs::DoneJobs;
pub use record::{MOST_JOBS, Record};
pub use record_audit::{audit, audit_watched};
pub use unit_audit::unit_fault;
pub use verdict::Verdict;
pub use version::Version;
pub use watcher::{Unwatched, Watcher};
