//! The engine: workers do the jobs of hosts on a namespace of zero bytes, and what is recorded of them is audited and shown.
//!
//! [`run`] has 1 to 64 workers do the jobs, each on a thread of its own where one can be made, and gives a lawful record of
//! exactly these jobs. Each worker draws the numbers of its jobs from a [`Counter`], whose [`Counter::draw`] answers the number of
//! a job that nobody else is given, and does them by a port of its own. [`laws`] have what holds of drawn numbers, of what is
//! gathered from the workers, and of what is told of records.
//!
//! [`execute`] is the program without its command line: the bytes of the hosts' files are read, their commands done by [`run`], and the record
//! audited and shown. [`audit_bytes`] audits a record's file; [`judge_watched`] audits a record, and [`judge_alone`] does without threads. Which numbers describe a namespace and how many workers
//! there are, [`Settings`] says; why nothing is shown, [`Fault`]. [`Shown`] and [`Judged`] write their text to a writer, and [`Judged`] has an object of JSON, too.
//! [`witness_bytes`] judges a trace's file by a record's, [`witness_record`] a trace by a record, [`witness_record_alone`] does without threads, and [`Witnessed`] has the line of that.
#![tactic(auto)]

mod bounds;
mod claim;
mod counter;
mod engine;
mod fault;
mod form;
mod judged;
mod judging;
mod judging_alone;
pub mod laws;
mod lines;
mod record_text;
mod rule;
mod run_fault;
mod running;
mod seats;
mod settings;
mod shown;
mod shown_parts;
mod status_names;
mod steps;
mod under_line;
mod verdict_line;
mod verdict_object;
mod witnessed;
mod witnessing;
mod witnessing_alone;
mod worker;
mod worker_count;
mod workers;

pub use claim::Claim;
pub use counter::{Counter, MOST_WORKERS};
pub use engine::{execute, execute_watched};
pub use fault::Fault;
pub use judged::Judged;
pub use judging::{audit_bytes, audit_bytes_watched, judge_watched};
pub use judging_alone::judge_alone;
pub use run_fault::{RunFailed, RunFault};
pub use running::run;
pub use settings::Settings;
pub use shown::Shown;
pub use status_names::status_name;
pub use witnessed::Witnessed;
pub use witnessing::{witness_bytes, witness_record};
pub use witnessing_alone::witness_record_alone;
pub use worker_count::Workers;
