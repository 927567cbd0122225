//! Traces: what the hosts of any device saw of a run, and when a record explains one.
//!
//! A [`Trace`] has the commands of a run, when each began and ended, and what came back. It needs nothing from inside the
//! device. A [`Record`](nvm_audit::Record) explains it where it is lawful, has the trace's jobs and replies, and keeps real time
//! in each unit. [`witness`] says whether it does, or names the first fault; [`laws`] have what holds of explained traces.
#![tactic(auto)]

mod cut;
mod cuts;
mod deallocated;
mod explained;
mod judging;
pub mod laws;
mod matching;
mod owner;
mod pieces;
mod piecing;
mod raising;
mod reads;
mod replies;
mod saying;
mod start;
mod step;
mod stepping;
mod table;
mod taking;
mod timing;
mod trace;
mod trace_fault;
mod traced_job;
mod witness_fault;
mod witnessing;

pub use cut::Cut;
pub use cuts::Cuts;
pub use deallocated::Deallocated;
pub use explained::Explained;
pub use judging::Judging;
pub use owner::Owner;
pub use pieces::cuts_of;
pub use piecing::{first_pieces, traced_pieces};
pub use reads::Reads;
pub use saying::{is_success, says_nothing_was_written, says_what_was_done};
pub use start::Start;
pub use step::Step;
pub use stepping::steps_of;
pub use trace::Trace;
pub use trace_fault::TraceFault;
pub use traced_job::{Ending, TracedJob};
pub use witness_fault::WitnessFault;
pub use witnessing::{witness, witness_alone};
