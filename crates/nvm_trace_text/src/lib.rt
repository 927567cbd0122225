//! Traces as text that scripts write and read: a head, and then a line for each command or fused pair.
//!
//! [`trace_of_text`] reads a text, or names the first line that is wrong and what was expected there. [`text_of_trace`] writes one,
//! and [`push_job`] a single line. [`TimeText`] and [`DataText`] are parts of it, and [`ExplainedLine`] and [`UnexplainedLine`] say what a
//! witness answered of a trace, for other texts.
//! Commands stand in it as in a command list ([`nvm_list`]), and statuses and data as they are printed ([`nvm_text`]).
#![tactic(auto)]

mod expected;
mod fault;
mod fields;
mod head;
mod job_line;
mod job_text;
pub mod laws;
mod listing;
mod mark;
mod reading;
mod reply;
mod witness_line;

pub use expected::TraceExpected;
pub use fault::TextFault;
pub use job_text::{DataText, TimeText, time_of};
pub use listing::{push_job, text_of_trace};
pub use reading::trace_of_text;
pub use witness_line::{ExplainedLine, UnexplainedLine};
