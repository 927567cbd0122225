//! Records of runs as files, in two versions, and the writing of host files.
//!
//! [`read_record`] reads a file from its front, and answers its record or the first fault that is met. A record has one spelling
//! in its version: [`write_record`] hands it to a writer piece by piece. [`upgrade`] makes a record of the first version one of
//! the second. [`laws`] have what holds of records and their files.
#![tactic(auto)]

mod act;
mod command;
mod done_job;
mod entry;
mod fields;
mod frame;
mod head;
mod items;
mod job;
pub mod laws;
mod reading;
mod record_fault;
mod rest;
mod scope;
mod standing;
mod trace_file_fault;
mod trace_frame;
mod trace_head;
mod trace_reading;
mod traced_job;
mod upgrade_fault;
mod upgrading;
mod writing;

pub use reading::read_record;
pub use record_fault::RecordFault;
pub use trace_file_fault::TraceFileFault;
pub use trace_reading::read_trace;
pub use upgrade_fault::UpgradeFault;
pub use upgrading::upgrade;
pub use writing::{write_host, write_record, write_trace};
