//! What the programs `nvq` and `nvmu` do. `nvq` runs lists of commands, which people write or a seed gives, makes them into host files, lists those,
//! records and traces, makes the text of traces into files, and judges and explains records and traces. `nvmu` runs host files, and judges.
//!
//! A command frees nothing of the records and traces that it was about: the process ends with it.
//!
//! The module `front` has what both do with words, files and standard streams. How far long work is, a [`Progress`] says.
#![tactic(auto)]

mod auditing;
mod certifying;
mod certifying_words;
mod checked;
mod commands;
mod content;
mod conversion;
mod conversion_words;
mod explaining;
mod explaining_words;
mod failure;
mod fault;
mod files;
mod front;
mod generating;
mod generating_words;
mod hint;
mod host_files;
mod list_failure;
mod listing;
mod namespace_words;
mod nvmu;
mod read_list;
mod run_paths;
mod running;
mod running_words;
mod text_failure;
mod told;
mod told_run;
mod tracing;
mod words;
mod written_files;

pub use commands::{NVQ, nvq_status};
pub use front::Progress;
pub use nvmu::{NVMU, nvmu_status};
