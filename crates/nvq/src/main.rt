//! The program `nvq`, whose commands are in `nvm_commands`.
#![tactic(auto)]

use nvm_commands::{NVQ, Progress, nvq_status};
use nvm_search::Searches;
use std::io::IsTerminal;
use std::process::ExitCode;

fn main(rt: HostRuntime) -> ExitCode {
    let progress = Progress::new(&rt, NVQ, rt.stderr().is_terminal());
    ExitCode::from(nvq_status(&rt, &Searches, &progress))
}
