//! The program `nvmu`, whose commands are in `nvm_commands`.
#![tactic(auto)]

use nvm_commands::{NVMU, Progress, nvmu_status};
use std::io::IsTerminal;
use std::process::ExitCode;

fn main(rt: HostRuntime) -> ExitCode {
    let progress = Progress::new(&rt, NVMU, rt.stderr().is_terminal());
    ExitCode::from(nvmu_status(&rt, &progress))
}
