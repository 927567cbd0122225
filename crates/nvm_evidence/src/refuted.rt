ghost use Rattle.std.specs.Prelude.{◌≡◌, IfOk, string_bytes};
ghost use Rattle.nvm_evidence.specs.RefutedLine as spec;

use crate::words::{deallocated_word, held_word};
use nvm_standard::{ContradictionFault, Profile};
use std::alloc::{AllocError, Global};

/// What a contradiction comes to against a trace.
#[derive(Clone, Copy, Debug, PartialEq, Eq)]
pub enum Refuted {
    /// No order explains the trace, held to this profile: so many commands are named by so many facts and their conclusion.
    Refuted {
        commands: usize,
        facts: usize,
        profile: Profile,
    },
    /// No device may end the command of this number as it ended: nothing explains the trace. It is the first such.
    Wrong {
        command: u32,
    },
    /// The contradiction isn't taken, by this fault.
    Unrefuted(ContradictionFault),
}

/// The line of a refuted trace.
#[tactic(auto, unfolding(crate::specs::RefutedLine::taken_line))]
fn taken_told(
    alloc: Global,
    commands: usize,
    facts: usize,
    profile: Profile,
) -> Result<String, AllocError>
    ensures { IfOk result (λ line. string_bytes line ≡ spec.taken_line commands facts profile) }
{
    let reads = held_word(profile.held);
    let deallocated = deallocated_word(profile.deallocated);
    format!(in alloc;
        "refuted commands {commands} facts {facts} reads {reads} deallocated {deallocated}\n"
    )
}

/// The line of a fault.
fn fault_told(alloc: Global, fault: ContradictionFault) -> Result<String, AllocError>
    ensures { IfOk result (λ line. string_bytes line ≡ spec.fault_line fault) }
{
    match fault {
        ContradictionFault::FactWrong { fact } => {
            format!(in alloc; "unrefuted FactWrong fact {fact}\n")
        }
        ContradictionFault::NothingContradicted => {
            String::from_str(alloc, "unrefuted NothingContradicted fact -\n")
        }
        ContradictionFault::NoMemory => String::from_str(alloc, "unrefuted NoMemory\n"),
    }
}

impl Refuted {
    /// The line of what it comes to, with its line feed.
    pub fn line(self, alloc: Global) -> Result<String, AllocError>
        ensures { IfOk result (λ line. string_bytes line ≡ spec.refuted_line self) }
    {
        match self {
            Refuted::Refuted {
                commands,
                facts,
                profile,
            } => taken_told(alloc, commands, facts, profile),
            Refuted::Wrong { command } => format!(in alloc; "refuted job {command}\n"),
            Refuted::Unrefuted(fault) => fault_told(alloc, fault),
        }
    }

    /// The exit status: 0, or 2 where the contradiction isn't taken.
    pub fn status(self) -> u8
        ensures { result ≡ spec.refuted_status self }
    {
        match self {
            Refuted::Refuted { .. } | Refuted::Wrong { .. } => 0,
            Refuted::Unrefuted(_) => 2,
        }
    }
}
