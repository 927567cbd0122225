ghost use Rattle.std.specs.Prelude.{◌≡◌, IfOk, string_bytes};
ghost use Rattle.nvm_evidence.specs.OrderedLine as spec;

use crate::words::{deallocated_word, held_word};
use nvm_standard::{OrderFault, Profile};
use std::alloc::{AllocError, Global};

/// How many jobs an explained trace has, how many points its order places, and what the device was held to.
#[derive(Clone, Copy, Debug, PartialEq, Eq)]
pub struct OrderNumbers {
    pub jobs: usize,
    pub points: usize,
    pub profile: Profile,
}

/// What an order comes to against a trace.
#[derive(Clone, Copy, Debug, PartialEq, Eq)]
pub enum Ordered {
    /// It explains the trace, and these are the numbers of the two.
    Explained(OrderNumbers),
    /// No device may end the command of this number as it ended: nothing explains the trace. It is the first such.
    Wrong { command: u32 },
    /// It doesn't explain the trace, by this fault.
    Unexplained(OrderFault),
}

/// The line of a fault of this name, at this place.
#[tactic(auto, unfolding(crate::specs::OrderedLine::unexplained_at))]
fn told(alloc: Global, name: &str, place: usize) -> Result<String, AllocError>
    ensures { IfOk result (λ line. string_bytes line ≡ spec.unexplained_at name.now place) }
{
    format!(in alloc; "unexplained {name} {place}\n")
}

/// The line of an order's fault.
fn fault_told(alloc: Global, fault: OrderFault) -> Result<String, AllocError>
    ensures { IfOk result (λ line. string_bytes line ≡ spec.fault_line fault) }
{
    match fault {
        OrderFault::FirstWrong { place } => told(alloc, "FirstWrong place", place),
        OrderFault::Misplaced { position } => told(alloc, "Misplaced position", position),
        OrderFault::TimeBack { position } => told(alloc, "TimeBack position", position),
        OrderFault::FindsOther { position } => told(alloc, "FindsOther position", position),
        OrderFault::DeallocatesLate { position } => {
            told(alloc, "DeallocatesLate position", position)
        }
        OrderFault::DoneAgain { position } => told(alloc, "DoneAgain position", position),
        OrderFault::Absent { point } => told(alloc, "Absent point", point),
        OrderFault::TooEarly { point } => told(alloc, "TooEarly point", point),
        OrderFault::Between { position } => told(alloc, "Between position", position),
        OrderFault::Unkept { point } => told(alloc, "Unkept point", point),
        OrderFault::NoMemory => String::from_str(alloc, "unexplained NoMemory\n"),
    }
}

impl OrderNumbers {
    /// The line of an explained trace, with its line feed.
    #[tactic(auto, unfolding(crate::specs::OrderedLine::explained_line))]
    pub fn line(self, alloc: Global) -> Result<String, AllocError>
        ensures { IfOk result (λ line. string_bytes line ≡ spec.explained_line self) }
    {
        let OrderNumbers {
            jobs,
            points,
            profile,
        } = self;
        let reads = held_word(profile.held);
        let deallocated = deallocated_word(profile.deallocated);
        format!(in alloc;
            "explained jobs {jobs} points {points} reads {reads} deallocated {deallocated}\n"
        )
    }
}

impl Ordered {
    /// The line of what it comes to, with its line feed.
    pub fn line(self, alloc: Global) -> Result<String, AllocError>
        ensures { IfOk result (λ line. string_bytes line ≡ spec.ordered_line self) }
    {
        match self {
            Ordered::Explained(numbers) => numbers.line(alloc),
            Ordered::Wrong { command } => told(alloc, "Wrong job", command as usize),
            Ordered::Unexplained(fault) => fault_told(alloc, fault),
        }
    }

    /// The exit status: 0, or 2 where it doesn't explain the trace.
    pub fn status(self) -> u8
        ensures { result ≡ spec.ordered_status self }
    {
        match self {
            Ordered::Explained(_) => 0,
            Ordered::Wrong { .. } | Ordered::Unexplained(_) => 2,
        }
    }
}
