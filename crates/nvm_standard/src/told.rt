ghost use Rattle.std.specs.Prelude.{◌≡◌};
ghost use Rattle.nvm_standard.specs.Statuses as spec;

use nvm_record::{Status, Statuses};
use nvm_trace::Ending;

/// What a status says of what was done.
#[derive(Clone, Copy, Debug, PartialEq, Eq)]
pub(crate) enum Told {
    /// The command was done.
    Done,
    /// Nothing, nor that the command is over.
    ByHost,
    /// Nothing was written.
    Before,
    /// The command is over, and what it did is open.
    Error,
}

impl Told {
    pub fn is_done(self) -> bool
        ensures { result ≡ spec.is_done self }
    {
        match self {
            Told::Done => true,
            Told::ByHost | Told::Before | Told::Error => false,
        }
    }

    pub fn is_host(self) -> bool
        ensures { result ≡ spec.is_host self }
    {
        match self {
            Told::ByHost => true,
            Told::Done | Told::Before | Told::Error => false,
        }
    }

    pub fn is_early(self) -> bool
        ensures { result ≡ spec.is_early self }
    {
        match self {
            Told::Before => true,
            Told::Done | Told::ByHost | Told::Error => false,
        }
    }
}

fn is_code(status: Status, sct: u8, sc: u8) -> bool
    ensures { result ≡ spec.is_code status sct sc }
{
    status.sct == sct && status.sc == sc
}

/// Whether the host's own software makes it, on a reset or an abort.
fn is_by_host(status: Status) -> bool
    ensures { result ≡ spec.is_by_host status }
{
    status.sct == 3 || is_code(status, 0, 0x07) || is_code(status, 0, 0x08)
}

/// Whether the controller found it before it wrote anything.
fn is_before(status: Status) -> bool
    ensures { result ≡ spec.is_before status }
{
    is_code(status, 0, 0x01)
        || is_code(status, 0, 0x02)
        || is_code(status, 0, 0x09)
        || is_code(status, 0, 0x0a)
        || is_code(status, 0, 0x0b)
        || is_code(status, 0, 0x14)
        || is_code(status, 0, 0x80)
}

/// What is said by a status, or where no end was seen.
#[tactic(auto, unfolding(crate::specs::Statuses::told_of))]
pub(crate) fn told_of(status: Option<Status>) -> Told
    ensures { result ≡ spec.told_of status }
{
    let Some(status) = status else {
        return Told::ByHost;
    };
    if is_code(status, 0, 0) {
        Told::Done
    } else if is_by_host(status) {
        Told::ByHost
    } else if is_before(status) {
        Told::Before
    } else {
        Told::Error
    }
}

/// Whether the command ended with this status.
#[tactic(auto, unfolding(crate::specs::Statuses::ended_as))]
pub(crate) fn ended_as(status: Option<Status>, sct: u8, sc: u8) -> bool
    ensures { result ≡ spec.ended_as status sct sc }
{
    match status {
        Some(status) => is_code(status, sct, sc),
        None => false,
    }
}

/// The status of a command by itself, or of a pair's first.
#[tactic(auto, unfolding(crate::specs::Statuses::first_status))]
pub(crate) fn first_status(ended: &Option<Ending>) -> Option<Status>
    ensures { result ≡ spec.first_status ended.now }
{
    match ended {
        Some(ending) => match ending.statuses {
            Statuses::One(status) => Some(status),
            Statuses::Two(first, _) => Some(first),
        },
        None => None,
    }
}

/// The status of a pair's second.
#[tactic(auto, unfolding(crate::specs::Statuses::second_status))]
pub(crate) fn second_status(ended: &Option<Ending>) -> Option<Status>
    ensures { result ≡ spec.second_status ended.now }
{
    match ended {
        Some(ending) => match ending.statuses {
            Statuses::One(status) => Some(status),
            Statuses::Two(_, second) => Some(second),
        },
        None => None,
    }
}
