//! What the step gives a part.
ghost use Rattle.std.specs.Prelude.{◌≡◌, IfOk, option_map};
ghost use Rattle.nvm_record.specs.Medium.{Medium};
ghost use Rattle.nvm_plan.specs.LentPart.{part_operation_of};
ghost use Rattle.nvm_store.specs.Contents.{Covers, Holds};
ghost use Rattle.nvm_explain.specs.Given.{IsGiven};

use nvm_listing::ActText;
use nvm_plan::LentPart;
use nvm_record::{NoMemory, ReadData, Status, Statuses};
use nvm_store::{Answer, Look, UnitBlocks, answer, judge};
use nvm_text::{RunsText, StatusesText};
use std::alloc::Global;
use std::fmt;
use std::fmt::{Display, Formatter};

/// What the step gives: statuses, and a Read's data where it succeeds.
#[derive(Drop)]
pub struct Given {
    pub statuses: Statuses,
    pub payload: Option<ReadData>,
}

impl Given {
    /// The data, if there is any.
    pub fn data(&self) -> Option<&[u8]>
        ensures { option_map (λ bytes. bytes.now) result ≡ self.now.payload }
    {
        match &self.payload {
            Some(data) => Some(data.as_slice()),
            None => None,
        }
    }
}

/// How a part ended: its statuses, and after them a Read's data where there is any.
#[derive(Clone, Copy)]
pub(crate) struct OutcomeText<'a>(pub(crate) Statuses, pub(crate) Option<&'a [u8]>);

impl Display for OutcomeText<'_> {
    fn fmt<W: fmt::Write>(&self, f: &mut Formatter<W>) -> fmt::Result {
        let statuses = StatusesText(self.0);
        match self.1 {
            Some(bytes) => write!(f, "{statuses} data {}", RunsText(bytes)),
            None => write!(f, "{statuses}"),
        }
    }
}

/// What the step of the part gives on these blocks.
pub(crate) fn given_on(
    alloc: Global,
    blocks: &UnitBlocks,
    part: &LentPart<'_>,
) -> Result<Given, NoMemory>
    requires { Covers blocks.now (part_operation_of part.now) }
    ensures { IfOk result (λ given. (m : Medium) → Holds blocks.now m → IsGiven (part_operation_of part.now) m given) }
{
    let (statuses, payload) = match part {
        LentPart::Act(act) => (judge(blocks, *act), None),
        LentPart::Look(look) => match answer(alloc, blocks, *look)? {
            Answer::Payload(data) => (Statuses::One(Status::SUCCESSFUL_COMPLETION), Some(data)),
            Answer::Status(status) => (Statuses::One(status), None),
        },
    };
    Ok(Given { statuses, payload })
}

/// Appends what the part does, on which blocks or ranges, and with which data.
pub(crate) fn push_operation(
    text: &mut String,
    alloc: Global,
    part: &LentPart<'_>,
) -> Result<(), NoMemory> {
    match part {
        LentPart::Act(act) => {
            let act = act.to_act(alloc)?;
            write!(text, "{}", ActText(&act))
        }
        LentPart::Look(Look::Read { first, blocks }) => write!(text, " read {first} {blocks}"),
        LentPart::Look(
            Look::Compare {
                first,
                blocks,
                payload,
            },
        ) => write!(text, " compare {first} {blocks} {}", RunsText(payload)),
    }
}
