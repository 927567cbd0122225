//! What a unit reports about a job's part.
ghost use Rattle.std.specs.Prelude.{◌≡◌, ◌++◌, ℕ, OnOk};
ghost use Rattle.nvm_record.specs.Deeds.{success_of};
ghost use Rattle.nvm_store.specs.ActRef.{lent_operation_of};
ghost use Rattle.nvm_store.specs.Look.{look_operation_of};
ghost use Rattle.nvm_plan.specs.Reply.{stop_of};
ghost use Rattle.nvm_space.specs.Trace as spec;
ghost use Rattle.nvm_space.specs.Trace.{part_ended};

use nvm_plan::PartResult;
use nvm_record::{NoMemory, ReadData, Status, Statuses};
use nvm_store::{ActRef, Answer, Look};
use nvm_unit::{Changed, ObserveFault, Observed};

/// The part, what would be reported to its host about it alone, and the data that a Read's part read.
#[derive(Debug, Drop)]
pub struct PartReply {
    pub point: u64,
    pub result: PartResult,
    pub statuses: Statuses,
    pub payload: Option<ReadData>,
}

ghost use Rattle.nvm_space.specs.Inside.Parts.{IsGathered, reply_told};

/// What is reported about a change.
#[inline(always)]
pub(crate) fn reply_of_change(act: ActRef<'_>, changed: Changed) -> PartReply
    ensures { (unit : ℕ) → reply_told unit result ≡ spec.reply_of_change unit (lent_operation_of act.entry).deed changed }
{
    let (point, result, statuses) = match changed {
        Changed::Done { point } => (point, PartResult::Done, success(act)),
        Changed::Failed { point, statuses } => (point, PartResult::Failed, statuses),
        Changed::NoMemory { point } => (point, PartResult::NoMemory, stop(act)),
        Changed::Full { point } => (point, PartResult::Full, stop(act)),
    };
    PartReply {
        point,
        result,
        statuses,
        payload: None,
    }
}

/// What is reported about a look.
#[inline(always)]
pub(crate) fn reply_of_look(look: Look<'_>, answer: Result<Observed, ObserveFault>) -> PartReply
    ensures { (unit : ℕ) → reply_told unit result ≡ spec.reply_of_look unit (look_operation_of look.entry).deed answer }
{
    let _ = look;
    match answer {
        Ok(Observed { point, answer }) => {
            let (statuses, payload) = match answer {
                Answer::Payload(payload) => (
                    Statuses::One(Status::SUCCESSFUL_COMPLETION),
                    Some(payload),
                ),
                Answer::Status(status) => (Statuses::One(status), None),
            };
            PartReply {
                point,
                result: PartResult::Looked,
                statuses,
                payload,
            }
        }
        Err(ObserveFault::NoMemory { point }) => PartReply {
            point,
            result: PartResult::NoMemory,
            statuses: Statuses::One(Status::INTERNAL_ERROR),
            payload: None,
        },
    }
}

/// What is reported about an act that was done.
fn success(act: ActRef<'_>) -> Statuses
    ensures { result ≡ success_of (lent_operation_of act.entry).deed }
{
    match act {
        ActRef::Pair { .. } => {
            Statuses::Two(Status::SUCCESSFUL_COMPLETION, Status::SUCCESSFUL_COMPLETION)
        }
        _ => Statuses::One(Status::SUCCESSFUL_COMPLETION),
    }
}

/// What is reported about an act for which there was no memory or no room. A pair's comparison came before that, and
/// held.
fn stop(act: ActRef<'_>) -> Statuses
    ensures { result ≡ stop_of (lent_operation_of act.entry).deed }
{
    match act {
        ActRef::Pair { .. } => {
            Statuses::Two(Status::SUCCESSFUL_COMPLETION, Status::INTERNAL_ERROR)
        }
        _ => Statuses::One(Status::INTERNAL_ERROR),
    }
}

/// Adds what the part read to the bytes that the parts before it read, and says how the part ended. Where memory for that is
/// refused, the part is one that found no memory.
pub(crate) fn gathered(reply: PartReply, bytes: &mut Vec<u8>) -> (PartResult, Statuses)
    ensures { (unit : ℕ) → IsGathered unit reply bytes.old.items bytes.new.items (part_ended unit reply.point result.0) result.1 }
{
    let PartReply {
        point: _,
        result,
        statuses,
        payload,
    } = reply;
    let Some(payload) = payload else {
        return (result, statuses);
    };
    match add(bytes, payload) {
        Ok(()) => (result, statuses),
        Err(_) => (PartResult::NoMemory, Statuses::One(Status::INTERNAL_ERROR)),
    }
}

/// Adds the data. Where no room was made, it is all that is read, and isn't copied.
fn add(bytes: &mut Vec<u8>, payload: ReadData) -> Result<(), NoMemory>
    ensures { OnOk result (bytes.new.items ≡ bytes.old.items ++ payload) }
{
    let payload = if bytes.is_empty() && bytes.capacity() < payload.len() {
        match payload.into_vec() {
            Ok(own) => {
                *bytes = own;
                return Ok(());
            }
            Err(shared) => shared,
        }
    } else {
        payload
    };
    bytes.extend_from_slice(payload.as_slice())
}
