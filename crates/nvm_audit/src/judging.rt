ghost use Rattle.std.specs.Prelude.{◌≡◌, ◌↔◌, ℕ, ◌+◌, ◌-◌, ◌*◌, ◌≤◌, List, length, not, Some, IsSome, IsTrue};
ghost use Rattle.nvm_record.specs.Deeds.{is_look, is_read};
ghost use Rattle.nvm_record.specs.Medium.{Medium};
ghost use Rattle.nvm_record.specs.Step.{Operation, statuses_of, data_of};
ghost use Rattle.nvm_geometry.specs.Namespace.{Namespace};
ghost use Rattle.nvm_geometry.specs.Parts.{data_part, part_in};
ghost use Rattle.nvm_plan.specs.Fits.{FitsNamespace};
ghost use Rattle.nvm_plan.specs.JobPart as spec;
ghost use Rattle.nvm_plan.specs.JobPart.{ready_operation};
ghost use Rattle.nvm_plan.specs.LentPart.{part_operation_of};
ghost use Rattle.nvm_plan.specs.Operation.{operation_of_body};
ghost use Rattle.nvm_plan.specs.UnitPlace.{IsUnitPlace};
ghost use Rattle.nvm_store.specs.Contents.{Holds, Covers, place_of};
ghost use Rattle.nvm_store.specs.Operation.{read_operation};
ghost use Rattle.nvm_store.specs.Place.{IsWithin};
ghost use Rattle.nvm_audit.specs.Inside.Judging.{MayEnd, EndsRight, IsFound};
ghost use Rattle.nvm_audit.specs.Recordable.{IsLongAsRead};
ghost use Rattle.nvm_audit.specs.Resting.{HasRightData};

use crate::done_part::DonePart;
use nvm_geometry::Geometry;
use nvm_geometry::laws::{parts_keep_their_kind, parts_lie_in_their_units};
use nvm_plan::{Body, Job, LentPart, Part, PartResult, job_part_there};
use nvm_record::{Status, Statuses};
use nvm_store::{Limit, Look, UnitBlocks, judge, judge_look};

/// What was found of a part on the blocks at its point.
#[derive(Clone, Copy, Debug, PartialEq, Eq)]
pub(crate) enum Finding {
    /// What was recorded of it is right.
    Right,
    /// It can't have ended so, or not with these statuses.
    StatusWrong,
    /// The data recorded of it isn't that of the blocks.
    DataWrong,
}

/// Whether a part may have ended as it did where the step gives these statuses, and others were answered.
fn may_end(part: Part, is_act: bool, limit: u32, told: Statuses, given: Statuses) -> bool
    ensures { IsTrue result ↔ MayEnd is_act limit part.point told given part.result }
{
    match part.result {
        PartResult::Done => true,
        PartResult::Failed => is_act && !given.is_success() && told == given,
        PartResult::Looked => told == given,
        PartResult::NoMemory => !is_act || given.is_success() && part.point < limit,
        PartResult::Full => given.is_success() && part.point == limit,
    }
}

/// The statuses that the part's step gives on these blocks.
fn given_statuses(blocks: &UnitBlocks, part: &LentPart<'_>) -> Statuses
    requires { Covers blocks.now (part_operation_of part.now) }
    ensures { (m : Medium) → Holds blocks.now m → result ≡ statuses_of (part_operation_of part.now) m }
{
    match part {
        LentPart::Act(act) => judge(blocks, *act),
        LentPart::Look(look) => Statuses::One(judge_look(blocks, *look)),
    }
}

/// Whether the part is an act and no look.
fn is_act(part: &LentPart<'_>) -> bool
    ensures { result ≡ not (is_look (part_operation_of part.now).deed) }
{
    match part {
        LentPart::Act(_) => true,
        LentPart::Look(_) => false,
    }
}

/// Whether these bytes, of a Read from `slba` on, have those of the `count` blocks from `first` where they belong.
fn reads_same(blocks: &UnitBlocks, slba: u64, first: u64, count: u32, bytes: &[u8]) -> bool
    requires lies { IsWithin (place_of blocks.now) first count }
    requires low { slba ≤ first }
    requires high { (first - slba + count) * blocks.now.size ≤ length bytes.now }
    ensures { (m : Medium) → Holds blocks.now m → IsTrue result
        ↔ (data_of (read_operation first count) m ≡ Some (data_part blocks.now.size (first - slba) count bytes.now)) }
{
    let size = u64::from(blocks.place().size.bytes());
    let from = ((first - slba) * size) as usize;
    let length = (u64::from(count) * size) as usize;
    let look = Look::Compare {
        first,
        blocks: count,
        payload: &bytes[from..from + length],
    };
    judge_look(blocks, look) == Status::SUCCESSFUL_COMPLETION
}

/// The LBA from which a job's Read reads.
fn start_of(job: &Job) -> u64
    ensures { (ns : Namespace) (op : Operation) → operation_of_body ns job.now.body ≡ Some op → IsTrue (is_read op.deed)
        → result ≡ op.first }
{
    match &job.body {
        Body::Single(command) => command.slba,
        Body::Pair(compare, _) => compare.slba,
    }
}

/// Whether these bytes, of a Read from `slba` on, have those of the part's blocks where they belong.
fn has_bytes(blocks: &UnitBlocks, slba: u64, part: &LentPart<'_>, bytes: &[u8]) -> bool
    requires covers { Covers blocks.now (part_operation_of part.now) }
    requires read { IsTrue (is_read (part_operation_of part.now).deed) }
    requires low { slba ≤ (part_operation_of part.now).first }
    requires high { ((part_operation_of part.now).first - slba + (part_operation_of part.now).blocks) * blocks.now.size
        ≤ length bytes.now }
    ensures { (m : Medium) → Holds blocks.now m → IsTrue result
        ↔ (data_of (part_operation_of part.now) m ≡ Some (data_part blocks.now.size
        ((part_operation_of part.now).first - slba) (part_operation_of part.now).blocks bytes.now)) }
{
    match part {
        LentPart::Look(
            Look::Read {
                first,
                blocks: count,
            },
        ) => reads_same(blocks, slba, *first, *count, bytes),
        _ => unreachable!("it is the part of a Read"),
    }
}

/// Whether the data recorded of the part's job, where there is any, has that of the blocks where it belongs.
fn data_is_right(
    geometry: &Geometry,
    job: &Job,
    p: &DonePart<'_>,
    blocks: &UnitBlocks,
    part: &LentPart<'_>,
) -> bool
    requires whole { (bytes : List ℕ) → p.now.done.payload ≡ Some bytes → IsLongAsRead geometry.now job.now bytes }
    requires is { spec.job_part_in geometry.now job.now p.now.part.unit ≡ Some (part_operation_of part.now) }
    requires covers { Covers blocks.now (part_operation_of part.now) }
    requires size { blocks.now.size ≡ geometry.now.block_size }
    ensures { (op : Operation) (m : Medium) → ready_operation geometry.now job.now ≡ Some op → Holds blocks.now m
        → IsTrue result ↔ HasRightData geometry.now op m p.now }
{
    parts_keep_their_kind();
    parts_lie_in_their_units();
    let done = p.done;
    match &done.payload {
        Some(read) => has_bytes(blocks, start_of(job), part, read.as_slice()),
        None => true,
    }
}

/// What is found of a part of this job where it has this part in the unit.
fn judge_lent(
    geometry: &Geometry,
    limit: Limit,
    job: &Job,
    p: &DonePart<'_>,
    blocks: &UnitBlocks,
    part: &LentPart<'_>,
) -> Finding
    requires whole { (bytes : List ℕ) → p.now.done.payload ≡ Some bytes → IsLongAsRead geometry.now job.now bytes }
    requires is { spec.job_part_in geometry.now job.now p.now.part.unit ≡ Some (part_operation_of part.now) }
    requires covers { Covers blocks.now (part_operation_of part.now) }
    requires size { blocks.now.size ≡ geometry.now.block_size }
    ensures { (op : Operation) (m : Medium) → ready_operation geometry.now job.now ≡ Some op → Holds blocks.now m
        → IsFound result (EndsRight limit (part_in geometry.now op p.now.part.unit) m p.now p.now.part.result)
        (HasRightData geometry.now op m p.now) }
{
    let given = given_statuses(blocks, part);
    if !may_end(p.part, is_act(part), limit.entries(), p.told(), given) {
        return Finding::StatusWrong;
    }
    if data_is_right(geometry, job, p, blocks, part) {
        Finding::Right
    } else {
        Finding::DataWrong
    }
}

/// What is found of a part of this job on the blocks at its point.
pub(crate) fn judge_part(
    geometry: &Geometry,
    limit: Limit,
    job: &Job,
    p: &DonePart<'_>,
    blocks: &UnitBlocks,
) -> Finding
    requires fits { FitsNamespace geometry.now job.now }
    requires whole { (bytes : List ℕ) → p.now.done.payload ≡ Some bytes → IsLongAsRead geometry.now job.now bytes }
    requires there { IsSome (spec.job_part_in geometry.now job.now p.now.part.unit) }
    requires lies { IsUnitPlace geometry.now p.now.part.unit (place_of blocks.now) }
    ensures { (op : Operation) (m : Medium) → ready_operation geometry.now job.now ≡ Some op → Holds blocks.now m
        → IsFound result (EndsRight limit (part_in geometry.now op p.now.part.unit) m p.now p.now.part.result)
        (HasRightData geometry.now op m p.now) }
{
    let part = job_part_there(geometry, job, p.part.unit);
    judge_lent(geometry, limit, job, p, blocks, &part)
}
