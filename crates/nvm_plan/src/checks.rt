ghost use Rattle.std.specs.Prelude.{◌≡◌, ◌+◌, ◌<◌, ◌≤◌, not};
ghost use Rattle.nvm_record.specs.Status.{aborted_due_to_failed_fused_command};
ghost use Rattle.nvm_record.specs.declared.status.Statuses.TheVariants.{Two};
ghost use Rattle.nvm_plan.specs.Checks as spec;
ghost use Rattle.nvm_plan.specs.Checks.{single_checks, pair_checks, first_answer, ends_above, refusal_of};
ghost use Rattle.nvm_plan.specs.Ready.{IsReady, IsPlan, IfReady};

use crate::decision::Plan;
use crate::job::{Body, Job};
use crate::laws;
use crate::profile::is_in_profile;
use nvm_geometry::laws::sharing_is_one_number;
use nvm_geometry::{Geometry, LargeGeometry};
use nvm_record::{Command, Fuse, Op, Status, Statuses};

/// The identifier of the one namespace that there is.
pub(crate) const NAMESPACE_IDENTIFIER: u32 = 1;

/// Looks for the first check that applies to the job, which refuses it with that check's statuses: one
/// for a single command, two for a pair. It takes no memory.
///
/// | Single command | Status | Pair | Statuses |
/// |---|---|---|---|
/// | an opcode outside the profile | 0/01 | other commands than Compare and Write | 0/02, 0/02 |
/// | the reserved FUSE value 11b | 0/02 | another namespace than 1 in either | 0/0b, 0/09 |
/// | a FUSE value that asks for a partner | 0/0a | two ranges that differ | 0/02, 0/02 |
/// | another namespace than 1 | 0/0b | a range that ends above NSZE | 0/80, 0/09 |
/// | a range that ends above NSZE | 0/80 | a range above the pair limit, or over a boundary | 0/14, 0/09 |
///
/// The ranges of a Dataset Management are all looked at, with the Deallocate bit or without it. A range without a
/// block ends where it begins.
pub fn plan(geometry: &Geometry, job: &Job) -> Plan
    ensures table { IsPlan geometry.now job.now result }
    ensures ready { IfReady result (IsReady geometry.now job.now) }
{
    laws::ready_jobs();
    match refusal(&geometry.large(), job) {
        Some(statuses) => Plan::Refused(statuses),
        None => Plan::Ready,
    }
}

/// The statuses with which a job is refused on a namespace of any size: what [`plan`] answers, and `None` where it is ready.
#[tactic(auto, unfolding(crate::specs::Checks::refusal_of))]
pub fn refusal(geometry: &LargeGeometry, job: &Job) -> Option<Statuses>
    ensures { result ≡ refusal_of geometry.now job.now }
{
    match &job.body {
        Body::Single(command) => single_refusal(*geometry, command),
        Body::Pair(first, second) => pair_refusal(*geometry, first, second),
    }
}

/// The status with which a command by itself is refused, if it is.
fn single_refusal(geometry: LargeGeometry, command: &Command) -> Option<Statuses>
    ensures { result ≡ first_answer (single_checks geometry command.now) }
{
    if !is_in_profile(command.op) {
        return Some(Statuses::One(Status::INVALID_COMMAND_OPCODE));
    }
    match command.fuse {
        Fuse::Reserved => return Some(Statuses::One(Status::INVALID_FIELD_IN_COMMAND)),
        Fuse::First | Fuse::Second => {
            return Some(Statuses::One(Status::ABORTED_DUE_TO_MISSING_FUSED_COMMAND));
        }
        Fuse::Normal => {}
    }
    if command.nsid != NAMESPACE_IDENTIFIER {
        return Some(Statuses::One(Status::INVALID_NAMESPACE_OR_FORMAT));
    }
    if !lies_in_namespace(geometry, command) {
        return Some(Statuses::One(Status::LBA_OUT_OF_RANGE));
    }
    None
}

/// Whether the command's range lies in the namespace, or each of its ranges does.
fn lies_in_namespace(geometry: LargeGeometry, command: &Command) -> bool
    ensures { not result ≡ ends_above geometry command.now }
{
    if command.op.carries_ranges() {
        return geometry.ranges_in_range(command.payload.as_slice());
    }
    geometry.in_range(command.slba, u32::from(command.nlb) + 1)
}

/// The statuses with which a fused pair is refused, if it is.
fn pair_refusal(geometry: LargeGeometry, first: &Command, second: &Command) -> Option<Statuses>
    ensures { result ≡ first_answer (pair_checks geometry first.now second.now) }
{
    if !matches!((first.op, second.op), (Op::Compare, Op::Write)) {
        return Some(Statuses::Two(
            Status::INVALID_FIELD_IN_COMMAND,
            Status::INVALID_FIELD_IN_COMMAND,
        ));
    }
    if first.nsid != NAMESPACE_IDENTIFIER || second.nsid != NAMESPACE_IDENTIFIER {
        return Some(write_aborted(Status::INVALID_NAMESPACE_OR_FORMAT));
    }
    if first.slba != second.slba || first.nlb != second.nlb {
        return Some(Statuses::Two(
            Status::INVALID_FIELD_IN_COMMAND,
            Status::INVALID_FIELD_IN_COMMAND,
        ));
    }
    let blocks = u32::from(first.nlb) + 1;
    if !geometry.in_range(first.slba, blocks) {
        return Some(write_aborted(Status::LBA_OUT_OF_RANGE));
    }
    if exceeds_pair_limit(geometry, first.slba, blocks) {
        return Some(write_aborted(Status::ATOMIC_WRITE_UNIT_EXCEEDED));
    }
    None
}

/// The pair's Compare ends with this status, and its Write is aborted with it.
fn write_aborted(compare: Status) -> Statuses
    ensures { result ≡ Two compare aborted_due_to_failed_fused_command }
{
    Statuses::Two(compare, Status::ABORTED_DUE_TO_FAILED_FUSED_COMMAND)
}

/// Whether a pair of the range has more blocks than the limit allows, or crosses a boundary.
fn exceeds_pair_limit(geometry: LargeGeometry, slba: u64, blocks: u32) -> bool
    requires some { 0 < blocks }
    requires in_range { slba + blocks ≤ geometry.nsze }
    ensures { result ≡ spec.exceeds_pair_limit geometry slba blocks }
{
    sharing_is_one_number();
    !geometry.within_pair_limit(slba, blocks)
}
