ghost use Rattle.std.specs.Prelude.{◌≡◌, ◌≢◌, ◌↔◌, ◌<◌, ℕ, List, [], ◌++◌, length, map, not, None, Some, IsTrue};
ghost use Rattle.std.specs.List.{AllByRecursion};
ghost use Rattle.nvm_record.specs.Deeds as deeds;
ghost use Rattle.nvm_record.specs.Step.{Deed, Operation};
ghost use Rattle.nvm_geometry.specs.Namespace.{Namespace};
ghost use Rattle.nvm_plan.specs.Checks.{refusal_of};
ghost use Rattle.nvm_plan.specs.JobPart as spec;
ghost use Rattle.nvm_plan.specs.Kinds.{kind_of};
ghost use Rattle.nvm_plan.specs.Operation.{job_operation_of, operation_of_body};
ghost use Rattle.nvm_plan.specs.Outcome as outcome;
ghost use Rattle.nvm_plan.specs.Reply as reply;
ghost use Rattle.nvm_plan.specs.Shape as shape;
ghost use Rattle.nvm_plan.specs.Shape.{EndsAtLast, HasEnding, HasOutcomeShape, MayShow};
ghost use Rattle.nvm_audit.specs.Inside.Occurrences.{AreCounted, HasShapeOnce};
ghost use Rattle.nvm_audit.specs.Inside.Search.{IsFound};
ghost use Rattle.nvm_audit.specs.LawfulRecord.{times_done};
ghost use Rattle.nvm_audit.specs.RecordChecks.{shape_checks};

use crate::audit_fault::AuditFault;
use crate::done_job::DoneJob;
use crate::occurrences::Occurrence;
use crate::record::Record;
use nvm_geometry::Geometry;
use nvm_plan::laws::{parts_of_jobs, ready_jobs, shapes_by_plan};
use nvm_plan::{Body, Job, JobUnits, Kind, Part, PartResult, Plan, is_read, plan, ready_job_units};
use nvm_record::Statuses;

/// Whether the statuses of a job of this kind may be these where its last part ended so.
fn may_show(kind: Kind, ended: PartResult, told: Statuses) -> bool
    ensures { (deed : Deed) → kind_of deed ≡ kind → IsTrue result ↔ MayShow deed ended told }
{
    match ended {
        PartResult::Done => told == kind.success(),
        PartResult::Failed => has_two(told),
        PartResult::Looked => !has_two(told),
        PartResult::NoMemory | PartResult::Full => told == kind.stop(),
    }
}

/// Whether a job that ended so is answered with data, where it stands for an operation.
fn gives_data(body: &Body, told: Statuses) -> bool
    ensures { (ns : Namespace) (op : Operation) → operation_of_body ns body.now ≡ Some op
        → IsTrue result ↔ reply.GivesData op.deed told }
{
    is_read(body) && told.is_success()
}

/// Whether these are the statuses of two commands.
fn has_two(told: Statuses) -> bool
    ensures two { IsTrue result ↔ shape.IsTwoStatuses told }
    ensures one { IsTrue (not result) ↔ reply.IsOneStatus told }
{
    match told {
        Statuses::One(_) => false,
        Statuses::Two(_, _) => true,
    }
}

/// Whether a part that ended so may have others after it.
fn goes_on(ended: PartResult) -> bool
    ensures { result ≡ shape.goes_on ended }
{
    matches!(ended, PartResult::Done | PartResult::Looked)
}

/// Whether the parts are in the first of these units, in their order. Then those are left that come after them.
fn are_first(units: &mut JobUnits<'_>, parts: &[Part]) -> bool
    ensures first { IsTrue result → map (λ part. part.unit) parts.now ++ units.new ≡ units.old }
    ensures left { (left : List ℕ) → map (λ part. part.unit) parts.now ++ left ≡ units.old
        → IsTrue result × (left ≡ units.new) }
{
    for part in parts {
        match units.next() {
            Some(unit) => {
                if unit != part.unit {
                    return false;
                }
            }
            None => return false,
        }
    }
    true
}

/// Whether each of the parts may have ended as it did.
fn results_fit(kind: Kind, parts: &[Part]) -> bool
    ensures { (deed : Deed) → kind_of deed ≡ kind
        → IsTrue result ↔ AllByRecursion (λ part. IsTrue (reply.can_have deed part.result)) parts.now }
{
    for part in parts {
        if !kind.can_have(part.result) {
            return false;
        }
    }
    true
}

/// Whether each of the parts may have others after it.
fn all_go_on(parts: &[Part]) -> bool
    ensures { IsTrue result ↔ AllByRecursion (λ part. IsTrue (shape.goes_on part.result)) parts.now }
{
    for part in parts {
        if !goes_on(part.result) {
            return false;
        }
    }
    true
}

/// Whether the statuses are those of a job of which no part was done, where none of its checks applies.
fn ends_without_parts(geometry: &Geometry, job: &Job, told: Statuses) -> bool
    requires ready { refusal_of geometry.now job.now ≡ None }
    ensures { (op : Operation) → job_operation_of geometry.now job.now ≡ Some op
        → IsTrue result ↔ HasEnding geometry.now op [] told }
{
    parts_of_jobs();
    let kind = Kind::of(&job.body);
    let mut units = ready_job_units(geometry, job);
    match units.next() {
        Some(_) => told == kind.unstarted(),
        None => told == kind.success(),
    }
}

/// Whether the parts and the statuses are those of a job that ended with the last of these parts, where none of its checks
/// applies.
fn ends_at_last(geometry: &Geometry, job: &Job, parts: &[Part], told: Statuses) -> bool
    requires ready { refusal_of geometry.now job.now ≡ None }
    requires some { 0 < length parts.now }
    ensures { (op : Operation) → job_operation_of geometry.now job.now ≡ Some op
        → IsTrue result ↔ EndsAtLast geometry.now op parts.now told }
{
    parts_of_jobs();
    let kind = Kind::of(&job.body);
    let before = parts.len() - 1;
    let mut units = ready_job_units(geometry, job);
    if !are_first(&mut units, parts) {
        return false;
    }
    if !results_fit(kind, parts) {
        return false;
    }
    if !all_go_on(&parts[..before]) {
        return false;
    }
    if !may_show(kind, parts[before].result, told) {
        return false;
    }
    !told.is_success() || units.next().is_none()
}

/// Whether the parts and the statuses are those of a job to which no check applies.
fn has_ending(geometry: &Geometry, job: &Job, parts: &[Part], told: Statuses) -> bool
    requires ready { refusal_of geometry.now job.now ≡ None }
    ensures { (op : Operation) → job_operation_of geometry.now job.now ≡ Some op
        → IsTrue result ↔ HasEnding geometry.now op parts.now told }
{
    if parts.is_empty() {
        ends_without_parts(geometry, job, told)
    } else {
        ends_at_last(geometry, job, parts, told)
    }
}

/// Whether what was done of the job has the shape of its outcome. It takes no memory, and a constant number of steps for
/// each part; each part of a Dataset Management costs a walk over its ranges.
pub(crate) fn has_shape(geometry: &Geometry, job: &Job, done: &DoneJob) -> bool
    ensures { IsTrue result
        ↔ HasOutcomeShape geometry.now job.now done.now.parts done.now.statuses done.now.payload }
{
    shapes_by_plan();
    ready_jobs();
    match plan(geometry, job) {
        Plan::Refused(refusal) => {
            done.parts.is_empty() && done.statuses == refusal && done.payload.is_none()
        }
        Plan::Ready => {
            has_ending(geometry, job, done.parts.as_slice(), done.statuses)
                && done.payload.is_some() == gives_data(&job.body, done.statuses)
        }
    }
}

/// Whether what was done of the job, where it was done once, has the shape of its outcome.
fn has_shape_once(geometry: &Geometry, job: &Job, occurrence: Occurrence<'_>) -> bool
    ensures { IsTrue result ↔ HasShapeOnce geometry.now job.now occurrence.entry }
{
    match occurrence {
        Occurrence::Once(done) => has_shape(geometry, job, done),
        Occurrence::Never | Occurrence::Often => true,
    }
}

/// The first job of which what was done hasn't the shape of its outcome, as an audit names it, where each job was done once.
pub(crate) fn shape_fault(r: &Record, found: &Vec<Occurrence<'_>>) -> Option<AuditFault>
    requires counted { AreCounted (length r.now.jobs) r.now.done found.now.items }
    requires once { (number : ℕ) → number < length r.now.jobs → times_done number r.now.done ≡ 1 }
    ensures { IsFound r.now (shape_checks (length r.now.jobs)) result }
{
    for number in 0..r.jobs.len() {
        if !has_shape_once(&r.geometry, &r.jobs[number], found[number]) {
            return Some(AuditFault::StatusWrong {
                job: number as u32,
                spot: None,
            });
        }
    }
    None
}
