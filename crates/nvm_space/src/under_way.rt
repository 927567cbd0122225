//! A job that is done without waiting: begun, gone on with as far as the regions are free, and done.
ghost use Rattle.std.specs.Prelude.{◌≡◌, ◌<◌, ◌^◌, ℕ, Bool, true, List, [], is_some, length, Some, None, IfOk};
ghost use Rattle.smallvec.specs.SmallVec.{HasRoomFor};
ghost use Rattle.nvm_record.specs.declared.status.Statuses.{Statuses as Told};
ghost use Rattle.nvm_geometry.specs.Large.{region_of, regions_of};
ghost use Rattle.nvm_geometry.specs.Namespace.{Namespace};
ghost use Rattle.nvm_plan.specs.Checks.{refusal_of};
ghost use Rattle.nvm_plan.specs.Fits.{FitsNamespace};
ghost use Rattle.nvm_plan.specs.JobPart as plan_spec;
ghost use Rattle.nvm_plan.specs.LentPart.{part_operation_of};
ghost use Rattle.nvm_plan.specs.UnitPlace.{IsUnitPlace};
ghost use Rattle.nvm_plan.specs.declared.job.Job.{Job as JobName};
ghost use Rattle.nvm_plan.specs.declared.part.Part.{Part as PartEnded};
ghost use Rattle.nvm_store.specs.Place.{IsCovered};
ghost use Rattle.nvm_store.specs.declared.place.Place.{Place as UnitPlace};
ghost use Rattle.nvm_unit.specs.declared.views.PassView.{PassView};
ghost use Rattle.nvm_space.specs.Inside.Parts.{reply_told};
ghost use Rattle.nvm_space.specs.Inside.Recorded.{AreRecordedOf};
ghost use Rattle.nvm_space.specs.Inside.Replying.{Follows, HasReplied, RepliesTo, left_of, with_part};
ghost use Rattle.nvm_space.specs.Progress.{IsProgress};
ghost use Rattle.nvm_space.specs.Trace.{part_ended};
ghost use Rattle.nvm_space.specs.UnderWay.{UnderWay, IsUnderWay, next_unit, units_left};
ghost use Rattle.nvm_space.specs.declared.replies.PartReply.{PartReply as ReplyToPart};

use crate::job_done::JobDone;
use crate::replies::{PartReply, gathered};
use crate::space::Recorded;
use nvm_geometry::{LargeGeometry, laws};
use nvm_plan::laws::{
    answers_of_the_step_are_replies, each_command_has_a_status, outcomes_are_made_part_by_part,
    outcomes_by_plan, parts_of_jobs, ready_jobs,
};
use nvm_plan::{
    Body, Job, LentPart, Part, PartResult, Parts, first_reached, next_reached, part_at,
    ready_part_count, refusal,
};
use nvm_record::{NoMemory, Op};
use std::alloc::Global;
use std::marker::Model;

/// A job that was begun and isn't done: the parts that were done, where they are listed, and where the next one is.
///
/// It holds its number and what its parts read, too, but not the job, which is lent each time. Dropped, it leaves the parts that were
/// done.
#[derive(Drop)]
pub struct JobUnderWay {
    pub(crate) number: u32,
    /// The lowest LBA of the next part, which the job reaches.
    lba: u64,
    /// The parts that were done, with room for all that are left, where they are listed.
    parts: Parts,
    /// What they read.
    bytes: Vec<u8>,
}

impl Model for JobUnderWay {
    ghost use Rattle.nvm_space.specs.Trace.{part_ended};
    ghost use Rattle.nvm_space.specs.UnderWay.{UnderWay};

    ghost Value = { UnderWay };

    ghost view = { λ w. record {
      number = w.number;
      lba = w.lba;
      parts = w.parts.items;
      bytes = w.bytes.items;
      room = w.parts.capacity;
    } };
}

/// How far a job is that is done without waiting.
#[derive(Drop)]
pub enum Progress {
    /// It was done or refused, and this is what is reported about it.
    Done(JobDone),
    /// The region of its next part was not to be had, or none of its parts was tried yet.
    Pending(JobUnderWay),
}

/// Begins a job: refuses it, or asks for the memory of its list of parts, where several are listed, and of its data. No part is
/// done.
pub(crate) fn begin(
    alloc: Global,
    geometry: &LargeGeometry,
    recorded: Option<Recorded>,
    number: u32,
    job: &Job,
) -> Progress
    requires { AreRecordedOf geometry.now recorded }
    ensures { (views : List PassView) → IsProgress geometry.now (is_some recorded) number job.now views views result }
{
    outcomes_by_plan();
    outcomes_are_made_part_by_part();
    each_command_has_a_status();
    ready_jobs();
    parts_of_jobs();
    laws::ranges_meet_their_units();
    if let Some(statuses) = refusal(geometry, job) {
        return Progress::Done(JobDone::of(job, statuses, None, Parts::new(alloc)));
    }
    let Some(lba) = first_reached(geometry, job) else {
        return Progress::Done(JobDone::of_success(job, Vec::new(alloc), Parts::new(alloc)));
    };
    let count = match &recorded {
        Some(recorded) => ready_part_count(&recorded.geometry, job),
        None => 0,
    };
    let Ok(parts) = Parts::with_capacity(alloc, usize::from(count)) else {
        return Progress::Done(JobDone::of_no_part(alloc, job));
    };
    let Ok(bytes) = room(alloc, geometry, job) else {
        return Progress::Done(JobDone::of_no_part(alloc, job));
    };
    Progress::Pending(JobUnderWay {
        number,
        lba,
        parts,
        bytes,
    })
}

impl JobUnderWay {
    /// An LBA of the unit in which its next part is.
    pub(crate) fn lba(&self) -> u64
        ensures { result ≡ self.now.lba }
    {
        self.lba
    }

    /// The job's next part.
    pub(crate) fn next_part<'a>(&self, geometry: &LargeGeometry, job: &'a Job) -> LentPart<'a>
        requires fits { FitsNamespace geometry.now job.now }
        requires under_way { (start : List PassView) × (now : List PassView)
            × (lists : Bool) × IsUnderWay geometry.now lists job.now self.now start now }
        ensures known { self.now.lba < geometry.now.nsze }
        ensures part { plan_spec.job_part_in geometry.now job.now (next_unit geometry.now self.now) ≡ Some (part_operation_of result) }
        ensures covered { (place : UnitPlace) → IsUnitPlace (regions_of geometry.now) (region_of geometry.now (next_unit geometry.now self.now)) place
            → IsCovered place (part_operation_of result) }
    {
        laws::regions_have_whole_units();
        laws::each_unit_has_one_place();
        parts_of_jobs();

        // For the proof alone: the numbers are those of a namespace.
        let _nsze = geometry.nsze();
        part_at(geometry, job, self.lba)
    }

    /// What the reply to its next part makes of it.
    pub(crate) fn replied(
        self,
        geometry: &LargeGeometry,
        lists: bool,
        region: u16,
        job: &Job,
        reply: PartReply,
    ) -> Progress
        requires few { lists ≡ true → reply.point < 2 ^ 32 }
        requires listed { lists ≡ true → region ≡ next_unit geometry.now self }
        requires replies { (start : List PassView) × (now : List PassView) × (new : List PassView)
            × RepliesTo geometry.now lists job.now self (reply_told (next_unit geometry.now self) reply) start now new }
        ensures progress { (start now new : List PassView)
            → RepliesTo geometry.now lists job.now self (reply_told (next_unit geometry.now self) reply) start now new
            → IsProgress geometry.now lists self.number job.now start new result }
        ensures fewer { left_of geometry.now job.now result < length (units_left geometry.now job.now self) }
    {
        parts_follow_parts();
        parts_of_jobs();
        let JobUnderWay {
            number,
            lba,
            mut parts,
            mut bytes,
        } = self;
        let point = reply.point;
        let (result, statuses) = gathered(reply, &mut bytes);
        list_part(lists, &mut parts, region, point, result);
        if !statuses.is_success() {
            return Progress::Done(JobDone::of(job, statuses, None, parts));
        }
        match next_reached(geometry, job, lba) {
            Some(lba) => Progress::Pending(JobUnderWay {
                number,
                lba,
                parts,
                bytes,
            }),
            None => Progress::Done(JobDone::of_success(job, bytes, parts)),
        }
    }
}

/// Lists a part that was done, where parts are listed.
fn list_part(lists: bool, parts: &mut Parts, unit: u16, point: u64, ended: PartResult)
    requires few { lists ≡ true → point < 2 ^ 32 }
    requires room { lists ≡ true → HasRoomFor parts.old 1 }
    ensures items { parts.new.items ≡ with_part lists parts.old.items (part_ended unit point ended) }
    ensures capacity { parts.new.capacity ≡ parts.old.capacity }
{
    if lists {
        parts.push_reserved(Part {
            unit,
            point: point as u32,
            result: ended,
        });
    }
}

/// A part that succeeded leaves the job under way at its next unit, or ends it where that was the last. One that didn't
/// ends it too.
fn parts_follow_parts()
    ensures { (ns : Namespace) (lists : Bool) (job : JobName) (w : UnderWay) (reply : ReplyToPart) (start now new : List PassView)
        (bytes : List ℕ) (part : PartEnded) (statuses : Told)
        → HasReplied ns lists job w reply start now new bytes part statuses → Follows ns lists job w start new bytes part statuses }
{
    outcomes_by_plan();
    outcomes_are_made_part_by_part();
    each_command_has_a_status();
    answers_of_the_step_are_replies();
    parts_of_jobs();
    laws::parts_keep_their_kind();
    nvm_unit::laws::waiting_is_no_step();
}

/// Room for the data of a Read over several units. In one unit, the data of its one part is taken as it is.
fn room(alloc: Global, geometry: &LargeGeometry, job: &Job) -> Result<Vec<u8>, NoMemory>
    requires { refusal_of geometry.now job.now ≡ None }
    ensures { IfOk result (λ bytes. bytes.items ≡ []) }
{
    ready_jobs();
    let Body::Single(command) = &job.body else {
        return Ok(Vec::new(alloc));
    };
    if command.op != Op::Read {
        return Ok(Vec::new(alloc));
    }
    let blocks = u32::from(command.nlb) + 1;
    if geometry.lies_in_unit(command.slba, blocks) {
        return Ok(Vec::new(alloc));
    }
    Vec::with_capacity(
        alloc,
        blocks as usize * geometry.block_size().bytes() as usize,
    )
}
