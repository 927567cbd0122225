//! A job whose data is lent and whose range lies in one unit: it is done in one step, without a `Job` that holds it.
ghost use Rattle.std.specs.Prelude.{◌≡◌, ◌↔◌, ℕ, Bool, List, IfSome, IsTrue, MatchOption, false, unwrap_or};
ghost use Rattle.std.specs.Bool.{OnTrue};
ghost use Rattle.nvm_record.specs.PayloadRef.{lent_bytes};
ghost use Rattle.nvm_record.specs.Status.{IsSuccess};
ghost use Rattle.nvm_record.specs.Step.{Operation};
ghost use Rattle.nvm_geometry.specs.Large.{region_of, regions_of};
ghost use Rattle.nvm_geometry.specs.Namespace.{Namespace};
ghost use Rattle.nvm_store.specs.Answer.{IsRoomFor};
ghost use Rattle.nvm_store.specs.Place.{IsCovered};
ghost use Rattle.nvm_store.specs.declared.place.Place.{Place as UnitPlace};
ghost use Rattle.nvm_plan.specs.Fits.{IsWholeBody};
ghost use Rattle.nvm_plan.specs.LentPart.{part_operation_of};
ghost use Rattle.nvm_plan.specs.OnlyPart.{IsOnlyPart, body_lent};
ghost use Rattle.nvm_plan.specs.Reply.{Reply};
ghost use Rattle.nvm_plan.specs.UnitPlace.{IsUnitPlace};
ghost use Rattle.nvm_plan.specs.declared.job.Job.{Job as Asked};
ghost use Rattle.nvm_unit.specs.Ends.{views_of};
ghost use Rattle.nvm_unit.specs.Passes.{IsPassOf, IsProperPass};
ghost use Rattle.nvm_unit.specs.Replies.{Waits};
ghost use Rattle.nvm_unit.specs.declared.views.PassView.{PassView};
ghost use Rattle.nvm_space.specs.AtOnce.{IsAtOnce, IsDoneAtOnce, IsOnlyPartAt};
ghost use Rattle.nvm_space.specs.Inside.Parts.{DoesPartInto, part_done};
ghost use Rattle.nvm_space.specs.Ports.{IsPortOf};
ghost use Rattle.nvm_space.specs.Trace.{DoesPart};
ghost use Rattle.nvm_space.specs.UnderWay.{MayHaveWaited};
ghost use Rattle.nvm_space.specs.Visits.{BecomesAt};

use crate::port::Port;
use crate::replies::reply_of_change;
use crate::space::Space;
use nvm_geometry::laws;
use nvm_plan::laws::{
    answers_of_the_step_are_replies, each_command_has_a_status, outcomes_are_made_part_by_part,
    outcomes_by_plan, parts_of_jobs,
};
use nvm_plan::{BodyFields, LentPart, only_part};
use nvm_record::{BlockSize, PayloadRef, Statuses};
use nvm_store::Look;
use nvm_store::laws::acts_and_looks;
use nvm_unit::laws::waiting_is_no_step;
use nvm_unit::{Gate, Kept, Pass, Unit};
use std::alloc::Global;

impl<K: Kept> Space<K> {
    /// The only part of a job whose data is lent, with its region. It may be `None`; as it is written it is so where a check refuses the job, where its
    /// range lies in several units, for a Dataset Management, and for a Read where the buffer hasn't the length of what it reads. The job's entries have
    /// these fields. The payload is that of its command, or of a pair's second, and `compared` that of a pair's first. It takes no memory.
    #[inline(always)]
    pub fn only_part<'a>(
        &self,
        fields: BodyFields,
        payload: PayloadRef<'a>,
        compared: PayloadRef<'a>,
        buffer: &[u8],
    ) -> Option<(u16, LentPart<'a>)>
        requires { IsWholeBody self.now.namespace.block_size (body_lent fields (lent_bytes payload) (lent_bytes compared)) }
        ensures part { IfSome result (λ only. (job : Asked) → job.body ≡ body_lent fields (lent_bytes payload.entry) (lent_bytes compared.entry)
            → IsOnlyPartAt self.now.namespace job only.0 (part_operation_of only.1)) }
        ensures covered { IfSome result (λ only. (place : UnitPlace) → IsUnitPlace (regions_of self.now.namespace) only.0 place
            → IsCovered place (part_operation_of only.1)) }
        ensures room { IfSome result (λ only. IsRoomFor (part_operation_of only.1) self.now.namespace.block_size buffer.now) }
    {
        laws::regions_have_whole_units();
        laws::each_unit_has_one_place();
        laws::units_number_the_namespace();

        // For the proof alone: how large the namespace can be.
        let _nsze = self.geometry.nsze();
        let part = only_part(&self.geometry, fields, payload, compared)?;
        if !has_room(part, self.geometry.block_size(), buffer) {
            return None;
        }
        Some((self.regions.region_of(part.first()), part))
    }

    /// Does the only part of a job, with which the job is done: it answers what is reported of its commands, and the data of a Read with 0/00 is in
    /// the buffer. Without a Read's 0/00 the buffer is as it was. It is `None` where the region wasn't to be had: then the port may be polled with that
    /// part again. It takes no memory but that of a change, and waits for nothing.
    #[inline(always)]
    pub fn poll_only_part<G: Gate>(
        &self,
        alloc: Global,
        port: &mut Port<K>,
        number: u32,
        region: u16,
        part: LentPart<'_>,
        buffer: &mut [u8],
        gate: &G,
    ) -> Option<Statuses>
        requires of { IsPortOf self.now port.old }
        requires only { (job : Asked) × IsOnlyPartAt self.now.namespace job region (part_operation_of part) }
        requires covered { (place : UnitPlace) → IsUnitPlace (regions_of self.now.namespace) region place → IsCovered place (part_operation_of part) }
        requires room { IsRoomFor (part_operation_of part) self.now.namespace.block_size buffer.old }
        ensures of { IsPortOf self.now port.new }
        ensures number { port.new.number ≡ port.old.number }
        ensures goes { (job : Asked) (start : List PassView) → IsOnlyPartAt self.now.namespace job region (part_operation_of part.entry)
            → MayHaveWaited region start (views_of port.old.passes)
            → IsAtOnce self.now.namespace number job region start (views_of port.new.passes) buffer.old buffer.new result }
    {
        an_only_part_is_the_outcome();
        waiting_is_no_step();
        laws::units_number_the_namespace();
        laws::regions_have_whole_units();

        // For the proof alone: how large the namespace can be.
        let _nsze = self.geometry.nsze();
        let place = usize::from(region);
        let statuses = poll_part_into(
            alloc,
            &self.units[place],
            &mut port.passes[place],
            number,
            part,
            buffer,
            gate,
        )?;

        // For the proof alone: whether that is a success, as the outcome depends on it.
        let _ = statuses.is_success();
        Some(statuses)
    }
}

/// Whether the buffer has as many bytes as the part reads, if it is of a Read.
#[inline(always)]
fn has_room(part: LentPart<'_>, size: BlockSize, buffer: &[u8]) -> bool
    ensures { OnTrue result (IsRoomFor (part_operation_of part.entry) size buffer.now) }
{
    match part {
        LentPart::Look(Look::Read { blocks, .. }) => {
            buffer.len() as u64 == u64::from(blocks) * u64::from(size.bytes())
        }
        _ => true,
    }
}

/// Does the part of a job in a unit, unless the unit is held: then it is `None`. It answers what is reported, with a Read's data in the buffer.
#[inline(always)]
fn poll_part_into<G: Gate, K: Kept>(
    alloc: Global,
    unit: &Unit<K>,
    pass: &mut Pass<K>,
    number: u32,
    part: LentPart<'_>,
    buffer: &mut [u8],
    gate: &G,
) -> Option<Statuses>
    requires of { IsPassOf unit.now pass.old }
    requires covered { IsCovered unit.now.bounds.place (part_operation_of part) }
    requires room { IsRoomFor (part_operation_of part) unit.now.bounds.place.size buffer.old }
    ensures of { IsPassOf unit.now pass.new }
    ensures number { pass.new.view.number ≡ pass.old.view.number }
    ensures proper { IsProperPass pass.new.view }
    ensures does { MatchOption result (Waits pass.old.view pass.new.view × (buffer.new ≡ buffer.old))
        (λ statuses. (place : ℕ) → DoesPartInto number place (part_operation_of part.entry) statuses buffer.old buffer.new pass.old.view pass.new.view) }
{
    acts_and_looks();
    match part {
        LentPart::Act(act) => {
            let changed = unit.poll_change(alloc, pass, number, act, gate)?;
            Some(reply_of_change(act, changed).statuses)
        }
        LentPart::Look(look) => {
            let observed = unit.poll_observe_into(pass, look, buffer, gate)?;
            Some(Statuses::One(observed.status))
        }
    }
}

/// Where the only part of a job was done, what was reported about it is reported about the job.
fn an_only_part_is_the_outcome()
    ensures { (ns : Namespace) (number : ℕ) (job : Asked) (unit : ℕ) (part : Operation) (r : Reply) (ok : Bool) (start now : List PassView) (old : List ℕ)
        → IsOnlyPart ns job unit part → r.part.unit ≡ unit → BecomesAt (region_of ns unit) (DoesPart (part_done number part r)) start now
        → IsTrue ok ↔ IsSuccess r.statuses → IsDoneAtOnce ns number job start now old (unwrap_or r.payload old) r.statuses }
{
    outcomes_by_plan();
    outcomes_are_made_part_by_part();
    each_command_has_a_status();
    answers_of_the_step_are_replies();
    parts_of_jobs();
    laws::parts_keep_their_kind();
}
