//! Jobs of one part, a command by itself or a fused pair that lies in one unit, which are tried as they are submitted. A pair's data comes in two pieces.
ghost use Rattle.std.specs.Prelude.{◌≡◌, ◌⊎◌, ◌++◌, ◌+◌, ◌*◌, ℕ, List, [], IsTrue, IfNone, IfSome, None, false, length};
ghost use Rattle.std.specs.Bool.{OnTrue};
ghost use Rattle.nvm_record.specs.Entry.{data_length};
ghost use Rattle.nvm_record.specs.Op.{carries_ranges};
ghost use Rattle.nvm_store.specs.Answer.{IsRoomFor};
ghost use Rattle.nvm_store.specs.Place.{IsCovered};
ghost use Rattle.nvm_store.specs.declared.place.Place.{Place as UnitPlace};
ghost use Rattle.nvm_plan.specs.Completions.{completions_of};
ghost use Rattle.nvm_plan.specs.Fits.{IsWholeBody};
ghost use Rattle.nvm_plan.specs.LentPart.{part_operation_of};
ghost use Rattle.nvm_plan.specs.OnlyPart.{body_lent};
ghost use Rattle.nvm_plan.specs.Shape.{IsForEach};
ghost use Rattle.nvm_plan.specs.UnitPlace.{IsUnitPlace};
ghost use Rattle.nvm_unit.specs.Ends.{views_of};
ghost use Rattle.nvm_unit.specs.declared.views.PassView.{PassView};
ghost use Rattle.nvm_geometry.specs.Large.{regions_of};
ghost use Rattle.nvm_space.specs.AtOnce.{IsOnlyPartAt};
ghost use Rattle.nvm_space.specs.Ports.{IsPortOf};
ghost use Rattle.nvm_space.specs.UnderWay.{MayHaveWaited};
ghost use Rattle.nvm_c.specs.Asked as spec;
ghost use Rattle.nvm_c.specs.Asked.{IsAsked};
ghost use Rattle.nvm_c.specs.Inside.AtOnce.{IsToldAtOnce};
ghost use Rattle.nvm_c.specs.Engines.{IsSound, namespace_of, space_of};
ghost use Rattle.nvm_c.specs.Submitted.{Submits};
ghost use Rattle.nvm_c.specs.Told.{posted_length};

use crate::asking::{plain_fields, reads, room};
use crate::code::Code;
use crate::engine::{Engine, Pending, told_statuses_fit_their_entries};
use crate::log::draw;
use crate::quiet::Quiet;
use crate::telling::tell;
use crate::waiting::WaitingJob;
use nvm_plan::{BodyFields, Completions, LentPart};
use nvm_record::{BlockSize, Completion, EntryFields, PayloadRef, Status, Statuses};
use nvm_space::{Port, Space};
use nvm_unit::Count;
use std::alloc::Global;

impl Engine {
    /// Submits a command by itself without ranges.
    #[inline(always)]
    pub(crate) fn submit_command(
        &mut self,
        alloc: Global,
        host: u16,
        entry: &[u8],
        data: &mut [u8],
        posted: &mut [u8],
    ) -> Code
        requires sound { IsSound self.old }
        requires idle { self.old.pending ≡ None }
        requires unrecorded { self.old.log ≡ None }
        requires unlisted { (space_of self.old).lists ≡ false }
        requires host { host ≡ self.old.port.number + 1 }
        requires one { length entry.now ≡ 64 }
        requires plain { carries_ranges (spec.op_in entry.now) ≡ false }
        ensures sound { IsSound self.new }
        ensures submits { Submits result self.old self.new entry.now
            (record { bytes = data.old; posted = posted.old }) (record { bytes = data.new; posted = posted.new }) }
    {
        let fields = plain_fields(entry);
        let size = self.space.geometry().block_size();
        if !fits_buffer(&fields, size, data) || posted.len() != 16 {
            return Code::BadLength;
        }
        // A Read's buffer is room, and any other's is data.
        let sent = if reads(fields.op) { 0 } else { data.len() };
        let (payload, room) = data.split_at_mut(sent);
        let body = BodyFields::Single(fields);
        match self.submit_fields(alloc, host, body, &[], payload, room, posted) {
            Some(code) => code,
            None => self.submit_job(alloc, host, entry, data, posted),
        }
    }

    /// Does the job of entries with these fields, where it has one part. It waits where the part's region is held. `None` where the job has several parts:
    /// then nothing was done. `compared` is the data of a pair's Compare, `payload` that of a command by itself, or of a pair's Write, and
    /// `room` is for what a Read reads.
    #[inline(always)]
    pub(crate) fn submit_fields(
        &mut self,
        alloc: Global,
        host: u16,
        fields: BodyFields,
        compared: &[u8],
        payload: &[u8],
        room: &mut [u8],
        posted: &mut [u8],
    ) -> Option<Code>
        requires sound { IsSound self.old }
        requires idle { self.old.pending ≡ None }
        requires unrecorded { self.old.log ≡ None }
        requires unlisted { (space_of self.old).lists ≡ false }
        requires host { host ≡ self.old.port.number + 1 }
        requires apart { (room.old ≡ []) ⊎ (compared.now ++ payload.now ≡ []) }
        requires whole { IsWholeBody (namespace_of self.old).block_size (body_lent fields payload.now compared.now) }
        requires posted { length posted.old ≡ posted_length (body_lent fields payload.now compared.now) }
        ensures sound { IsSound self.new }
        ensures none { IfNone result ((self.new ≡ self.old) × (room.new ≡ room.old) × (posted.new ≡ posted.old)) }
        ensures submits { IfSome result (λ code. (entries : List ℕ)
            → IsAsked (namespace_of self.old).block_size (self.old.port.number + 1) entries ((compared.now ++ payload.now) ++ room.old)
            (record { host = host; body = body_lent fields payload.now compared.now })
            → Submits code self.old self.new entries
            (record { bytes = (compared.now ++ payload.now) ++ room.old; posted = posted.old })
            (record { bytes = (compared.now ++ payload.now) ++ room.new; posted = posted.new })) }
    {
        let space = &*self.space;
        let only = space.only_part(
            fields,
            PayloadRef::of(payload),
            PayloadRef::of(compared),
            room,
        );
        let Some((region, part)) = only else {
            return None;
        };
        if !self.spare.make_room(payload.len(), compared.len()) {
            return Some(Code::NoMemory);
        }
        let Ok(number) = draw(&mut self.number, &mut self.log) else {
            return Some(Code::NoMemory);
        };
        if done_at_once(
            alloc,
            space,
            &mut self.port,
            number,
            host,
            fields,
            region,
            part,
            room,
            posted,
        ) {
            return Some(Code::Done);
        }
        let data = self.spare.keep(alloc, payload, compared);
        self.pending = Some(Pending::Waiting(WaitingJob {
            number,
            host,
            fields,
            data,
        }));
        Some(Code::Pending)
    }
}

/// Does the only part of a job, tells C of it, and says whether it did. It doesn't where the region wasn't to be had.
#[inline(always)]
pub(crate) fn done_at_once(
    alloc: Global,
    space: &Space<Count>,
    port: &mut Port<Count>,
    number: u32,
    host: u16,
    fields: BodyFields,
    region: u16,
    part: LentPart<'_>,
    room: &mut [u8],
    posted: &mut [u8],
) -> bool
    requires of { IsPortOf space.now port.old }
    requires unlisted { space.now.lists ≡ false }
    requires only { (payload compared : List ℕ)
        × IsOnlyPartAt space.now.namespace (record { host = host; body = body_lent fields payload compared }) region (part_operation_of part) }
    requires covered { (place : UnitPlace) → IsUnitPlace (regions_of space.now.namespace) region place → IsCovered place (part_operation_of part) }
    requires room { IsRoomFor (part_operation_of part) space.now.namespace.block_size room.old }
    requires posted { (payload compared : List ℕ) → length posted.old ≡ posted_length (body_lent fields payload compared) }
    ensures of { IsPortOf space.now port.new }
    ensures number { port.new.number ≡ port.old.number }
    ensures goes { (payload compared : List ℕ) (start : List PassView)
        → IsOnlyPartAt space.now.namespace (record { host = host; body = body_lent fields payload compared }) region (part_operation_of part.entry)
        → MayHaveWaited region start (views_of port.old.passes)
        → IsToldAtOnce result space.now number (record { host = host; body = body_lent fields payload compared }) region start
        (views_of port.new.passes) (record { bytes = room.old; posted = posted.old }) (record { bytes = room.new; posted = posted.new }) }
{
    told_statuses_fit_their_entries();
    match space.poll_only_part(alloc, port, number, region, part, room, &Quiet) {
        Some(statuses) => {
            let completions = completions_for(host, fields, statuses);
            tell(&completions, &mut [], posted);
            true
        }
        None => false,
    }
}

/// Whether the buffer is as long as the command calls for: as what a Read reads, or the data of any other.
fn fits_buffer(fields: &EntryFields, size: BlockSize, data: &[u8]) -> bool
    ensures sent { OnTrue result (length (spec.sent_with fields.now.op data.now) ≡ data_length size fields.now.op fields.now.nlb fields.now.nr) }
    ensures read { OnTrue result (IsTrue (spec.reads fields.now.op) → length data.now ≡ (fields.now.nlb + 1) * size) }
{
    if reads(fields.op) {
        data.len() == room(fields.op, fields.nlb, size)
    } else {
        data.len() == fields.op.data_length(fields.nlb, fields.nr, size)
    }
}

/// What is reported about the job of entries with these fields, but for what a Read read.
#[inline(always)]
fn completions_for(host: u16, fields: BodyFields, statuses: Statuses) -> Completions
    requires { (bytes compared : List ℕ) × IsForEach (body_lent fields bytes compared) statuses }
    ensures { (bytes compared : List ℕ) → result ≡ completions_of (record { host = host; body = body_lent fields bytes compared }) statuses None }
{
    match (fields, statuses) {
        (BodyFields::Single(alone), Statuses::One(status)) => {
            Completions::One(completion(host, alone, status))
        }
        (BodyFields::Pair(compare, write), Statuses::Two(first, second)) => Completions::Two(
            completion(host, compare, first),
            completion(host, write, second),
        ),
        _ => unreachable!("each command has a status"),
    }
}

/// What is reported about a command, but for what a Read read.
#[inline(always)]
fn completion(host: u16, fields: EntryFields, status: Status) -> Completion
    ensures { result ≡ record { host = host; cid = fields.cid; status = status; payload = None } }
{
    Completion {
        host,
        cid: fields.cid,
        status,
        payload: None,
    }
}
