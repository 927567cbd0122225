//! A job that waits for the unit of its only part, and its data.
ghost use Rattle.std.specs.Prelude.{◌≡◌, ◌<◌, ◌≤◌, List, None, length};
ghost use Rattle.std.specs.Bool.{OnTrue};
ghost use Rattle.nvm_plan.specs.Fits.{FitsNamespace};
ghost use Rattle.nvm_unit.specs.declared.views.PassView.{PassView};
ghost use Rattle.nvm_space.specs.Ports.{IsPortOf};
ghost use Rattle.nvm_c.specs.Asked.{room_of};
ghost use Rattle.nvm_c.specs.Engines.{IsSound, namespace_of, seen_by, space_of};
ghost use Rattle.nvm_c.specs.Logs.{HasRoomIn, kept_by};
ghost use Rattle.nvm_c.specs.Pending.{HasBegun, waiting_job};
ghost use Rattle.nvm_c.specs.Submitted.{Progresses};
ghost use Rattle.nvm_c.specs.Told.{posted_length};
ghost use Rattle.nvm_c.specs.declared.engine.Pending.TheVariants.{Waiting};

use crate::asking::room;
use crate::at_once::done_at_once;
use crate::code::Code;
use crate::engine::{Engine, Pending};
use nvm_plan::BodyFields;
use nvm_record::{BlockSize, PayloadRef};
use std::alloc::Global;
use std::mem::replace;

/// The data of a job: that of its command, or of a pair's second, and that of a pair's first.
#[derive(Drop)]
pub struct JobData {
    pub(crate) payload: Vec<u8>,
    pub(crate) compared: Vec<u8>,
}

/// A job that has one part, which isn't done, since its unit wasn't to be had.
#[derive(Drop)]
pub struct WaitingJob {
    pub(crate) number: u32,
    pub(crate) host: u16,
    pub(crate) fields: BodyFields,
    pub(crate) data: JobData,
}

impl JobData {
    /// No data. It takes no memory.
    pub(crate) fn new(alloc: Global) -> JobData {
        JobData {
            payload: Vec::new(alloc),
            compared: Vec::new(alloc),
        }
    }

    /// Makes room for data of these lengths, and says whether there was memory for that.
    #[inline(always)]
    pub(crate) fn make_room(&mut self, payload: usize, compared: usize) -> bool
        ensures payload { OnTrue result (payload ≤ length self.new.payload.items) }
        ensures compared { OnTrue result (compared ≤ length self.new.compared.items) }
    {
        make_room(&mut self.payload, payload) && make_room(&mut self.compared, compared)
    }

    /// This data, for which room was made, in the memory that was made. It takes none.
    pub(crate) fn keep(&mut self, alloc: Global, payload: &[u8], compared: &[u8]) -> JobData
        requires payload { length payload.now ≤ length self.old.payload.items }
        requires compared { length compared.now ≤ length self.old.compared.items }
        ensures payload { result.payload.items ≡ payload.now }
        ensures compared { result.compared.items ≡ compared.now }
    {
        let mut kept = replace(self, JobData::new(alloc));
        kept.payload.truncate(payload.len());
        kept.payload.copy_from_slice(payload);
        kept.compared.truncate(compared.len());
        kept.compared.copy_from_slice(compared);
        kept
    }
}

/// Makes the memory at least this long, and says whether there was some for that.
#[inline(always)]
fn make_room(spare: &mut Vec<u8>, len: usize) -> bool
    ensures { OnTrue result (len ≤ length spare.new.items) }
{
    if spare.len() >= len {
        return true;
    }
    spare.resize(len, 0).is_ok()
}

impl WaitingJob {
    /// How many bytes its completion entries are.
    pub(crate) fn entries_length(&self) -> usize
        ensures { result ≡ posted_length (waiting_job self.now).body }
    {
        match self.fields {
            BodyFields::Single(_) => 16,
            BodyFields::Pair(_, _) => 32,
        }
    }

    /// How many bytes it reads, if it succeeds.
    pub(crate) fn room(&self, size: BlockSize) -> usize
        ensures { result ≡ room_of size (waiting_job self.now).body }
    {
        match self.fields {
            BodyFields::Single(alone) => room(alone.op, alone.nlb, size),
            BodyFields::Pair(_, _) => 0,
        }
    }
}

impl Engine {
    /// Tries the only part of a job again, which isn't in `pending`. It reads into the front of the data, as many bytes as `len`.
    pub(crate) fn try_again(
        &mut self,
        alloc: Global,
        waiting: WaitingJob,
        len: usize,
        data: &mut [u8],
        posted: &mut [u8],
    ) -> Code
        requires of { IsPortOf (space_of self.old) self.old.port }
        requires few { self.old.port.number < 64 }
        requires idle { self.old.pending ≡ None }
        requires fits { FitsNamespace (namespace_of self.old) (waiting_job waiting) }
        requires log { HasRoomIn self.old.log }
        requires unrecorded { kept_by self.old.log ≡ None }
        requires begun { (start : List PassView) × HasBegun (space_of self.old) (Waiting waiting) start (seen_by self.old) }
        requires len { len ≤ length data.old }
        requires posted { length posted.old ≡ posted_length (waiting_job waiting).body }
        ensures sound { IsSound self.new }
        ensures space { space_of self.new ≡ space_of self.old }
        ensures number { self.new.number ≡ self.old.number }
        ensures progress { (start : List PassView) → HasBegun (space_of self.old) (Waiting waiting) start (seen_by self.old)
            → Progresses result (space_of self.old) waiting.number (waiting_job waiting) start (seen_by self.new) self.new.pending
            (kept_by self.old.log) (kept_by self.new.log)
            (record { bytes = data.old; posted = posted.old }) (record { bytes = data.new; posted = posted.new }) }
    {
        let space = &*self.space;
        let (room, _) = data.split_at_mut(len);
        let only = space.only_part(
            waiting.fields,
            PayloadRef::of(&waiting.data.payload),
            PayloadRef::of(&waiting.data.compared),
            room,
        );
        let Some((region, part)) = only else {
            self.pending = Some(Pending::Waiting(waiting));
            return Code::Pending;
        };
        if done_at_once(
            alloc,
            space,
            &mut self.port,
            waiting.number,
            waiting.host,
            waiting.fields,
            region,
            part,
            room,
            posted,
        ) {
            self.spare = waiting.data;
            return Code::Done;
        }
        self.pending = Some(Pending::Waiting(waiting));
        Code::Pending
    }
}
