//! Two entries, whose data comes in one buffer or in two pieces.
ghost use Rattle.std.specs.Prelude.{◌≡◌, ◌++◌, ◌+◌, List, ℕ, None, false, length};
ghost use Rattle.std.specs.Bool.{OnTrue};
ghost use Rattle.nvm_record.specs.Op.{carries_ranges};
ghost use Rattle.nvm_plan.specs.OnlyPart.{command_lent};
ghost use Rattle.nvm_plan.specs.Profile.{IsFusedPair};
ghost use Rattle.nvm_c.specs.Engines.{IsSound};
ghost use Rattle.nvm_c.specs.Submitted.{Submits};

use crate::asking::{asked_pair, called, plain_fields};
use crate::code::Code;
use crate::engine::Engine;
use nvm_plan::BodyFields;
use nvm_record::{EntryFields, Fuse, Op};
use std::alloc::Global;

impl Engine {
    /// As `submit`, with two entries whose data comes in two pieces.
    pub(crate) fn submit_pieces(
        &mut self,
        alloc: Global,
        entries: &[u8],
        compared: &[u8],
        written: &[u8],
        posted: &mut [u8],
    ) -> Code
        requires { IsSound self.old }
        ensures sound { IsSound self.new }
        ensures submits { Submits result self.old self.new entries.now
            (record { bytes = compared.now ++ written.now; posted = posted.old }) (record { bytes = compared.now ++ written.now; posted = posted.new }) }
    {
        match &self.pending {
            Some(_) => return Code::Busy,
            None => {}
        }
        if entries.len() != 128 {
            return Code::BadLength;
        }
        self.submit_pair(alloc, entries, compared, written, posted)
    }

    /// Submits two entries whose data stands in one buffer, that of the first before that of the second.
    #[inline(never)]
    pub(crate) fn submit_buffer(
        &mut self,
        alloc: Global,
        entries: &[u8],
        data: &[u8],
        posted: &mut [u8],
    ) -> Code
        requires sound { IsSound self.old }
        requires idle { self.old.pending ≡ None }
        requires two { length entries.now ≡ 128 }
        ensures sound { IsSound self.new }
        ensures submits { Submits result self.old self.new entries.now
            (record { bytes = data.now; posted = posted.old }) (record { bytes = data.now; posted = posted.new }) }
    {
        let (first, _) = entries.split_at(64);
        let called = called(self.space.geometry().block_size(), first);
        if data.len() < called {
            return Code::BadLength;
        }
        let (compared, written) = data.split_at(called);
        self.submit_pair(alloc, entries, compared, written, posted)
    }

    /// Submits two entries, with the data of the first and that of the second.
    #[inline(always)]
    fn submit_pair(
        &mut self,
        alloc: Global,
        entries: &[u8],
        compared: &[u8],
        written: &[u8],
        posted: &mut [u8],
    ) -> Code
        requires sound { IsSound self.old }
        requires idle { self.old.pending ≡ None }
        requires two { length entries.now ≡ 128 }
        ensures sound { IsSound self.new }
        ensures submits { Submits result self.old self.new entries.now
            (record { bytes = compared.now ++ written.now; posted = posted.old }) (record { bytes = compared.now ++ written.now; posted = posted.new }) }
    {
        let host = self.port.number() + 1;
        let (first, second) = entries.split_at(64);
        let compare = plain_fields(first);
        let write = plain_fields(second);
        if self.log.is_some() || self.space.recorded().is_some() || !are_fused(&compare, &write) {
            return self.submit_two(alloc, host, entries, compared, written, posted);
        }
        let size = self.space.geometry().block_size();
        if compared.len() != compare.op.data_length(compare.nlb, compare.nr, size)
            || written.len() != write.op.data_length(write.nlb, write.nr, size)
            || posted.len() != 32
        {
            return Code::BadLength;
        }
        let body = BodyFields::Pair(compare, write);
        match self.submit_fields(alloc, host, body, compared, written, &mut [], posted) {
            Some(code) => code,
            None => self.submit_two(alloc, host, entries, compared, written, posted),
        }
    }

    /// Makes the job that two entries ask for, and begins it.
    #[inline(never)]
    fn submit_two(
        &mut self,
        alloc: Global,
        host: u16,
        entries: &[u8],
        compared: &[u8],
        written: &[u8],
        posted: &mut [u8],
    ) -> Code
        requires sound { IsSound self.old }
        requires idle { self.old.pending ≡ None }
        requires host { host ≡ self.old.port.number + 1 }
        requires two { length entries.now ≡ 128 }
        ensures sound { IsSound self.new }
        ensures submits { Submits result self.old self.new entries.now
            (record { bytes = compared.now ++ written.now; posted = posted.old }) (record { bytes = compared.now ++ written.now; posted = posted.new }) }
    {
        match asked_pair(
            alloc,
            &self.space.geometry(),
            host,
            entries,
            compared,
            written,
        ) {
            Ok(job) => {
                let mut held = Some(job);
                self.begin(alloc, &mut held, &mut [], posted)
            }
            Err(code) => code,
        }
    }
}

/// Whether they are a Compare and a Write that are the first and the second of a fused pair.
fn are_fused(compare: &EntryFields, write: &EntryFields) -> bool
    ensures plain { OnTrue result ((carries_ranges compare.now.op ≡ false) × (carries_ranges write.now.op ≡ false)) }
    ensures fused { OnTrue result ((compared written : List ℕ) → IsFusedPair (command_lent compare.now compared) (command_lent write.now written)) }
{
    compare.op == Op::Compare
        && write.op == Op::Write
        && compare.fuse == Fuse::First
        && write.fuse == Fuse::Second
}
