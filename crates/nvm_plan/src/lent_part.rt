ghost use Rattle.std.specs.Prelude.{ℕ, ◌≡◌, ◌+◌, ◌-◌, ◌*◌, ◌<◌, ◌≤◌, length, IfSome, IsSome, IsTrue, MatchOption, None, Some, false};
ghost use Rattle.nvm_record.specs.Entry.{IsWhole};
ghost use Rattle.nvm_record.specs.Op.{carries_ranges};
ghost use Rattle.nvm_record.specs.PayloadRef.{lent_bytes};
ghost use Rattle.nvm_record.specs.Step.{Operation};
ghost use Rattle.nvm_record.specs.declared.op.Op.TheVariants.{Compare, Write};
ghost use Rattle.nvm_geometry.specs.Boundaries.{unit_number};
ghost use Rattle.nvm_geometry.specs.Namespace.{Namespace};
ghost use Rattle.nvm_geometry.specs.Parts.{data_part, part_in, piece_in};
ghost use Rattle.nvm_store.specs.declared.place.Place.{Place as UnitPlace};
ghost use Rattle.nvm_store.specs.Place.{IsCovered};
ghost use Rattle.nvm_plan.specs.UnitPlace.{IsUnitPlace};
ghost use Rattle.nvm_plan.specs.Fits.{FitsNamespace};
ghost use Rattle.nvm_plan.specs.JobPart as spec;
ghost use Rattle.nvm_plan.specs.LentPart.{part_operation_of};
ghost use Rattle.nvm_plan.specs.Operation.{single_operation, fused_operation};
ghost use Rattle.nvm_plan.specs.Profile.{is_in_profile};

use crate::checks::plan;
use crate::decision::Plan;
use crate::job::{Body, Job};
use crate::laws::{parts_of_jobs, ready_jobs};
use crate::reach::deallocated;
use crate::reached::has_part;
use nvm_geometry::{Geometry, LargeGeometry, laws};
use nvm_record::{BlockSize, Command, Op, PayloadRef};
use nvm_store::{ActRef, Look};

/// A job's part in one unit, with its data lent by the job's commands.
#[derive(Clone, Copy, Debug)]
pub enum LentPart<'a> {
    /// A Write, a Write Zeroes, a Write Uncorrectable, a Deallocate or a fused pair. A Deallocate's ranges are all
    /// that its command has: they are cut where the act is done.
    Act(ActRef<'a>),
    /// A Read, or a Compare by itself.
    Look(Look<'a>),
}

impl LentPart<'_> {
    /// The first LBA of its range.
    #[inline(always)]
    pub fn first(&self) -> u64
        ensures { result ≡ (part_operation_of self.now).first }
    {
        match self {
            LentPart::Act(act) => match act {
                ActRef::Write { first, .. }
                | ActRef::Zeroes { first, .. }
                | ActRef::Uncorrectable { first, .. }
                | ActRef::Pair { first, .. }
                | ActRef::Deallocate { first, .. } => *first,
            },
            LentPart::Look(look) => match look {
                Look::Read { first, .. } | Look::Compare { first, .. } => *first,
            },
        }
    }
}

/// A job's part in a unit: what is done there, on exactly those of its blocks that lie in the unit and with exactly
/// their data. It is `None` where a check refuses the job, where none of its blocks lies in the unit, and where
/// no unit has that number. It takes no memory and a constant number of steps, and for a Dataset Management a walk
/// over its ranges.
pub fn job_part_in<'a>(geometry: &Geometry, job: &'a Job, unit: u16) -> Option<LentPart<'a>>
    requires { FitsNamespace geometry.now job.now }
    ensures part { MatchOption result (spec.job_part_in geometry.now job.now unit ≡ None)
        (λ part. spec.job_part_in geometry.now job.now unit ≡ Some (part_operation_of part)) }

    // The part lies in the unit's place, has a block, and has exactly its data.
    ensures covered { IfSome result (λ part. (place : UnitPlace) → IsUnitPlace geometry.now unit place
        → IsCovered place (part_operation_of part)) }
{
    parts_of_jobs();
    match plan(geometry, job) {
        Plan::Refused(_) => None,
        Plan::Ready => {
            if !has_part(geometry, job, unit) {
                return None;
            }
            Some(job_part_there(geometry, job, unit))
        }
    }
}

/// What [`job_part_in`] gives in a unit in which the job is known to have a part. It makes no plan, takes no memory, and a
/// constant number of steps whatever the job is.
#[inline(always)]
pub fn job_part_there<'a>(geometry: &Geometry, job: &'a Job, unit: u16) -> LentPart<'a>
    requires fits { FitsNamespace geometry.now job.now }
    requires there { IsSome (spec.job_part_in geometry.now job.now unit) }
    ensures part { spec.job_part_in geometry.now job.now unit ≡ Some (part_operation_of result) }
    ensures covered { (place : UnitPlace) → IsUnitPlace geometry.now unit place
        → IsCovered place (part_operation_of result) }
{
    laws::units_met_are_those_reached();
    parts_of_jobs();
    let (first, _) = geometry.unit_range(unit);
    part_at(&geometry.large(), job, first)
}

/// What [`job_part_there`] gives, on a namespace of any size, in the unit in which this LBA lies.
#[inline(always)]
pub fn part_at<'a>(geometry: &LargeGeometry, job: &'a Job, lba: u64) -> LentPart<'a>
    requires fits { FitsNamespace geometry.now job.now }
    requires known { lba < geometry.now.nsze }
    requires there { IsSome (spec.job_part_in geometry.now job.now (unit_number geometry.now lba)) }
    ensures part { spec.job_part_in geometry.now job.now (unit_number geometry.now lba) ≡ Some (part_operation_of result) }
    ensures covered { (place : UnitPlace) → IsUnitPlace geometry.now (unit_number geometry.now lba) place
        → IsCovered place (part_operation_of result) }
{
    laws::units_met_are_those_reached();
    laws::whole_ranges_are_reached();
    laws::each_unit_has_one_place();
    ready_jobs();
    parts_of_jobs();
    let size = geometry.block_size();
    match &job.body {
        Body::Single(command) => {
            if let Op::Dataset { deallocate } = command.op {
                let (first, blocks) = geometry.unit_range(lba);
                return LentPart::Act(ActRef::Deallocate {
                    first,
                    blocks,
                    ranges: deallocated(command, deallocate),
                });
            }
            match geometry.piece_at(lba, command.slba, u32::from(command.nlb) + 1) {
                Some((first, blocks)) => single_part(size, command, first, blocks),
                None => unreachable!("the job has a part in this unit"),
            }
        }
        Body::Pair(compare, write) => {
            match geometry.piece_at(lba, compare.slba, u32::from(compare.nlb) + 1) {
                Some((first, blocks)) => pair_part(size, compare, write, first, blocks),
                None => unreachable!("the job has a part in this unit"),
            }
        }
    }
}

/// The part of a command by itself, at a piece of its range.
fn single_part<'a>(size: BlockSize, command: &'a Command, first: u64, blocks: u32) -> LentPart<'a>
    requires profile { IsTrue (is_in_profile command.now.op) }
    requires on_range { carries_ranges command.now.op ≡ false }
    requires whole { IsWhole size command.now }
    requires low { command.now.slba ≤ first }
    requires high { first + blocks ≤ command.now.slba + (command.now.nlb + 1) }
    ensures { (ns : Namespace) (unit : ℕ) (op : Operation) → ns.block_size ≡ size
        → first ≡ (piece_in ns command.now.slba (command.now.nlb + 1) unit).first
        → blocks ≡ (piece_in ns command.now.slba (command.now.nlb + 1) unit).blocks
        → single_operation ns command.now.op command.now ≡ Some op → part_operation_of result ≡ part_in ns op unit }
{
    match command.op {
        Op::Write => LentPart::Act(ActRef::Write {
            first,
            blocks,
            payload: piece_data(command, first, blocks, size),
        }),
        Op::Read => LentPart::Look(Look::Read { first, blocks }),
        Op::WriteUncorrectable => LentPart::Act(ActRef::Uncorrectable { first, blocks }),
        Op::Compare => LentPart::Look(Look::Compare {
            first,
            blocks,
            payload: piece_data(command, first, blocks, size).as_slice(),
        }),
        Op::WriteZeroes => LentPart::Act(ActRef::Zeroes { first, blocks }),
        Op::Dataset { .. } | Op::Other(_) => unreachable!("it is of the profile, and on a range"),
    }
}

/// The part of a fused pair, at a piece of the range of its commands.
fn pair_part<'a>(
    size: BlockSize,
    compare: &'a Command,
    write: &'a Command,
    first: u64,
    blocks: u32,
) -> LentPart<'a>
    requires slba { write.now.slba ≡ compare.now.slba }
    requires nlb { write.now.nlb ≡ compare.now.nlb }
    requires compared { IsWhole size compare.now }
    requires written { IsWhole size write.now }
    requires compare { compare.now.op ≡ Compare }
    requires write { write.now.op ≡ Write }
    requires low { compare.now.slba ≤ first }
    requires high { first + blocks ≤ compare.now.slba + (compare.now.nlb + 1) }
    ensures { (ns : Namespace) (unit : ℕ) (op : Operation) → ns.block_size ≡ size
        → first ≡ (piece_in ns compare.now.slba (compare.now.nlb + 1) unit).first
        → blocks ≡ (piece_in ns compare.now.slba (compare.now.nlb + 1) unit).blocks
        → fused_operation compare.now.op write.now.op compare.now write.now ≡ Some op
        → part_operation_of result ≡ part_in ns op unit }
{
    LentPart::Act(ActRef::Pair {
        first,
        blocks,
        compare: piece_data(compare, first, blocks, size),
        write: piece_data(write, first, blocks, size),
    })
}

/// The data of a command that belongs to a piece of its range.
fn piece_data(command: &Command, first: u64, blocks: u32, size: BlockSize) -> PayloadRef<'_>
    requires payload { length command.now.payload ≡ (command.now.nlb + 1) * size }
    requires low { command.now.slba ≤ first }
    requires high { first + blocks ≤ command.now.slba + (command.now.nlb + 1) }
    ensures { lent_bytes result ≡ data_part size (first - command.now.slba) blocks command.now.payload }
{
    let size = size.bytes() as usize;
    let skipped = (first - command.slba) as usize;
    let _length = command.payload.len();
    command
        .payload
        .lend_part(skipped * size, (skipped + blocks as usize) * size)
}
