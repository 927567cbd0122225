//! The part of a command, or of a pair, that lies in one unit, without a job that holds it.
ghost use Rattle.std.specs.Prelude.{◌≡◌, ◌+◌, ◌<◌, ◌≤◌, ℕ, List, IfSome, IsTrue, Some, false};
ghost use Rattle.std.specs.Bool.{OnTrue};
ghost use Rattle.nvm_record.specs.Deeds.{IsOnRange};
ghost use Rattle.nvm_record.specs.Op.{carries_ranges};
ghost use Rattle.nvm_record.specs.PayloadRef.{lent_bytes};
ghost use Rattle.nvm_record.specs.declared.op.Fuse.TheVariants.{Normal};
ghost use Rattle.nvm_geometry.specs.Boundaries.{unit_number};
ghost use Rattle.nvm_geometry.specs.Limits.{LiesInUnit};
ghost use Rattle.nvm_geometry.specs.Namespace.{Namespace};
ghost use Rattle.nvm_store.specs.Place.{IsCovered};
ghost use Rattle.nvm_store.specs.declared.place.Place.{Place as UnitPlace};
ghost use Rattle.nvm_plan.specs.Checks.{namespace_identifier};
ghost use Rattle.nvm_plan.specs.Fits.{IsWholeBody};
ghost use Rattle.nvm_plan.specs.LentPart.{part_operation_of};
ghost use Rattle.nvm_plan.specs.OnlyPart.{IsOnlyPart, body_lent, command_lent};
ghost use Rattle.nvm_plan.specs.Operation.{operation_of_body, single_operation};
ghost use Rattle.nvm_plan.specs.Profile.{is_in_profile};
ghost use Rattle.nvm_plan.specs.Ready.{IsReadyBody, IsReadyPair};
ghost use Rattle.nvm_plan.specs.UnitPlace.{IsUnitPlace};
ghost use Rattle.nvm_plan.specs.declared.job.Job.{Job};

use crate::checks::NAMESPACE_IDENTIFIER;
use crate::laws::{jobs_that_fit_have_their_data, parts_of_jobs, ready_jobs};
use crate::lent_part::LentPart;
use nvm_geometry::{LargeGeometry, laws};
use nvm_record::{EntryFields, Fuse, Op, PayloadRef};
use nvm_store::{ActRef, Look};

/// What a job's entries say of its commands, which is all but their data.
#[derive(Clone, Copy, Debug)]
pub enum BodyFields {
    /// The entry of a command by itself.
    Single(EntryFields),
    /// The entries of a fused pair: of its first command, then of its second.
    Pair(EntryFields, EntryFields),
}

/// The only part of a job. It may be `None`; as it is written it is so where a check refuses the job, where its range lies in several
/// units, and for a Dataset Management. The job's entries have these fields. The payload is that of its command, or of a pair's second, and
/// `compared` that of a pair's first. It takes no memory and a constant number of steps.
#[inline(always)]
pub fn only_part<'a>(
    geometry: &LargeGeometry,
    fields: BodyFields,
    payload: PayloadRef<'a>,
    compared: PayloadRef<'a>,
) -> Option<LentPart<'a>>
    requires { IsWholeBody geometry.now.block_size (body_lent fields (lent_bytes payload) (lent_bytes compared)) }
    ensures part { IfSome result (λ part. (job : Job) → job.body ≡ body_lent fields (lent_bytes payload.entry) (lent_bytes compared.entry)
        → IsOnlyPart geometry.now job (unit_number geometry.now (part_operation_of part).first) (part_operation_of part)) }
    ensures known { IfSome result (λ part. (part_operation_of part).first < geometry.now.nsze) }
    ensures covered { IfSome result (λ part. (place : UnitPlace) → IsUnitPlace geometry.now (unit_number geometry.now (part_operation_of part).first) place
        → IsCovered place (part_operation_of part)) }
{
    laws::one_unit_is_one_part();
    laws::whole_ranges_are_reached();
    ready_jobs();
    parts_of_jobs();
    jobs_that_fit_have_their_data();
    ready_part(geometry, fields, payload, compared)
}

/// All that a job asks for, where no check refuses it and its range lies in one unit. It may be `None` all the same; as it is written it is so for a
/// Dataset Management.
#[inline(always)]
fn ready_part<'a>(
    geometry: &LargeGeometry,
    fields: BodyFields,
    payload: PayloadRef<'a>,
    compared: PayloadRef<'a>,
) -> Option<LentPart<'a>>
    ensures ready { IfSome result (λ all. IsReadyBody geometry.now (body_lent fields (lent_bytes payload.entry) (lent_bytes compared.entry))) }
    ensures some { IfSome result (λ all. 0 < (part_operation_of all).blocks) }
    ensures part { IfSome result (λ all. operation_of_body geometry.now (body_lent fields (lent_bytes payload.entry) (lent_bytes compared.entry))
        ≡ Some (part_operation_of all)) }
    ensures deed { IfSome result (λ all. IsOnRange (part_operation_of all).deed) }
    ensures inside { IfSome result (λ all. LiesInUnit geometry.now (part_operation_of all).first (part_operation_of all).blocks) }
{
    match fields {
        BodyFields::Single(alone) => {
            if !passes_checks(geometry, &alone)
                || !geometry.lies_in_unit(alone.slba, u32::from(alone.nlb) + 1)
            {
                return None;
            }
            whole_part(&alone, payload)
        }
        BodyFields::Pair(compare, write) => {
            if !is_ready_pair(geometry, &compare, &write) {
                return None;
            }
            let act = ActRef::Pair {
                first: compare.slba,
                blocks: u32::from(compare.nlb) + 1,
                compare: compared,
                write: payload,
            };
            Some(LentPart::Act(act))
        }
    }
}

/// Whether no check refuses a pair of these fields.
#[inline(always)]
fn is_ready_pair(geometry: &LargeGeometry, compare: &EntryFields, write: &EntryFields) -> bool
    ensures ready { OnTrue result ((compared written : List ℕ)
        → IsReadyPair geometry.now (command_lent compare.now compared) (command_lent write.now written)) }
{
    let blocks = u32::from(compare.nlb) + 1;
    compare.op == Op::Compare
        && write.op == Op::Write
        && compare.nsid == NAMESPACE_IDENTIFIER
        && write.nsid == NAMESPACE_IDENTIFIER
        && write.slba == compare.slba
        && write.nlb == compare.nlb
        && geometry.in_range(compare.slba, blocks)
        && geometry.within_pair_limit(compare.slba, blocks)
}

/// Whether a command by itself on a range passes all checks but that of its opcode.
#[inline(always)]
fn passes_checks(geometry: &LargeGeometry, fields: &EntryFields) -> bool
    ensures fuse { OnTrue result (fields.now.fuse ≡ Normal) }
    ensures nsid { OnTrue result (fields.now.nsid ≡ namespace_identifier) }
    ensures range { OnTrue result (fields.now.slba + (fields.now.nlb + 1) ≤ geometry.now.nsze) }
{
    fields.fuse == Fuse::Normal
        && fields.nsid == NAMESPACE_IDENTIFIER
        && geometry.in_range(fields.slba, u32::from(fields.nlb) + 1)
}

/// What a command on a range asks for, of all its blocks: `None` where its opcode isn't of the profile, or it is a Dataset Management.
#[inline(always)]
fn whole_part<'a>(fields: &EntryFields, payload: PayloadRef<'a>) -> Option<LentPart<'a>>
    ensures profile { IfSome result (λ part. IsTrue (is_in_profile fields.now.op)) }
    ensures on_range { IfSome result (λ part. carries_ranges fields.now.op ≡ false) }
    ensures deed { IfSome result (λ part. IsOnRange (part_operation_of part).deed) }
    ensures first { IfSome result (λ part. (part_operation_of part).first ≡ fields.now.slba) }
    ensures blocks { IfSome result (λ part. (part_operation_of part).blocks ≡ fields.now.nlb + 1) }
    ensures part { IfSome result (λ part. (ns : Namespace)
        → single_operation ns fields.now.op (command_lent fields.now (lent_bytes payload.entry)) ≡ Some (part_operation_of part)) }
{
    let first = fields.slba;
    let blocks = u32::from(fields.nlb) + 1;
    match fields.op {
        Op::Write => Some(LentPart::Act(ActRef::Write {
            first,
            blocks,
            payload,
        })),
        Op::Read => Some(LentPart::Look(Look::Read { first, blocks })),
        Op::WriteUncorrectable => Some(LentPart::Act(ActRef::Uncorrectable { first, blocks })),
        Op::Compare => Some(LentPart::Look(Look::Compare {
            first,
            blocks,
            payload: payload.as_slice(),
        })),
        Op::WriteZeroes => Some(LentPart::Act(ActRef::Zeroes { first, blocks })),
        Op::Dataset { .. } | Op::Other(_) => None,
    }
}
