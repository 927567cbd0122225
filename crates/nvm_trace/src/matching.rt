ghost use Rattle.std.specs.Prelude.{◌≡◌, ◌↔◌, ℕ, ◌+◌, ◌<◌, ◌≤◌, List, [], ◌∷◌, ◌++◌, length, map, IsTrue, None, IfOk, OnOk, MatchOption, MatchResult};
ghost use Rattle.std.specs.List.{range_with_len};
ghost use Rattle.nvm_record.specs.Lists.{IsAt};
ghost use Rattle.nvm_audit.specs.Recordable.{most_jobs};
ghost use Rattle.nvm_trace.specs.declared.start.Start.TheVariants.{Unknown};
ghost use Rattle.nvm_trace.specs.ExplainedBy.{IsOneBlockWrite};
ghost use Rattle.nvm_trace.specs.FirstFault.{IsFirstWithout};
ghost use Rattle.nvm_plan.specs.Checks.{refusal_of};
ghost use Rattle.nvm_plan.specs.JobPart.{job_units as units_of_job};
ghost use Rattle.nvm_trace.specs.Inside.Cutting.{HasBodyIn, HasPart};
ghost use Rattle.nvm_trace.specs.Inside.Matching.{AreMatched, IsOtherFault, IsPreparedAt};
ghost use Rattle.nvm_trace.specs.declared.cut.Cut.TheVariants.{Block, InUnit};
ghost use Rattle.nvm_trace.specs.Pieces.{Piece, piece, pieces_of, pieces_in, block_of_body, part_of_body, job_at};

use crate::cut::Cut;
use crate::cuts::Cuts;
use crate::judging::Judging;
use crate::owner::Owner;
use crate::pieces::{cuts_of, is_block, is_part};
use crate::reads::Reads;
use crate::start::Start;
use crate::traced_job::TracedJob;
use crate::witness_fault::WitnessFault;
use nvm_geometry::Geometry;
use nvm_geometry::laws::{each_unit_has_one_place, whole_ranges_are_reached};
use nvm_plan::laws::{parts_of_jobs, ready_jobs};
use nvm_plan::{Body, Job, job_units};
use nvm_record::{BlockSize, Command, Op};
use std::alloc::Global;

fn same_command(command: &Command, other: &Command) -> bool
    ensures { IsTrue result ↔ (command.now ≡ other.now) }
{
    command == other
}

fn same_body(body: &Body, other: &Body) -> bool
    ensures { IsTrue result ↔ (body.now ≡ other.now) }
{
    match (body, other) {
        (Body::Single(command), Body::Single(against)) => same_command(command, against),
        (Body::Pair(first, second), Body::Pair(against, after)) => {
            same_command(first, against) && same_command(second, after)
        }
        _ => false,
    }
}

/// Whether it is the same job.
fn same_job(job: &Job, other: &Job) -> bool
    ensures { IsTrue result ↔ (job.now ≡ other.now) }
{
    job.host == other.host && same_body(&job.body, &other.body)
}

/// Whether it is exactly this block of the body's command.
fn is_block_of(body: &Body, size: BlockSize, whole: &Body, k: u32) -> bool
    ensures { IsTrue result ↔ (body.now ≡ block_of_body size whole.now k) }
{
    match (body, whole) {
        (Body::Single(block), Body::Single(command)) => is_block(block, size, command, k),
        (Body::Pair(first, second), Body::Pair(against, after)) => {
            same_command(first, against) && same_command(second, after)
        }
        _ => false,
    }
}

/// Whether it is exactly the part in this unit of the body's command.
fn is_part_of(body: &Body, geometry: &Geometry, whole: &Body, unit: u16) -> bool
    requires { HasBodyIn geometry.now whole.now unit }
    ensures { IsTrue result ↔ (body.now ≡ part_of_body geometry.now whole.now unit) }
{
    match (body, whole) {
        (Body::Single(part), Body::Single(command)) => is_part(part, geometry, command, unit),
        (Body::Pair(first, second), Body::Pair(against, after)) => {
            same_command(first, against) && same_command(second, after)
        }
        _ => false,
    }
}

/// Whether the job is this of the whole one.
fn is_piece(job: &Job, geometry: &Geometry, whole: &Job, cut: Cut) -> bool
    requires { HasPart geometry.now whole.now cut }
    ensures { IsTrue result ↔ (job.now ≡ job_at geometry.now whole.now cut) }
{
    match cut {
        Cut::Whole => same_job(job, whole),
        Cut::Block(k) => {
            job.host == whole.host && is_block_of(&job.body, geometry.block_size(), &whole.body, k)
        }
        Cut::InUnit(unit) => {
            job.host == whole.host && is_part_of(&job.body, geometry, &whole.body, unit)
        }
    }
}

/// Whether this of the whole job is at this place.
fn has_piece(jobs: &Vec<Job>, place: usize, geometry: &Geometry, whole: &Job, cut: Cut) -> bool
    requires { HasPart geometry.now whole.now cut }
    ensures { IsTrue result ↔ IsAt jobs.now.items place (job_at geometry.now whole.now cut) }
{
    place < jobs.len() && is_piece(&jobs[place], geometry, whole, cut)
}

/// Notes the owner of the next of the record's jobs, if that is the right one.
fn put_owner<'a>(
    geometry: &Geometry,
    jobs: &Vec<Job>,
    owner: Owner<'a>,
    owners: &mut Vec<Owner<'a>>,
) -> Result<(), WitnessFault>
    requires few { length owners.old.items ≤ most_jobs }
    requires part { HasPart geometry.now owner.whole.now.job owner.cut }
    ensures next { OnOk result ((length owners.old.items < length jobs.now.items) × (length owners.new.items ≡ length owners.old.items + 1)) }
    ensures matched { (ps : List Piece) → AreMatched geometry.now ps jobs.now.items (map (λ o. piece o.whole.now o.cut) owners.old.items)
        → MatchResult result
        (λ _. AreMatched geometry.now (ps ++ piece owner.entry.whole.now owner.entry.cut ∷ []) jobs.now.items (map (λ o. piece o.whole.now o.cut) owners.new.items))
        (IsOtherFault geometry.now (ps ++ piece owner.entry.whole.now owner.entry.cut ∷ []) jobs.now.items) }
{
    let number = owners.len();
    if !has_piece(jobs, number, geometry, &owner.whole.job, owner.cut) {
        return Err(WitnessFault::JobDiffers { job: number as u32 });
    }
    owners.push(owner)?;
    Ok(())
}

/// Notes the traced job as the owner of each of the next jobs of the record, which are to be its command's blocks.
fn match_blocks<'a>(
    geometry: &Geometry,
    jobs: &Vec<Job>,
    traced: &'a TracedJob,
    blocks: u32,
    owners: &mut Vec<Owner<'a>>,
) -> Result<(), WitnessFault>
    requires few { length jobs.now.items ≤ most_jobs }
    requires within { length owners.old.items ≤ length jobs.now.items }
    ensures within { OnOk result (length owners.new.items ≤ length jobs.now.items) }
    ensures matched { (ps : List Piece) → AreMatched geometry.now ps jobs.now.items (map (λ o. piece o.whole.now o.cut) owners.old.items)
        → MatchResult result
        (λ _. AreMatched geometry.now (ps ++ map (piece traced.now) (map Block (range_with_len 0 blocks))) jobs.now.items (map (λ o. piece o.whole.now o.cut) owners.new.items))
        (IsOtherFault geometry.now (ps ++ map (piece traced.now) (map Block (range_with_len 0 blocks))) jobs.now.items) }
{
    for k in 0..blocks {
        let owner = Owner {
            whole: traced,
            cut: Cut::Block(k),
        };
        put_owner(geometry, jobs, owner, owners)?;
    }
    Ok(())
}

/// Notes the traced job as the owner of each of the next jobs of the record, which are to be its command's parts in its units.
fn match_units<'a>(
    geometry: &Geometry,
    jobs: &Vec<Job>,
    traced: &'a TracedJob,
    owners: &mut Vec<Owner<'a>>,
) -> Result<(), WitnessFault>
    requires ready { refusal_of geometry.now traced.now.job ≡ None }
    requires few { length jobs.now.items ≤ most_jobs }
    requires within { length owners.old.items ≤ length jobs.now.items }
    ensures within { OnOk result (length owners.new.items ≤ length jobs.now.items) }
    ensures matched { (ps : List Piece) → AreMatched geometry.now ps jobs.now.items (map (λ o. piece o.whole.now o.cut) owners.old.items)
        → MatchResult result
        (λ _. AreMatched geometry.now (ps ++ map (piece traced.now) (map InUnit (units_of_job geometry.now traced.now.job))) jobs.now.items (map (λ o. piece o.whole.now o.cut) owners.new.items))
        (IsOtherFault geometry.now (ps ++ map (piece traced.now) (map InUnit (units_of_job geometry.now traced.now.job))) jobs.now.items) }
{
    ready_jobs();
    parts_of_jobs();
    whole_ranges_are_reached();
    each_unit_has_one_place();
    let _blocks = geometry.nsze();
    for unit in job_units(geometry, &traced.job) {
        let owner = Owner {
            whole: traced,
            cut: Cut::InUnit(unit),
        };
        put_owner(geometry, jobs, owner, owners)?;
    }
    Ok(())
}

/// Notes the traced job as the owner of the next jobs of the record, which are to be its pieces.
fn match_pieces<'a>(
    judging: Judging,
    geometry: &Geometry,
    reads: Reads,
    jobs: &Vec<Job>,
    traced: &'a TracedJob,
    owners: &mut Vec<Owner<'a>>,
) -> Result<(), WitnessFault>
    requires few { length jobs.now.items ≤ most_jobs }
    requires within { length owners.old.items ≤ length jobs.now.items }
    ensures within { OnOk result (length owners.new.items ≤ length jobs.now.items) }
    ensures matched { (ps : List Piece) → AreMatched geometry.now ps jobs.now.items (map (λ o. piece o.whole.now o.cut) owners.old.items)
        → MatchResult result
        (λ _. AreMatched geometry.now (ps ++ pieces_of judging geometry.now reads traced.now) jobs.now.items (map (λ o. piece o.whole.now o.cut) owners.new.items))
        (IsOtherFault geometry.now (ps ++ pieces_of judging geometry.now reads traced.now) jobs.now.items) }
{
    match cuts_of(judging, geometry, reads, traced) {
        Cuts::Blocks(blocks) => match_blocks(geometry, jobs, traced, blocks, owners),
        Cuts::Units => match_units(geometry, jobs, traced, owners),
        Cuts::Whole => {
            let owner = Owner {
                whole: traced,
                cut: Cut::Whole,
            };
            put_owner(geometry, jobs, owner, owners)
        }
    }
}

/// The owner of each of the record's first jobs, if these are the trace's pieces: all but preparations.
pub(crate) fn owners_of<'a>(
    alloc: Global,
    judging: Judging,
    geometry: &Geometry,
    reads: Reads,
    traced: &'a Vec<TracedJob>,
    jobs: &Vec<Job>,
) -> Result<Vec<Owner<'a>>, WitnessFault>
    requires { length jobs.now.items ≤ most_jobs }
    ensures within { IfOk result (λ owners. length owners.items ≤ length jobs.now.items) }
    ensures matched { MatchResult result
        (λ owners. AreMatched geometry.now (pieces_in judging geometry.now reads traced.now.items) jobs.now.items (map (λ o. piece o.whole.now o.cut) owners.items))
        (IsOtherFault geometry.now (pieces_in judging geometry.now reads traced.now.items) jobs.now.items) }
{
    let mut owners = Vec::with_capacity(alloc, traced.len())?;
    for number in 0..traced.len() {
        match_pieces(judging, geometry, reads, jobs, &traced[number], &mut owners)?;
    }
    Ok(owners)
}

/// Whether it is a Write of one block by itself.
fn is_one_block_write(body: &Body) -> bool
    ensures { IsTrue result ↔ IsOneBlockWrite body.now }
{
    match body {
        Body::Single(command) => command.op == Op::Write && command.nlb == 0,
        Body::Pair(_, _) => false,
    }
}

/// Whether the job may be there as a preparation.
fn is_preparation(start: Start, job: &Job) -> bool
    ensures { IsTrue result ↔ ((start ≡ Unknown) × IsOneBlockWrite job.now.body) }
{
    start == Start::Unknown && is_one_block_write(&job.body)
}

/// The first number, from that of the first job that isn't the trace's, at which the record has a job that may not be there.
pub(crate) fn first_unprepared(start: Start, first: usize, jobs: &Vec<Job>) -> Option<u32>
    requires { length jobs.now.items ≤ most_jobs }
    ensures { MatchOption result ((number : ℕ) → IsPreparedAt start first jobs.now.items number)
        (IsFirstWithout (IsPreparedAt start first jobs.now.items)) }
{
    for number in first..jobs.len() {
        if !is_preparation(start, &jobs[number]) {
            return Some(number as u32);
        }
    }
    None
}
