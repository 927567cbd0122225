ghost use Rattle.std.specs.Prelude.{◌≡◌, ◌↔◌, ◌+◌, ◌-◌, ◌≤◌, ◌<◌, ◌++◌, ℕ, List, IsTrue, None, MatchOption, true, false};
ghost use Rattle.nvm_record.specs.Op.{carries_ranges};
ghost use Rattle.nvm_record.specs.Ranges.{cut_ranges, data_of_ranges, range_bytes, ranges_of};
ghost use Rattle.nvm_geometry.specs.Parts.{data_part};
ghost use Rattle.nvm_plan.specs.declared.job.Body.TheVariants.{Single};
ghost use Rattle.nvm_plan.specs.Checks.{refusal_of};
ghost use Rattle.nvm_plan.specs.Ready.{IsReadySingle};
ghost use Rattle.nvm_trace.specs.Inside.Cutting.{AreCuts, HasLbasIn};
ghost use Rattle.nvm_trace.specs.Pieces as spec;
ghost use Rattle.nvm_trace.specs.Pieces.{block_of, command_on, lbas_in, cuts_of_body};

use crate::cuts::Cuts;
use crate::judging::Judging;
use crate::reads::Reads;
use crate::saying::{is_success, leaves_open};
use crate::traced_job::{Ending, TracedJob};
use nvm_geometry::laws::sharing_is_one_number;
use nvm_geometry::{Geometry, Piece};
use nvm_plan::laws::ready_jobs;
use nvm_plan::{Body, Plan, job_part_count, plan};
use nvm_record::laws::ranges_are_read_back;
use nvm_record::{BlockSize, Command, LbaRange, Op, range_count};

/// Into which pieces the job is cut.
pub fn cuts_of(judging: Judging, geometry: &Geometry, reads: Reads, job: &TracedJob) -> Cuts
    ensures { AreCuts geometry.now job.now result (spec.cuts_of judging geometry.now reads job.now) }
{
    match plan(geometry, &job.job) {
        Plan::Refused(_) => Cuts::Whole,
        Plan::Ready => match &job.job.body {
            Body::Single(command) => cuts_of_command(judging, geometry, reads, job, command),
            Body::Pair(_, _) => Cuts::Whole,
        },
    }
}

/// Into which pieces the job is cut, which is of this command alone.
fn cuts_of_command(
    judging: Judging,
    geometry: &Geometry,
    reads: Reads,
    job: &TracedJob,
    command: &Command,
) -> Cuts
    requires ready { refusal_of geometry.now job.now.job ≡ None }
    requires alone { job.now.job.body ≡ Single command.now }
    ensures { AreCuts geometry.now job.now result (cuts_of_body judging geometry.now reads job.now (Single command.now)) }
{
    ready_jobs();
    if is_in_blocks(judging, *geometry, reads, &job.ended, command) {
        return Cuts::Blocks(u32::from(command.nlb) + 1);
    }
    if is_write(command.op)
        && leaves_open(geometry, job)
        && job_part_count(geometry, &job.job) > 1
    {
        return Cuts::Units;
    }
    Cuts::Whole
}

/// Whether the command is cut into blocks, where it ended so.
fn is_in_blocks(
    judging: Judging,
    geometry: Geometry,
    reads: Reads,
    ended: &Option<Ending>,
    command: &Command,
) -> bool
    requires { IsReadySingle geometry command.now }
    ensures { result ≡ spec.is_in_blocks judging geometry reads ended.now command.now }
{
    match judging {
        Judging::Strict => false,
        Judging::Standard => match command.op {
            Op::Write | Op::WriteUncorrectable | Op::WriteZeroes => {
                exceeds_write_limit(geometry, command.slba, u32::from(command.nlb) + 1)
            }
            Op::Read | Op::Compare => by_blocks(reads) && has_succeeded(ended),
            _ => false,
        },
    }
}

/// Whether the command changes blocks.
fn is_write(op: Op) -> bool
    ensures { result ≡ spec.is_write op }
{
    match op {
        Op::Write | Op::WriteUncorrectable | Op::WriteZeroes | Op::Dataset { .. } => true,
        _ => false,
    }
}

/// Whether a Read or a Compare may find each of its blocks at a moment of its own.
fn by_blocks(reads: Reads) -> bool
    ensures { result ≡ spec.by_blocks reads }
{
    match reads {
        Reads::Atomic | Reads::Whole => false,
        Reads::ByBlocks => true,
    }
}

/// Whether the job ended with success.
fn has_succeeded(ended: &Option<Ending>) -> bool
    ensures { result ≡ spec.has_succeeded ended.now }
{
    match ended {
        Some(ending) => is_success(ending.statuses),
        None => false,
    }
}

/// Whether a write of the range has more blocks than the limit allows, or crosses a boundary.
fn exceeds_write_limit(geometry: Geometry, slba: u64, blocks: u32) -> bool
    requires some { 0 < blocks }
    requires in_range { slba + blocks ≤ geometry.nsze }
    ensures { result ≡ spec.exceeds_write_limit geometry slba blocks }
{
    sharing_is_one_number();
    !geometry.within_write_limit(slba, blocks)
}

/// Whether the LBA is `blocks` after the first.
fn is_after(lba: u64, first: u64, blocks: u32) -> bool
    ensures { IsTrue result ↔ (lba ≡ first + blocks) }
{
    lba >= first && lba - first == u64::from(blocks)
}

/// The data of `blocks` blocks, after that of those skipped.
fn blocks_data(bytes: &[u8], size: BlockSize, skipped: u32, blocks: u32) -> &[u8]
    ensures { result.now ≡ data_part size skipped blocks bytes.now }
{
    let size = size.bytes() as usize;
    let start = (skipped as usize * size).min(bytes.len());
    let end = (start + blocks as usize * size).min(bytes.len());
    &bytes[start..end]
}

/// The data of one block.
pub(crate) fn block_data(bytes: &[u8], size: BlockSize, k: u32) -> &[u8]
    ensures { result.now ≡ data_part size k 1 bytes.now }
{
    blocks_data(bytes, size, k, 1)
}

/// Whether it is exactly this block of the command.
pub(crate) fn is_block(block: &Command, size: BlockSize, command: &Command, k: u32) -> bool
    ensures { IsTrue result ↔ (block.now ≡ block_of size command.now k) }
{
    block.cid == command.cid
        && block.nsid == command.nsid
        && block.fuse == command.fuse
        && block.op == command.op
        && is_after(block.slba, command.slba, k)
        && block.nlb == 0
        && block.payload.as_slice() == block_data(command.payload.as_slice(), size, k)
}

/// What of the data follows the range's definition, if it begins with that.
fn after_range(bytes: &[u8], range: LbaRange) -> Option<&[u8]>
    ensures { MatchOption result ((after : List ℕ) → ¬ (bytes.now ≡ range_bytes range ++ after))
        (λ after. bytes.now ≡ range_bytes range ++ after.now) }
{
    bytes.strip_prefix(range.bytes().as_slice())
}

/// Whether it is the data of these ranges, each cut to the `blocks` LBAs from `first`.
fn are_cut(part: &[u8], first: u64, blocks: u32, ranges: &[u8]) -> bool
    ensures { IsTrue result ↔ (part.now ≡ data_of_ranges (cut_ranges first blocks (ranges_of ranges.now))) }
{
    ranges_are_read_back();
    let mut rest = part;
    for place in 0..range_count(ranges) {
        if let Some(range) = LbaRange::at(ranges, place).cut(first, blocks) {
            let Some(after) = after_range(rest, range) else {
                return false;
            };
            rest = after;
        }
    }
    rest.is_empty()
}

/// How many LBAs of a range come before this one of it.
fn skipped(slba: u64, nlb: u16, lba: u64) -> u32
    requires first { slba ≤ lba }
    requires end { lba ≤ slba + nlb }
    ensures { result ≡ lba - slba }
{
    (lba - slba) as u32
}

/// Whether it is this number of blocks, zeroes-based.
fn has_blocks(nlb: u16, blocks: u32) -> bool
    requires { 0 < blocks }
    ensures { IsTrue result ↔ (nlb ≡ blocks - 1) }
{
    u32::from(nlb) + 1 == blocks
}

/// Whether it is the command on exactly these of its LBAs.
fn is_on_range(part: &Command, size: BlockSize, command: &Command, on: Piece) -> bool
    requires kind { carries_ranges command.now.op ≡ false }
    requires some { 0 < on.blocks }
    requires first { command.now.slba ≤ on.first }
    requires end { on.first + on.blocks ≤ command.now.slba + (command.now.nlb + 1) }
    ensures { IsTrue result ↔ (part.now ≡ command_on size command.now on) }
{
    let skipped = skipped(command.slba, command.nlb, on.first);
    part.cid == command.cid
        && part.nsid == command.nsid
        && part.fuse == command.fuse
        && part.op == command.op
        && part.slba == on.first
        && has_blocks(part.nlb, on.blocks)
        && part.payload.as_slice()
            == blocks_data(command.payload.as_slice(), size, skipped, on.blocks)
}

/// Whether it is the command on exactly these LBAs.
fn is_on_ranges(part: &Command, size: BlockSize, command: &Command, on: Piece) -> bool
    requires kind { carries_ranges command.now.op ≡ true }
    ensures { IsTrue result ↔ (part.now ≡ command_on size command.now on) }
{
    part.cid == command.cid
        && part.nsid == command.nsid
        && part.fuse == command.fuse
        && part.op == command.op
        && part.slba == command.slba
        && part.nlb == command.nlb
        && are_cut(
            part.payload.as_slice(),
            on.first,
            on.blocks,
            command.payload.as_slice(),
        )
}

/// Whether it is the command's part in the unit, in which it has an LBA.
pub(crate) fn is_part(part: &Command, geometry: &Geometry, command: &Command, unit: u16) -> bool
    requires { HasLbasIn geometry.now command.now unit }
    ensures { IsTrue result ↔ (part.now ≡ command_on geometry.now.block_size command.now (lbas_in geometry.now command.now unit)) }
{
    let size = geometry.block_size();
    if command.op.carries_ranges() {
        match geometry.piece_in(unit, 0, geometry.nsze() as u32) {
            Some(on) => is_on_ranges(part, size, command, on),
            None => false,
        }
    } else {
        match geometry.piece_in(unit, command.slba, u32::from(command.nlb) + 1) {
            Some(on) => is_on_range(part, size, command, on),
            None => false,
        }
    }
}
