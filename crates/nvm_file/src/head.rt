//! What stands before the jobs.
ghost use Rattle.std.specs.Prelude.{◌≡◌, ◌≤◌, IfOk};
ghost use Rattle.nvm_geometry.specs.Faults.{HasNoFault};
ghost use Rattle.nvm_store.specs.Limit.{IsLimit};
ghost use Rattle.nvm_audit.specs.Recordable.{HoldsLimit, most_entries_of_two_bytes};
ghost use Rattle.nvm_file.specs.Fields.{Gives, number_in};
ghost use Rattle.nvm_file.specs.Inside.Head.{frame_by, namespace_with};
ghost use Rattle.nvm_file.specs.HeadReading.{digit_at, head_at, judged, limit_at, limit_less_one_at, most_entries, numbers_at, version_at};
ghost use Rattle.nvm_file.specs.Inside.Rest.{left_of};

use crate::fields::{refused, u16_in, u16_of, u32_in, u32_of, u64_of};
use crate::frame::Frame;
use crate::record_fault::RecordFault;
use crate::rest::Rest;
use nvm_audit::{MOST_JOBS, Version};
use nvm_geometry::Geometry;
use nvm_store::Limit;

/// Each record file begins with these bytes, and its version behind them.
const NAME: &[u8; 3] = b"NVR";

/// The numbers of the namespace begin at this offset.
const NUMBERS_AT: u64 = 4;

/// A run has at most so many workers.
const MOST_WORKERS: u16 = 64;

/// A limit is at most so many entries.
const MOST_ENTRIES: u32 = 4_194_304;

/// The numbers of a namespace, which may be any.
#[derive(Clone, Copy)]
pub struct Numbers {
    nsze: u64,
    block_size: u32,
    nabsn: u16,
    nabo: u16,
    nawun: u16,
    nacwu: u16,
}

/// What stands before the jobs.
#[derive(Clone, Copy)]
pub struct Head {
    version: Version,
    numbers: Numbers,
    limit: u32,
    workers: u16,
    jobs: u32,
}

/// All that stands before the jobs of a file of `total` bytes.
#[tactic(auto, unfolding(crate::specs::HeadReading::head_at))]
pub fn head_of(total: usize, rest: Rest<'_>) -> Result<(Head, Rest<'_>), RecordFault>
    ensures head { Gives (λ x. (frame_by total x.0, left_of x.1)) result (head_at total (left_of rest.entry)) }
    ensures geometry { IfOk result (λ x. HasNoFault (namespace_with x.0.numbers)) }
    ensures limit { IfOk result (λ x. IsLimit x.0.limit) }
    ensures held { IfOk result (λ x. HoldsLimit x.0.version x.0.limit) }
{
    let (version, rest) = version_of(rest)?;
    let (numbers, rest) = numbers_of(total, rest)?;
    geometry_of(&numbers)?;
    let (limit, rest) = limit_of(version, total, rest)?;
    let (workers, rest) = u16_in(total, 1, MOST_WORKERS, rest)?;
    let (jobs, rest) = u32_in(total, 0, MOST_JOBS, rest)?;
    let head = Head {
        version,
        numbers,
        limit,
        workers,
        jobs,
    };
    Ok((head, rest))
}

/// What the head of a file of `total` bytes says of all that follows.
pub fn frame_of(total: usize, head: &Head) -> Frame
    requires geometry { HasNoFault (namespace_with head.now.numbers) }
    requires limit { IsLimit head.now.limit }
    ensures { result ≡ frame_by total head.now }
{
    Frame {
        total,
        version: head.version,
        geometry: geometry_by(&head.numbers),
        limit: Limit::new(head.limit).unwrap(),
        workers: head.workers,
        jobs: head.jobs,
    }
}

/// The geometry of numbers that are those of one.
pub fn geometry_by(numbers: &Numbers) -> Geometry
    requires { HasNoFault (namespace_with numbers.now) }
    ensures { result ≡ namespace_with numbers.now }
{
    let geometry = Geometry::new(
        numbers.nsze,
        numbers.block_size,
        numbers.nabsn,
        numbers.nabo,
        numbers.nawun,
        numbers.nacwu,
    );
    geometry.unwrap()
}

/// The file's name and its version.
#[tactic(auto, unfolding(crate::specs::HeadReading::version_at))]
fn version_of(rest: Rest<'_>) -> Result<(Version, Rest<'_>), RecordFault>
    ensures { Gives (λ x. (x.0, left_of x.1)) result (version_at (left_of rest.entry)) }
{
    if !rest.as_slice().starts_with(NAME) {
        return Err(RecordFault::BadName);
    }
    digit_of(rest.after(NAME.len()))
}

/// The version that the byte behind the name says.
fn digit_of(rest: Rest<'_>) -> Result<(Version, Rest<'_>), RecordFault>
    ensures { Gives (λ x. (x.0, left_of x.1)) result (digit_at (left_of rest.entry)) }
{
    match rest.as_slice() {
        [b'1', ..] => Ok((Version::One, rest.after(1))),
        [b'2', ..] => Ok((Version::Two, rest.after(1))),
        _ => Err(RecordFault::Version),
    }
}

/// The numbers of the namespace.
#[tactic(auto, unfolding(crate::specs::HeadReading::numbers_at))]
pub fn numbers_of(total: usize, rest: Rest<'_>) -> Result<(Numbers, Rest<'_>), RecordFault>
    ensures { Gives (λ x. (namespace_with x.0, left_of x.1)) result (numbers_at total (left_of rest.entry)) }
{
    let (nsze, rest) = u64_of(total, rest)?;
    let (block_size, rest) = u32_of(total, rest)?;
    let (nabsn, rest) = u16_of(total, rest)?;
    let (nabo, rest) = u16_of(total, rest)?;
    let (nawun, rest) = u16_of(total, rest)?;
    let (nacwu, rest) = u16_of(total, rest)?;
    let numbers = Numbers {
        nsze,
        block_size,
        nabsn,
        nabo,
        nawun,
        nacwu,
    };
    Ok((numbers, rest))
}

/// The geometry of these numbers, if they are those of one.
#[tactic(auto, unfolding(crate::specs::HeadReading::judged))]
pub fn geometry_of(numbers: &Numbers) -> Result<Geometry, RecordFault>
    ensures judged { Gives (λ _. namespace_with numbers.now) result (judged (namespace_with numbers.now)) }
    ensures sound { IfOk result (λ _. HasNoFault (namespace_with numbers.now)) }
{
    let geometry = Geometry::new(
        numbers.nsze,
        numbers.block_size,
        numbers.nabsn,
        numbers.nabo,
        numbers.nawun,
        numbers.nacwu,
    );
    match geometry {
        Ok(geometry) => Ok(geometry),
        Err(_) => Err(RecordFault::BadValue { at: NUMBERS_AT }),
    }
}

/// The most entries that a unit's history may have, as the version keeps it.
fn limit_of(version: Version, total: usize, rest: Rest<'_>) -> Result<(u32, Rest<'_>), RecordFault>
    ensures limit { Gives (λ x. (x.0, left_of x.1)) result (limit_at version total (left_of rest.entry)) }
    ensures sound { IfOk result (λ x. IsLimit x.0) }
    ensures held { IfOk result (λ x. HoldsLimit version x.0) }
{
    match version {
        Version::One => limit_less_one_of(total, rest),
        Version::Two => whole_limit_of(total, rest),
    }
}

/// The limit less 1, in two bytes.
#[tactic(auto, unfolding(crate::specs::HeadReading::limit_less_one_at))]
fn limit_less_one_of(total: usize, rest: Rest<'_>) -> Result<(u32, Rest<'_>), RecordFault>
    ensures limit { Gives (λ x. (x.0, left_of x.1)) result (limit_less_one_at total (left_of rest.entry)) }
    ensures sound { IfOk result (λ x. IsLimit x.0) }
    ensures few { IfOk result (λ x. x.0 ≤ most_entries_of_two_bytes) }
{
    let (less_one, rest) = u16_of(total, rest)?;
    Ok((u32::from(less_one) + 1, rest))
}

/// The limit, in four bytes.
#[tactic(auto, unfolding(crate::specs::Fields::number_in))]
fn whole_limit_of(total: usize, rest: Rest<'_>) -> Result<(u32, Rest<'_>), RecordFault>
    ensures limit { Gives (λ x. (x.0, left_of x.1)) result (number_in total 4 1 most_entries (left_of rest.entry)) }
    ensures sound { IfOk result (λ x. IsLimit x.0) }
{
    let (entries, after) = u32_of(total, rest)?;
    if entries < 1 || entries > MOST_ENTRIES {
        return Err(refused(total, rest));
    }
    Ok((entries, after))
}
