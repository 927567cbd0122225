ghost use Rattle.std.specs.Prelude.{◌≡◌, IfOk};
ghost use Rattle.nvm_judge.specs.HeadProfile.{head_profile};
ghost use Rattle.nvm_judge.specs.Judged.{IsFoundOf, IsJudged};
ghost use Rattle.nvm_standard.specs.PointView.{seen_table};

use crate::judgment::Judgment;
use crate::search::{Search, Stop};
use nvm_record::NoMemory;
use nvm_standard::{
    ContradictionFault, Held, OrderFault, Points, PointsFault, Profile, contradicts, explains,
    points_of,
};
use nvm_trace::{Reads, Trace};
use std::alloc::{AllocError, Global};

/// The least effort of a short search, and of how many points one more of it is for.
const SHORT: usize = 500;

const POINTS: usize = 10;

/// What the device of a trace is held to where nobody asks for more: what the head says that it promises. A head that says `whole` is
/// held as one that says `atomic`, since recorders have written that word of any device.
pub fn profile_of(trace: &Trace) -> Profile
    ensures { result ≡ head_profile «trace».now }
{
    let held = match trace.reads {
        Reads::Atomic | Reads::Whole => Held::Atomic,
        Reads::ByBlocks => Held::ByBlocks,
    };
    Profile {
        held,
        deallocated: trace.deallocated,
    }
}

/// What a search for a contradiction of the points finds out. `stop`: why one for an order ended.
fn contradicted<'t, S: Search>(
    alloc: Global,
    search: &S,
    points: &Points<'t>,
    effort: u32,
    stop: Stop,
) -> Result<Judgment<'t>, NoMemory>
    ensures { IfOk result (IsFoundOf (seen_table points.now)) }
{
    let Some(contradiction) = search.contradiction_of(alloc, points, effort)? else {
        return Ok(Judgment::Unknown(stop));
    };
    match contradicts(alloc, points, &contradiction) {
        Ok(()) => Ok(Judgment::Contradicted(contradiction)),
        Err(ContradictionFault::NoMemory) => Err(AllocError),
        Err(_) => Ok(Judgment::Unknown(stop)),
    }
}

/// What a search for an order of the points finds out.
fn ordered<'t, S: Search>(
    alloc: Global,
    search: &S,
    points: &Points<'t>,
    effort: u32,
) -> Result<Judgment<'t>, NoMemory>
    ensures { IfOk result (IsFoundOf (seen_table points.now)) }
{
    let order = match search.order_of(alloc, points, effort)? {
        Ok(order) => order,
        Err(stop) => return Ok(Judgment::Unknown(stop)),
    };
    match explains(alloc, points, &order) {
        Ok(()) => Ok(Judgment::Explained(order)),
        Err(OrderFault::NoMemory) => Err(AllocError),
        Err(_) => Ok(Judgment::Unknown(Stop::Effort)),
    }
}

/// An effort by which an order is mostly found that is found at all, and that ends soon where there is none.
fn short_effort(points: &Points<'_>) -> u32 {
    (points.points.len() / POINTS).max(SHORT).min(0xffff_ffff) as u32
}

/// What searches among the points find out: a short one for an order, one for a contradiction, and where both found nothing a long one
/// for an order.
fn searched<'t, S: Search>(
    alloc: Global,
    search: &S,
    points: &Points<'t>,
    effort: u32,
) -> Result<Judgment<'t>, NoMemory>
    ensures { IfOk result (IsFoundOf (seen_table points.now)) }
{
    let short = short_effort(points);
    let stop = match ordered(alloc, search, points, effort.min(short))? {
        Judgment::Unknown(stop) => stop,
        found => return Ok(found),
    };
    match contradicted(alloc, search, &*points, effort, stop)? {
        Judgment::Unknown(Stop::Effort) if effort > short => ordered(alloc, search, points, effort),
        found => Ok(found),
    }
}

/// Whether an order explains the trace, held to this profile, or a contradiction shows that none does, or a reply is wrong by itself.
///
/// `search` looks for the one and the other, each for as long as `effort` allows. `Unknown` is given where both found nothing, or nothing that is taken, with
/// why the one for an order ended.
/// `NoMemory` is returned where a growth was refused: nothing is known then.
#[tactic(auto, using(crate::proofs::Wrong::is_wrong))]
pub fn judge<'t, S: Search>(
    alloc: Global,
    search: &S,
    trace: &'t Trace,
    profile: Profile,
    effort: u32,
) -> Result<Judgment<'t>, NoMemory>
    ensures { IfOk result (IsJudged trace.entry.now profile) }
{
    match points_of(alloc, trace, profile) {
        Ok(points) => searched(alloc, search, &points, effort),
        Err(PointsFault::Wrong { command }) => Ok(Judgment::Wrong { command }),
        Err(PointsFault::NoMemory) => Err(AllocError),
    }
}
