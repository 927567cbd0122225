//! The order of all points, merged from orders of the parts.
use crate::numbers::Numbers;
use crate::order::acts::NONE;
use crate::order::found::{Found, found_for};
use crate::order::known::{Known, known_of};
use crate::order::parts::{Share, shares_of};
use crate::order::trying::Miss;
use nvm_judge::Stop;
use nvm_record::NoMemory;
use nvm_standard::{Order, Placed, Points, Presence, Value};
use std::alloc::Global;

/// How many acts may be looked at for each of the effort.
const EACH: u64 = 100;

/// The shares of a part.
fn shares_in(shares: &Vec<Share>, part: u32) -> Option<&[Share]> {
    let start = shares.partition_point(|share| share.part < part);
    let end = shares.partition_point(|share| share.part <= part);
    shares.get(start..end)
}

/// Numbers the parts in their order, and notes which of them each point has. Gives how many there are.
fn number_parts(shares: &mut Vec<Share>, known: &mut Known<'_, '_>) -> u32 {
    let mut count = 0u32;
    let mut last = NONE;
    for share in shares.iter_mut() {
        if share.part != last {
            last = share.part;
            count = count.saturating_add(1);
        }
        let number = count.saturating_sub(1);
        share.part = number;
        let first = known.first_part.at(share.point).min(number);
        known.first_part.put(share.point, first);
        known.last_part.put(share.point, number);
        known.holder.put(share.point, number);
    }
    count
}

/// Has a point of which one block has to be done in a part done in the one before, if it has blocks there. Says whether it has.
fn give_back(known: &mut Known<'_, '_>, part: u32, point: u32) -> bool {
    let is_choice = match known.points.points.get(point as usize) {
        Some(point) => point.presence == Presence::OneOf,
        None => false,
    };
    if !is_choice || known.holder.at(point) != part || known.first_part.at(point) >= part {
        return false;
    }
    known.met.put(point, 1);
    known.holder.put(point, part.saturating_sub(1));
    true
}

/// Where the search of a part got stuck at a point: has that done in the part before, or else those beside it of which one block has to
/// be done. Says how many they are.
fn give_back_any(known: &mut Known<'_, '_>, shares: &[Share], part: u32, point: u32) -> u32 {
    if give_back(known, part, point) {
        return 1;
    }
    let Some(stuck) = known.points.points.get(point as usize) else {
        return 0;
    };
    let mut given = 0u32;
    for share in shares {
        let Some(choice) = known.points.points.get(share.point as usize) else {
            break;
        };
        let is_beside = stuck.until.unwrap_or(u64::MAX) >= choice.from
            && choice.until.unwrap_or(u64::MAX) >= stuck.from;
        if is_beside && give_back(known, part, share.point) {
            given = given.saturating_add(1);
        }
    }
    given
}

/// What was found for each part, or why nothing was for one.
fn search_all<'t>(
    known: &mut Known<'_, 't>,
    shares: &Vec<Share>,
    parts: u32,
) -> Result<Result<Vec<Found<'t>>, Stop>, NoMemory> {
    let alloc = known.alloc;
    let mut waiting = Vec::with_capacity(alloc, parts as usize)?;
    let mut all = Vec::with_capacity(alloc, parts as usize)?;
    for part in (0..parts).rev() {
        waiting.push(part)?;
        all.push(Found {
            steps: Vec::new(alloc),
            first: Vec::new(alloc),
        })?;
    }
    let mut tried = Numbers::new(alloc, parts as usize, 0)?;
    for _ in 0..u64::MAX {
        let Some(part) = waiting.pop() else {
            break;
        };
        let Some(of_part) = shares_in(shares, part) else {
            break;
        };
        let is_last = tried.at(part) == 1;
        match found_for(known, part, of_part, is_last)? {
            Ok(found) => {
                if let Some(place) = all.get_mut(part as usize) {
                    *place = found;
                }
            }
            Err(Miss::Nothing) => return Ok(Err(Stop::Everything)),
            Err(Miss::Stuck(point)) => {
                if known.left == 0 {
                    return Ok(Err(Stop::Effort));
                }
                let given = give_back_any(known, of_part, part, point);
                if given == 0 && is_last {
                    return Ok(Err(Stop::Effort));
                }
                waiting.push(part)?;
                if given == 0 {
                    tried.put(part, 1);
                } else {
                    waiting.push(part.saturating_sub(1))?;
                }
            }
        }
    }
    Ok(Ok(all))
}

/// An order that explains the points, if one is found, or else why the search for one ended. For each of `effort` some hundred acts are
/// looked at.
pub fn order_of<'t>(
    alloc: Global,
    points: &Points<'t>,
    effort: u32,
) -> Result<Result<Order<'t>, Stop>, NoMemory> {
    let mut shares = shares_of(alloc, &points.points, points.nsze)?;
    let left = u64::from(effort).saturating_mul(EACH);
    let mut known = known_of(alloc, points, left)?;
    let parts = number_parts(&mut shares, &mut known);
    let all = match search_all(&mut known, &shares, parts)? {
        Ok(all) => all,
        Err(stop) => return Ok(Err(stop)),
    };
    let mut steps = Vec::new(alloc);
    let mut first = Vec::new(alloc);
    for found in &all {
        steps.extend_from_slice(&found.steps)?;
        first.extend_from_slice(&found.first)?;
    }
    steps.sort_by_key(|step| step.0)?;
    let placed = all_placed(alloc, points, &steps)?;
    Ok(Ok(Order { first, placed }))
}

/// Whether the point's blocks are done one by one.
fn is_each(points: &Points<'_>, point: u32) -> bool {
    match points.points.get(point as usize) {
        Some(point) => point.each,
        None => false,
    }
}

/// The points in this order. Blocks of a point that are done one after the other stand as one.
fn all_placed<'t>(
    alloc: Global,
    points: &Points<'t>,
    steps: &Vec<(u32, Placed<'t>)>,
) -> Result<Vec<Placed<'t>>, NoMemory> {
    let mut placed: Vec<Placed<'t>> = Vec::with_capacity(alloc, steps.len())?;
    for step in steps {
        let next = step.1;
        let each = is_each(points, next.point);
        if let Some(last) = placed.last_mut() {
            if each
                && matches!(&next.value, Value::AsIs)
                && last.point == next.point
                && last.first.saturating_add(last.blocks) == next.first
            {
                last.blocks = last.blocks.saturating_add(next.blocks);
                continue;
            }
        }
        placed.push(next)?;
    }
    Ok(placed)
}
