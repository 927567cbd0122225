//! The parts of a namespace, each of which is searched by itself.
use crate::numbers::{Numbers, to_u32};
use nvm_record::NoMemory;
use nvm_standard::Point;
use std::alloc::Global;

/// The blocks of a point that lie in a part. They follow one another.
#[derive(Clone, Copy, PartialEq, Eq, PartialOrd, Ord)]
pub struct Share {
    pub part: u32,
    pub point: u32,
    pub first: u32,
    pub blocks: u32,
}

/// The number of each block's part: two blocks that a point does at one moment are of one part.
fn part_numbers(alloc: Global, points: &Vec<Point<'_>>, nsze: u32) -> Result<Numbers, NoMemory> {
    let count = (nsze as usize).saturating_add(1);
    let mut begun = Numbers::new(alloc, count, 0)?;
    let mut ended = Numbers::new(alloc, count, 0)?;
    for point in points {
        if !point.each {
            begun.increment(point.first);
            ended.increment(point.first.saturating_add(point.blocks).saturating_sub(1));
        }
    }
    let mut parts = Numbers::new(alloc, count, 0)?;
    let mut part = 0u32;
    let mut over = 0u32;
    for block in 0..nsze {
        if block > 0 && over == 0 {
            part = part.saturating_add(1);
        }
        over = over
            .saturating_add(begun.at(block))
            .saturating_sub(ended.at(block));
        parts.put(block, part);
    }
    Ok(parts)
}

/// The shares of all points, part by part, each part's by the points' numbers.
pub fn shares_of(
    alloc: Global,
    points: &Vec<Point<'_>>,
    nsze: u32,
) -> Result<Vec<Share>, NoMemory> {
    let parts = part_numbers(alloc, points, nsze)?;
    let mut shares = Vec::new(alloc);
    for number in 0..points.len() {
        let point = &points[number];
        let end = point.first.saturating_add(point.blocks);
        let mut share = Share {
            part: parts.at(point.first),
            point: to_u32(number),
            first: point.first,
            blocks: 0,
        };
        for block in point.first..end {
            let part = parts.at(block);
            if part != share.part {
                shares.push(share)?;
                share.part = part;
                share.first = block;
                share.blocks = 0;
            }
            share.blocks = share.blocks.saturating_add(1);
        }
        shares.push(share)?;
    }
    shares.sort()?;
    Ok(shares)
}
