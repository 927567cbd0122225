//! The blocks in which a contradiction is looked for.
use nvm_record::NoMemory;
use nvm_standard::{Found, Point, Presence, Put};
use std::alloc::Global;

/// The most blocks of commands without data of their own that are listed.
pub const MOST_WIDE: usize = 1 << 22;

/// Whether the point found some bytes, or failed to find them, at least if another was done.
fn is_reader(point: &Point<'_>) -> bool {
    match (point.found, point.presence) {
        (Found::Bytes(_), Presence::Sure | Presence::Together) | (Found::OtherThan(_), _) => true,
        _ => false,
    }
}

/// The blocks in which marks were surely put, rising.
fn marked(alloc: Global, points: &Vec<Point<'_>>) -> Result<Vec<u32>, NoMemory> {
    let mut marked = Vec::new(alloc);
    for point in points {
        if let (Put::Mark, Presence::Sure) = (point.put, point.presence) {
            for place in 0..point.blocks {
                if marked.len() >= MOST_WIDE {
                    break;
                }
                marked.push(point.first.saturating_add(place))?;
            }
        }
    }
    marked.sort_unstable();
    marked.dedup();
    Ok(marked)
}

/// Puts the blocks at the end of which is only known that bytes were found, where marks were put.
fn put_unknown(
    blocks: &mut Vec<u32>,
    points: &Vec<Point<'_>>,
    marked: &Vec<u32>,
) -> Result<(), NoMemory> {
    for point in points {
        if let (Found::AnyBytes, Presence::Sure) = (point.found, point.presence) {
            let end = point.first.saturating_add(point.blocks);
            let from = marked.partition_point(|block| *block < point.first);
            for block in marked.iter().skip(from) {
                if *block >= end || blocks.len() >= MOST_WIDE {
                    break;
                }
                blocks.push(*block)?;
            }
        }
    }
    Ok(())
}

/// The blocks in which something was found that somebody may not have put there, rising.
pub fn blocks_found(alloc: Global, points: &Vec<Point<'_>>) -> Result<Vec<u32>, NoMemory> {
    let mut blocks = Vec::new(alloc);
    put_unknown(&mut blocks, points, &marked(alloc, points)?)?;
    for point in points {
        if is_reader(point) {
            for place in 0..point.blocks {
                blocks.push(point.first.saturating_add(place))?;
            }
        }
    }
    blocks.sort_unstable();
    blocks.dedup();
    Ok(blocks)
}
