//! Readers that found what nobody can have put there, by the times alone.
use crate::contradiction::history::History;
use crate::contradiction::naming::{Named, is_short, shorter};
use crate::contradiction::shortening::least_contradiction;
use crate::numbers::to_u32;
use nvm_record::NoMemory;
use nvm_standard::Node;

/// How many of them are looked at, those first of which fewest other points can have put what they found.
const MOST: usize = 16;

/// The shortest contradiction of one of them alone that is found.
pub fn shortest_unserved(history: &History<'_>) -> Result<Option<Named>, NoMemory> {
    let alloc = history.alloc;
    // Of each how many points can have put what it found, whatever the times, its point and its block.
    let mut unserved = Vec::new(alloc);
    for (number, point) in history.table.points.iter().enumerate() {
        let number = to_u32(number);
        if !history.is_there(number) {
            continue;
        }
        for block in history.found_among(point) {
            if let Some(sought) = history.sought(number, *block) {
                if history.is_unserved(number, *block, sought)? {
                    unserved.push((history.count_servers(*block, sought), number, *block))?;
                }
            }
        }
    }
    unserved.sort_unstable();
    let mut best: Option<Named> = None;
    for (_, number, block) in unserved.iter().take(MOST) {
        let mut nodes: Vec<Node> = Vec::new(alloc);
        nodes.push(history.node(*number, *block))?;
        let found = least_contradiction(history, &nodes)?;
        best = shorter(best, found);
        if is_short(&best) {
            break;
        }
    }
    Ok(best)
}
