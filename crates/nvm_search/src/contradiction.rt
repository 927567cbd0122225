//! Finds a contradiction among the points of a trace, and gives it by few facts.
//!
//! [`contradiction_of`] looks for nodes, points at their blocks, of which one would have to come before itself, or which found what nobody
//! can have put there, and gives the facts in the words of [`nvm_standard`].

mod absurd;
mod blocks_found;
mod components;
mod contents;
mod derivation;
mod history;
mod naming;
mod orders;
mod paths;
mod place_set;
mod reasons;
mod settling;
mod shortening;
mod stretches;
mod telling;
mod unserved;
mod window;
mod writers;

use crate::contradiction::components::{nodes_of, placed_nodes};
use crate::contradiction::history::History;
use crate::contradiction::naming::{Named, is_short, shorter};
use crate::contradiction::stretches::in_stretches;
use crate::contradiction::unserved::shortest_unserved;
use nvm_record::NoMemory;
use nvm_standard::{Contradiction, Points};
use std::alloc::Global;

/// How many nodes are looked at together, at least and at most.
const LEAST: usize = 64;

const MOST: usize = 2_048;

/// A contradiction of the points, if one is found.
///
/// It needn't be trusted: [`contradicts`](nvm_standard::contradicts) checks it. `effort` is how many points, each at one of its blocks, are looked
/// at together at most, from 64 to 2,048. Of more those that are near in time are, so a contradiction may be missed.
pub fn contradiction_of(
    alloc: Global,
    points: &Points<'_>,
    effort: u32,
) -> Result<Option<Contradiction>, NoMemory> {
    let Some(history) = History::new(alloc, points)? else {
        return Ok(None);
    };
    let most = (effort as usize).max(LEAST).min(MOST);
    let mut best = shortest_unserved(&history)?;
    let placed = placed_nodes(&history)?;
    let components = match placed.last() {
        Some(last) => last.component,
        None => 0,
    };
    for number in 0..components {
        if is_short(&best) {
            break;
        }
        let nodes = nodes_of(&history, &placed, number.saturating_add(1))?;
        let found = in_stretches(&history, &nodes, most)?;
        best = shorter(best, found);
    }
    Ok(match best {
        Some(named) => {
            let Named { contradiction, .. } = named;
            Some(contradiction)
        }
        None => None,
    })
}
