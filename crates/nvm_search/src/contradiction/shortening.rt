//! A contradiction among nodes, without the commands that it doesn't need.
use crate::contradiction::derivation::derive;
use crate::contradiction::history::History;
use crate::contradiction::naming::{Named, shorter};
use crate::contradiction::reasons::reasons_of;
use crate::contradiction::telling::told;
use crate::contradiction::window::Window;
use nvm_record::NoMemory;
use nvm_standard::Node;

/// Of how many things that can't be the reasons are looked at.
const MOST: usize = 32;

/// The contradiction of these nodes by themselves, the shortest of those that come first.
fn contradiction_among(
    history: &History<'_>,
    nodes: &Vec<Node>,
) -> Result<Option<Named>, NoMemory> {
    let window = Window::new(history, nodes)?;
    let (derivation, absurd) = derive(&window)?;
    let mut best = None;
    for one in absurd.iter().take(MOST) {
        if let Some(reasons) = reasons_of(&derivation, one)? {
            let named = told(one, reasons)?;
            best = shorter(best, Some(named));
        }
    }
    Ok(best)
}

/// The contradiction of the nodes, with as few commands as are found by leaving out one after the other.
pub fn least_contradiction(
    history: &History<'_>,
    nodes: &Vec<Node>,
) -> Result<Option<Named>, NoMemory> {
    let Some(mut best) = contradiction_among(history, nodes)? else {
        return Ok(None);
    };
    if let Some(again) = contradiction_among(history, &best.nodes)? {
        if again.is_shorter(&best) {
            best = again;
        }
    }
    let commands = Vec::from_slice(history.alloc, &best.commands)?;
    for command in &commands {
        let mut others = Vec::new(history.alloc);
        for node in &best.nodes {
            if history.point(node.point).command != *command {
                others.push(*node)?;
            }
        }
        if let Some(other) = contradiction_among(history, &others)? {
            if other.is_shorter(&best) {
                best = other;
            }
        }
    }
    Ok(Some(best))
}
