//! Where in a component nodes are looked for that contradict each other.
use crate::contradiction::history::History;
use crate::contradiction::naming::{Named, is_short, shorter};
use crate::contradiction::shortening::least_contradiction;
use crate::contradiction::window::SERVERS;
use nvm_record::NoMemory;
use nvm_standard::Node;

/// How many nodes side by side are looked at, at least, where a component has too many to be looked at together.
const STRETCH: usize = 128;

/// As many times the nodes that are under way at once are looked at together.
const TIMES: usize = 4;

/// After so many contradictions that aren't short none is looked for.
const TRIES: usize = 8;

/// The most nodes of those whose time is over some day that are under way at once.
fn most_under_way(history: &History<'_>, nodes: &Vec<Node>) -> Result<usize, NoMemory> {
    let mut ends = Vec::with_capacity(history.alloc, nodes.len())?;
    for node in nodes {
        ends.push(history.until(node.point))?;
    }
    ends.sort_unstable();
    let mut most = 0;
    let mut begun = 0usize;
    for node in nodes {
        if history.until(node.point) < u64::MAX {
            begun = begun.saturating_add(1);
            let from = history.point(node.point).from;
            let over = ends.partition_point(|end| *end < from);
            most = most.max(begun.saturating_sub(over));
        }
    }
    Ok(most)
}

/// The nodes from one place to another, and those that can have put what they found, at most `most`.
fn nodes_round(
    history: &History<'_>,
    nodes: &Vec<Node>,
    from: usize,
    to: usize,
    most: usize,
) -> Result<Vec<Node>, NoMemory> {
    let alloc = history.alloc;
    let mut chosen = Vec::new(alloc);
    let Some(nodes) = nodes.get(from..to) else {
        return Ok(chosen);
    };
    chosen.extend_from_slice(nodes)?;
    for node in nodes {
        for block in history.found_at(*node) {
            let Some(sought) = history.sought(node.point, *block) else {
                continue;
            };
            let servers = history.servers(node.point, *block, sought, SERVERS)?;
            for server in &servers.unwrap_or(Vec::new(alloc)) {
                if chosen.len() < most {
                    chosen.push(history.node(*server, *block))?;
                }
            }
        }
    }
    Ok(chosen)
}

/// The contradiction of the component's nodes, which are by when they began: of all together if they are at most `most`, and else of some
/// that are side by side.
pub fn in_stretches(
    history: &History<'_>,
    nodes: &Vec<Node>,
    most: usize,
) -> Result<Option<Named>, NoMemory> {
    if nodes.len() <= most {
        return least_contradiction(history, nodes);
    }
    let crowd = most_under_way(history, nodes)?;
    let stretch = crowd.saturating_mul(TIMES).max(STRETCH).min(most);
    let mut best: Option<Named> = None;
    let mut tries = 0usize;
    let mut from = 0usize;
    for _turn in 0..nodes.len() {
        let to = from.saturating_add(stretch).min(nodes.len());
        let some = nodes_round(history, nodes, from, to, stretch.saturating_mul(2))?;
        let found = least_contradiction(history, &some)?;
        if found.is_some() {
            best = shorter(best, found);
            tries = tries.saturating_add(1);
        }
        if is_short(&best) || tries == TRIES || to == nodes.len() {
            break;
        }
        from = from.saturating_add(stretch / 2);
    }
    Ok(best)
}
