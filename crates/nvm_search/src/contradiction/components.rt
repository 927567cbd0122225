//! The nodes of a table, by components that have nothing to do with each other.
use crate::contradiction::history::History;
use crate::numbers::to_u32;
use nvm_record::NoMemory;
use nvm_standard::{Node, Point, Presence};

/// A node, in its component. They are ordered by component and by when they began.
///
/// Components have nothing to do with each other: no point is done at one moment in blocks of two, none is tied there, and none is done
/// in one of both.
#[derive(Clone, Copy, PartialEq, Eq, PartialOrd, Ord)]
pub struct Placed {
    pub component: u32,
    from: u64,
    point: u32,
    block: u32,
}

/// Whether the blocks of the point have to do with each other.
fn joins(point: &Point<'_>) -> bool {
    match point.presence {
        Presence::OneOf | Presence::Together => true,
        _ => !point.each || point.tied,
    }
}

/// For each of the blocks in which something was found the number of its component.
fn numbers_of(history: &History<'_>) -> Result<Vec<u32>, NoMemory> {
    let blocks = history.blocks.len();
    // For each the end of the blocks that points which begin there join to it.
    let mut ends = vec![in history.alloc; 0usize; blocks]?;
    for point in &history.table.points {
        let (from, to) = history.places(point.first, point.blocks);
        match ends.get_mut(from) {
            Some(end) if joins(point) => *end = to.max(*end),
            _ => {}
        }
    }
    let mut numbers = Vec::with_capacity(history.alloc, blocks)?;
    let mut number = 0u32;
    let mut last = 0;
    for (at, end) in ends.iter().enumerate() {
        if at >= last {
            number = number.saturating_add(1);
        }
        last = last.max(*end);
        numbers.push(number)?;
    }
    Ok(numbers)
}

/// The nodes of the table, by component. These have numbers from 1 on.
pub fn placed_nodes(history: &History<'_>) -> Result<Vec<Placed>, NoMemory> {
    let numbers = numbers_of(history)?;
    let mut placed = Vec::new(history.alloc);
    for (number, point) in history.table.points.iter().enumerate() {
        if history.is_wild(point) {
            continue;
        }
        let (from, to) = history.places(point.first, point.blocks);
        for at in from..to {
            let (Some(block), Some(component)) = (history.blocks.get(at), numbers.get(at)) else {
                break;
            };
            let node = history.node(to_u32(number), *block);
            placed.push(Placed {
                component: *component,
                from: point.from,
                point: node.point,
                block: node.block,
            })?;
            if !point.each {
                break;
            }
        }
    }
    placed.sort_unstable();
    Ok(placed)
}

/// Those of the component of this number.
pub fn nodes_of(
    history: &History<'_>,
    placed: &Vec<Placed>,
    component: u32,
) -> Result<Vec<Node>, NoMemory> {
    let from = placed.partition_point(|it| it.component < component);
    let to = placed.partition_point(|it| it.component <= component);
    let mut nodes = Vec::with_capacity(history.alloc, to.saturating_sub(from))?;
    for at in from..to {
        if let Some(it) = placed.get(at) {
            nodes.push(Node {
                point: it.point,
                block: it.block,
            })?;
        }
    }
    Ok(nodes)
}
