//! Contradictions with the commands that they name, by which the shorter one is chosen.
use crate::contradiction::history::History;
use nvm_record::NoMemory;
use nvm_standard::{Conclusion, Contradiction, Fact, Node};

/// So few commands a contradiction has that none with fewer is looked for.
const FEW: usize = 3;

/// A contradiction, and whom it names.
#[derive(Drop)]
pub struct Named {
    pub contradiction: Contradiction,
    /// The nodes that it names, and others of which it speaks.
    pub nodes: Vec<Node>,
    /// The numbers of their commands, rising.
    pub commands: Vec<u32>,
}

/// Puts the nodes that the fact names at the end, one of them maybe twice.
pub fn put_named(nodes: &mut Vec<Node>, history: &History<'_>, fact: Fact) -> Result<(), NoMemory> {
    let named = match fact {
        Fact::Time { earlier, later } => {
            let later = (later.point, later.block);
            [(earlier.point, earlier.block), later, later]
        }
        Fact::Deallocate {
            deallocate: one,
            writer: other,
            block,
        }
        | Fact::Source {
            writer: one,
            reader: other,
            block,
        }
        | Fact::First {
            reader: one,
            writer: other,
            block,
        } => [(one, block), (other, block), (other, block)],
        Fact::Own { later, block } => {
            [
                (later.saturating_sub(1), block),
                (later, block),
                (later, block),
            ]
        }
        Fact::Over {
            reader,
            writer,
            block,
            source,
        }
        | Fact::Under {
            writer,
            source,
            block,
            reader,
        } => [(reader, block), (writer, block), (source, block)],
        Fact::AtFirst { reader, block } => [(reader, block), (reader, block), (reader, block)],
        Fact::TiedBefore {
            reader,
            block,
            entry,
            by,
        }
        | Fact::TiedAfter {
            entry,
            reader,
            block,
            by,
        } => [(reader, block), (reader, by), (entry, block)],
    };
    for (point, block) in named {
        nodes.push(history.node(point, block))?;
    }
    Ok(())
}

impl Named {
    /// The contradiction, which speaks of those nodes, too.
    pub fn of(
        history: &History<'_>,
        contradiction: Contradiction,
        others: Vec<Node>,
    ) -> Result<Named, NoMemory> {
        let alloc = history.alloc;
        let mut nodes = Vec::new(alloc);
        for fact in &contradiction.facts {
            put_named(&mut nodes, history, *fact)?;
        }
        match contradiction.conclusion {
            Conclusion::Loop => {}
            Conclusion::Nobody { reader, block } => nodes.push(history.node(reader, block))?,
            Conclusion::Nowhere { reader } => {
                let point = history.point(reader);
                for place in 0..point.blocks {
                    nodes.push(history.node(reader, point.first.saturating_add(place)))?;
                }
            }
        }
        let mut commands = Vec::new(alloc);
        for node in &nodes {
            commands.push(history.point(node.point).command)?;
        }
        commands.sort_unstable();
        commands.dedup();
        nodes.extend_from_slice(&others)?;
        nodes.sort_unstable_by_key(|node| (node.point, node.block));
        nodes.dedup();
        Ok(Named {
            contradiction,
            nodes,
            commands,
        })
    }

    /// Whether it is shorter: it has fewer commands, or as many and fewer facts.
    pub fn is_shorter(&self, other: &Named) -> bool {
        (self.commands.len(), self.contradiction.facts.len())
            < (other.commands.len(), other.contradiction.facts.len())
    }
}

/// Whether it has so few commands that none with fewer is looked for.
pub fn is_short(found: &Option<Named>) -> bool {
    match found {
        Some(named) => named.commands.len() <= FEW,
        None => false,
    }
}

/// The shorter of two, as far as they are there.
pub fn shorter(one: Option<Named>, other: Option<Named>) -> Option<Named> {
    match (one, other) {
        (Some(one), Some(other)) => {
            if other.is_shorter(&one) {
                Some(other)
            } else {
                Some(one)
            }
        }
        (Some(one), None) => Some(one),
        (None, other) => other,
    }
}
