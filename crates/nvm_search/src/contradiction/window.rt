//! Some nodes of a table that are looked at together, with what they found and whose it may be.
use crate::contradiction::contents::Sought;
use crate::contradiction::history::History;
use crate::contradiction::place_set::PlaceSet;
use nvm_record::NoMemory;
use nvm_standard::{Node, Point, Put};

/// The most points that can have put what one found, where that is looked at.
pub const SERVERS: usize = 64;

/// A node of a window. They are ordered by when they began.
#[derive(Clone, Copy, PartialEq, Eq, PartialOrd, Ord)]
pub struct Member {
    pub from: u64,
    pub point: u32,
    pub block: u32,
}

/// What a node of a window found in a block, where all that can have put it there are in the window.
#[derive(Drop)]
pub struct WindowFind {
    pub reader: usize,
    pub block: u32,
    /// The block's place in the window's.
    pub at: usize,
    pub sought: Sought,
    /// Those that can have put it, by the times.
    pub writers: Vec<usize>,
    /// Whether it can have been there at first, by the times.
    pub was_first: bool,
    /// Those that surely found something else in the block.
    pub others: PlaceSet,
}

/// An entry, and two or more nodes of a tied point at blocks of the entry.
#[derive(Drop)]
pub struct Tie {
    pub entry: usize,
    pub readers: Vec<usize>,
}

/// Some nodes of a table, named by their places among these alone.
#[derive(Drop)]
pub struct Window<'a> {
    pub history: &'a History<'a>,
    /// The nodes, rising.
    pub members: Vec<Member>,
    /// For each node the first place of those that began after its time was over.
    pub next: Vec<usize>,
    /// The blocks in which something was found, rising.
    pub blocks: Vec<u32>,
    pub finds: Vec<WindowFind>,
    pub ties: Vec<Tie>,
}

/// The node as a member of a window.
fn member_of(history: &History<'_>, node: Node) -> Member {
    Member {
        from: history.point(node.point).from,
        point: node.point,
        block: node.block,
    }
}

impl<'a> Window<'a> {
    /// The window of these nodes.
    pub fn new(history: &'a History<'a>, nodes: &Vec<Node>) -> Result<Window<'a>, NoMemory> {
        let alloc = history.alloc;
        let mut members = Vec::with_capacity(alloc, nodes.len())?;
        let mut blocks = Vec::new(alloc);
        for node in nodes {
            members.push(member_of(history, *node))?;
            blocks.extend_from_slice(history.found_at(*node))?;
        }
        members.sort_unstable();
        members.dedup();
        blocks.sort_unstable();
        blocks.dedup();
        let mut next = Vec::with_capacity(alloc, members.len())?;
        for member in &members {
            let until = history.until(member.point);
            next.push(members.partition_point(|it| it.from <= until))?;
        }
        let mut window = Window {
            history,
            members,
            next,
            blocks,
            finds: Vec::new(alloc),
            ties: Vec::new(alloc),
        };
        window.put_finds()?;
        window.put_ties()?;
        Ok(window)
    }

    /// The node at the place.
    pub fn node(&self, place: usize) -> Node {
        match self.members.get(place) {
            Some(member) => Node {
                point: member.point,
                block: member.block,
            },
            None => Node { point: 0, block: 0 },
        }
    }

    /// The point of the node.
    pub fn point(&self, place: usize) -> &Point<'a> {
        self.history.point(self.node(place).point)
    }

    /// The place of the point's node at the block.
    pub fn place(&self, point: u32, block: u32) -> Option<usize> {
        let node = self.history.node(point, block);
        match self.members.binary_search(&member_of(self.history, node)) {
            Ok(place) => Some(place),
            Err(_) => None,
        }
    }

    /// The places in the window's blocks of those of the node: from one up to another.
    pub fn blocks_at(&self, place: usize) -> (usize, usize) {
        let blocks = self.history.found_at(self.node(place));
        let Some(first) = blocks.first() else {
            return (0, 0);
        };
        let first = *first;
        let at = self.blocks.partition_point(|block| *block < first);
        (at, at.saturating_add(blocks.len()))
    }

    /// Those that can have put in the block what the point found, if all are in the window.
    fn writers_of(
        &self,
        reader: u32,
        block: u32,
        sought: Sought,
    ) -> Result<Option<Vec<usize>>, NoMemory> {
        let Some(servers) = self.history.servers(reader, block, sought, SERVERS)? else {
            return Ok(None);
        };
        let mut writers = Vec::with_capacity(self.history.alloc, servers.len())?;
        for server in &servers {
            match self.place(*server, block) {
                Some(place) => writers.push(place)?,
                None => return Ok(None),
            }
        }
        Ok(Some(writers))
    }

    fn put_finds(&mut self) -> Result<(), NoMemory> {
        let history = self.history;
        let alloc = history.alloc;
        // For each block what was surely found there, and by which node.
        let mut found: Vec<Vec<(u32, usize)>> = Vec::with_capacity(alloc, self.blocks.len())?;
        for _block in &self.blocks {
            found.push(Vec::new(alloc))?;
        }
        let mut finds = Vec::new(alloc);
        for reader in 0..self.members.len() {
            let point = self.node(reader).point;
            let (from, to) = self.blocks_at(reader);
            for at in from..to {
                let (Some(block), Some(found)) = (self.blocks.get(at), found.get_mut(at)) else {
                    break;
                };
                let block = *block;
                let Some(sought) = history.sought(point, block) else {
                    continue;
                };
                if let (Sought::Value(value), true) = (sought, history.is_there(point)) {
                    found.push((value, reader))?;
                }
                if let Some(writers) = self.writers_of(point, block, sought)? {
                    finds.push(WindowFind {
                        reader,
                        block,
                        at,
                        sought,
                        writers,
                        was_first: history.may_be_first(point, block, sought),
                        others: PlaceSet::new(alloc, self.members.len())?,
                    })?;
                }
            }
        }
        for find in finds.iter_mut() {
            let Some(found) = found.get(find.at) else {
                continue;
            };
            for (value, reader) in found {
                if !find.sought.may_be(*value) {
                    find.others.put(*reader);
                }
            }
        }
        self.finds = finds;
        Ok(())
    }

    /// Puts the ties of each point that puts several blocks at one moment.
    fn put_ties(&mut self) -> Result<(), NoMemory> {
        let history = self.history;
        let alloc = history.alloc;
        let mut tied = Vec::new(alloc);
        for (place, member) in self.members.iter().enumerate() {
            if history.point(member.point).tied {
                tied.push((member.point, member.block, place))?;
            }
        }
        tied.sort_unstable();
        for (entry, member) in self.members.iter().enumerate() {
            let point = history.point(member.point);
            let puts = match point.put {
                Put::Nothing => false,
                _ => true,
            };
            if !puts || point.each || point.blocks < 2 {
                continue;
            }
            let mut last = None;
            for (reader, block, place) in &tied {
                if *block < point.first || *block - point.first >= point.blocks {
                    continue;
                }
                if last != Some(*reader) {
                    self.ties.push(Tie {
                        entry,
                        readers: Vec::new(alloc),
                    })?;
                    last = Some(*reader);
                }
                if let Some(tie) = self.ties.last_mut() {
                    tie.readers.push(*place)?;
                }
            }
        }
        self.ties.retain(|tie| tie.readers.len() > 1);
        Ok(())
    }
}
