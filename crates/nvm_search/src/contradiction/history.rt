//! The points of a table, by the blocks in which something was found.
mod servers;

use crate::contradiction::blocks_found::{MOST_WIDE, blocks_found};
use crate::contradiction::contents::{ANYTHING, Contents, Sought};
use crate::contradiction::writers::{SureWriter, Writer, settle, settle_sure};
use crate::numbers::{MARK, ZERO, to_u32};
use nvm_record::NoMemory;
use nvm_standard::{Deallocated, Found, Node, Point, Points, Presence, Put};
use std::alloc::Global;

/// A point that may put anything is looked at in each of its blocks where it has at most so many in which something was found.
const MOST_TAME: usize = 64;

/// The key of the runs of all that can have put something in a block.
const EVERY: u32 = u32::MAX - 1;

/// Where those are listed that may put anything in very many blocks. No trace has this block.
const NOWHERE: u32 = u32::MAX;

/// Who can have put what in the blocks in which something was found, and who surely put something there.
#[derive(Drop)]
pub struct History<'a> {
    pub alloc: Global,
    pub table: &'a Points<'a>,
    /// What stands for a point that the table doesn't have.
    none: Point<'a>,
    contents: Contents,
    /// The blocks in which something was found, rising.
    pub blocks: Vec<u32>,
    /// Who can have put what there, by block and value, and once more by block alone.
    writers: Vec<Writer>,
    sure: Vec<SureWriter>,
}

/// Whether the point surely puts the block.
pub fn is_sure(point: &Point<'_>, block: u32) -> bool {
    let puts = match point.put {
        Put::Bytes(_) | Put::Zeroes | Put::Mark => true,
        Put::Nothing | Put::Deallocated | Put::Anything => false,
    };
    puts && point.presence == Presence::Sure
        && block >= point.first
        && block - point.first < point.blocks
}

impl<'a> History<'a> {
    /// The history of the table's points, or none where commands without data meet too many blocks.
    pub fn new(alloc: Global, table: &'a Points<'a>) -> Result<Option<History<'a>>, NoMemory> {
        let mut history = History {
            alloc,
            table,
            none: Point {
                command: 0,
                first: 0,
                blocks: 0,
                each: true,
                found: Found::Nothing,
                put: Put::Nothing,
                presence: Presence::Optional,
                after: false,
                tied: false,
                from: 0,
                until: None,
                over: None,
            },
            contents: Contents::new(alloc, table)?,
            blocks: blocks_found(alloc, &table.points)?,
            writers: Vec::new(alloc),
            sure: Vec::new(alloc),
        };
        let mut wide = 0usize;
        for (number, point) in table.points.iter().enumerate() {
            wide = wide.saturating_add(history.put_writer(to_u32(number), point)?);
            if wide > MOST_WIDE {
                return Ok(None);
            }
        }
        settle(&mut history.writers);
        settle_sure(&mut history.sure);
        Ok(Some(history))
    }

    /// Lists what the point can have put, and says in how many blocks if it has no data of its own.
    fn put_writer(&mut self, number: u32, point: &Point<'_>) -> Result<usize, NoMemory> {
        let over = match point.put {
            Put::Deallocated => point.over,
            _ => point.until,
        };
        let until = over.unwrap_or(u64::MAX);
        let anything = Writer {
            block: NOWHERE,
            key: ANYTHING,
            value: ANYTHING,
            point: number,
            from: point.from,
            until,
            reach: until,
        };
        if self.is_wild(point) {
            self.writers.push(anything)?;
            return Ok(0);
        }
        let (from, to) = self.places(point.first, point.blocks);
        for at in from..to {
            let Some(block) = self.blocks.get(at) else {
                break;
            };
            let block = *block;
            for value in self.values_put(number, point, block) {
                if let Some(value) = value {
                    for key in [value, EVERY] {
                        self.writers.push(Writer {
                            block,
                            key,
                            value,
                            ..anything
                        })?;
                    }
                }
            }
            if is_sure(point, block) {
                self.sure.push(SureWriter {
                    block,
                    until,
                    from: point.from,
                    point: number,
                })?;
            }
        }
        Ok(match point.put {
            Put::Nothing | Put::Bytes(_) => 0,
            Put::Zeroes | Put::Mark | Put::Deallocated | Put::Anything => to.saturating_sub(from),
        })
    }

    /// What the point can have put in the block.
    fn values_put(&self, number: u32, point: &Point<'_>, block: u32) -> [Option<u32>; 2] {
        let ones = self.contents.ones;
        match point.put {
            Put::Nothing => [None, None],
            Put::Anything => [Some(ANYTHING), None],
            Put::Bytes(_) => {
                let place = block.saturating_sub(point.first);
                [Some(self.contents.put(number, place)), None]
            }
            Put::Zeroes => [Some(ZERO), None],
            Put::Mark => [Some(MARK), None],
            Put::Deallocated => match self.table.deallocated {
                Deallocated::Zeroes => [Some(ZERO), None],
                Deallocated::Ones => [Some(ones), None],
                Deallocated::Either => [Some(ZERO), Some(ones)],
            },
        }
    }

    pub fn point(&self, number: u32) -> &Point<'a> {
        self.table.points.get(number as usize).unwrap_or(&self.none)
    }

    /// The point's node at the block.
    pub fn node(&self, number: u32, block: u32) -> Node {
        let point = self.point(number);
        Node {
            point: number,
            block: if point.each { block } else { point.first },
        }
    }

    /// When the point's time was over, and the end of time if it never was.
    pub fn until(&self, number: u32) -> u64 {
        self.point(number).until.unwrap_or(u64::MAX)
    }

    /// Whether the point is surely done, in each of its blocks.
    pub fn is_there(&self, number: u32) -> bool {
        let point = self.point(number);
        match point.presence {
            Presence::Sure => true,
            Presence::OneOf => point.blocks == 1,
            Presence::Optional | Presence::Together | Presence::Repeated => false,
        }
    }

    /// The places of those of the blocks in which something was found that are among so many from the first on: from one up to another.
    pub fn places(&self, first: u32, blocks: u32) -> (usize, usize) {
        let end = first.saturating_add(blocks);
        let from = self.blocks.partition_point(|block| *block < first);
        let to = self.blocks.partition_point(|block| *block < end);
        (from, to)
    }

    /// Those of the blocks in which something was found that are the point's.
    pub fn found_among(&self, point: &Point<'_>) -> &[u32] {
        let (from, to) = self.places(point.first, point.blocks);
        match self.blocks.get(from..to) {
            Some(blocks) => blocks,
            None => &[],
        }
    }

    /// Those that are of the node.
    pub fn found_at(&self, node: Node) -> &[u32] {
        let point = self.point(node.point);
        if !point.each {
            return self.found_among(point);
        }
        let (from, to) = self.places(node.block, 1);
        match self.blocks.get(from..to) {
            Some(blocks) => blocks,
            None => &[],
        }
    }

    /// Whether the point may put anything in so many blocks that it isn't looked at in each.
    pub fn is_wild(&self, point: &Point<'_>) -> bool {
        match point.put {
            Put::Anything => self.found_among(point).len() > MOST_TAME,
            _ => false,
        }
    }

    /// What the point found in the block if it was there, as far as it is known.
    pub fn sought(&self, number: u32, block: u32) -> Option<Sought> {
        let point = self.point(number);
        let place = block.checked_sub(point.first)?;
        if place >= point.blocks {
            return None;
        }
        let value = self.contents.found(number, place);
        match (point.found, point.presence) {
            (Found::Bytes(_), Presence::Sure | Presence::Together) => Some(Sought::Value(value)),
            (Found::AnyBytes, Presence::Sure) => Some(Sought::Bytes),
            (Found::OtherThan(_), _) => Some(Sought::OtherThan(value)),
            _ => None,
        }
    }
}
