//! Which acts come before which.
mod adding;
mod done;

use crate::numbers::to_u32;
use crate::order::state::State;
use nvm_record::NoMemory;
use std::alloc::Global;

/// How many words all rows may have together.
const MOST_WORDS: u32 = 1 << 23;

/// What the times of a node say.
#[derive(Clone, Copy)]
struct Row {
    until: u32,
    /// The first and the last word of what they leave open.
    first: u32,
    last: u32,
    /// Where the row of those words stands among all words.
    place: u32,
}

/// Where there is no node.
const NO_ROW: Row = Row {
    until: 0,
    first: 0,
    last: 0,
    place: 0,
};

/// What comes before what among nodes, which are acts by beginning. It is closed: what comes before something comes before all that this
/// comes before. Of each node only those are kept that its times leave open.
#[derive(Drop)]
pub struct Precedence {
    rows: Vec<Row>,
    /// How many words there are. Rows of what comes after a node come first, and those of what comes before it so many words later.
    words: u32,
    pub bits: State,
    /// Pairs that were found and whose consequences weren't drawn yet.
    pub found: Vec<(u32, u32)>,
    /// Whether something would have to come before itself.
    pub is_absurd: bool,
}

/// The bit of a node in its word.
fn bit(node: u32) -> u32 {
    1u32 << (node % 32)
}

/// Takes the first node of those of a word that are left.
pub fn take_node(word: u32, left: &mut u32) -> Option<u32> {
    if *left == 0 {
        return None;
    }
    let node = word
        .saturating_mul(32)
        .saturating_add(left.trailing_zeros());
    *left &= left.wrapping_sub(1);
    Some(node)
}

impl Row {
    /// Where a word of what comes after the node stands.
    fn at(&self, word: u32) -> u32 {
        self.place.saturating_add(word.saturating_sub(self.first))
    }
}

impl Precedence {
    /// No nodes.
    pub fn none(alloc: Global) -> Result<Precedence, NoMemory> {
        Ok(Precedence {
            rows: Vec::new(alloc),
            words: 0,
            bits: State::new(alloc, 0)?,
            found: Vec::new(alloc),
            is_absurd: false,
        })
    }

    /// Nodes of these beginnings, rising, and ends, of which nothing but their times is known. No nodes where there are too many.
    pub fn new(alloc: Global, times: &Vec<(u32, u32)>) -> Result<Precedence, NoMemory> {
        let mut made = Precedence::none(alloc)?;
        // The latest end among the nodes up to each.
        let mut ends = Vec::with_capacity(alloc, times.len())?;
        let mut latest = 0;
        for time in times {
            latest = time.1.max(latest);
            ends.push(latest)?;
        }
        for time in times {
            let (from, until) = *time;
            let first = to_u32(ends.partition_point(|end| *end < from)) / 32;
            let begun = to_u32(times.partition_point(|time| time.0 <= until));
            let last = begun.saturating_sub(1) / 32;
            made.rows.push(Row {
                until,
                first,
                last,
                place: made.words,
            })?;
            let words = last.saturating_sub(first).saturating_add(1);
            made.words = made.words.saturating_add(words);
            if made.words > MOST_WORDS {
                return Precedence::none(alloc);
            }
        }
        let state_len = made.turn_place(made.count()).saturating_add(1);
        made.bits = State::new(alloc, state_len as usize)?;
        made.note_times(times)?;
        Ok(made)
    }

    /// How many nodes there are.
    pub fn count(&self) -> u32 {
        to_u32(self.rows.len())
    }

    /// What the node's times say.
    fn row(&self, node: u32) -> Row {
        match self.rows.get(node as usize) {
            Some(row) => *row,
            None => NO_ROW,
        }
    }

    /// Notes what the times say where rows have it.
    fn note_times(&mut self, times: &Vec<(u32, u32)>) -> Result<(), NoMemory> {
        for node in 0..self.count() {
            let Some(time) = times.get(node as usize) else {
                break;
            };
            let (from, until) = *time;
            let place = self.end_place(node);
            self.bits.set(place, until)?;
            let row = self.row(node);
            for word in row.first..row.last.saturating_add(1) {
                let mut before = 0u32;
                let mut after = 0u32;
                for place in 0..32u32 {
                    let other = word.saturating_mul(32).saturating_add(place);
                    let Some(time) = times.get(other as usize) else {
                        break;
                    };
                    if time.1 < from {
                        before |= bit(other);
                    }
                    if until < time.0 {
                        after |= bit(other);
                    }
                }
                let place = row.at(word);
                self.bits.set(place, after)?;
                self.bits.set(place.saturating_add(self.words), before)?;
            }
        }
        Ok(())
    }

    /// Which nodes of a word come after the node.
    fn after(&self, node: u32, word: u32) -> u32 {
        let row = self.row(node);
        if word < row.first {
            return 0;
        }
        if word <= row.last {
            return self.bits.at(row.at(word));
        }
        let left = self.count().saturating_sub(word.saturating_mul(32));
        if left >= 32 {
            u32::MAX
        } else {
            bit(left).wrapping_sub(1)
        }
    }

    /// Which nodes of a word come before the node.
    fn before(&self, node: u32, word: u32) -> u32 {
        let row = self.row(node);
        if word < row.first {
            return u32::MAX;
        }
        if word > row.last {
            return 0;
        }
        self.bits.at(row.at(word).saturating_add(self.words))
    }

    /// The first node of the first word of what the node's times leave open.
    pub fn first_beside(&self, node: u32) -> u32 {
        self.row(node).first.saturating_mul(32)
    }

    /// The last word of what the node's times leave open.
    pub fn last_word(&self, node: u32) -> u32 {
        self.row(node).last
    }

    /// Whether the one comes before the other.
    pub fn is_before(&self, one: u32, other: u32) -> bool {
        match (self.turn(one), self.turn(other)) {
            (0, 0) => self.after(one, other / 32) & bit(other) != 0,
            (_, 0) => true,
            (0, _) => false,
            (early, late) => early < late,
        }
    }

    /// Where the word of nodes that are done stands.
    fn done_place(&self, word: u32) -> u32 {
        self.words.saturating_mul(2).saturating_add(word)
    }

    /// When the node has to be done at the latest: before the end of all that come after it.
    pub fn end(&self, node: u32) -> u32 {
        self.bits.at(self.end_place(node))
    }

    /// Where the end of a node stands.
    fn end_place(&self, node: u32) -> u32 {
        self.done_place(self.count() / 32)
            .saturating_add(1)
            .saturating_add(node)
    }

    /// Where the first word stands that has nodes which aren't done.
    fn open_place(&self) -> u32 {
        self.turn_place(self.count())
    }

    /// Where it stands when the node was done.
    fn turn_place(&self, node: u32) -> u32 {
        self.end_place(self.count()).saturating_add(node)
    }

    /// Goes back to the mark.
    pub fn back(&mut self, mark: u32) {
        self.bits.back(mark);
        self.found.clear();
        self.is_absurd = false;
    }
}
