//! What comes before what, as far as the acts alone say it.
use crate::numbers::{Numbers, ZERO};
use crate::order::acts::{NONE, Wants};
use crate::order::derivation::{Derivation, Open};
use crate::order::lists::Group;
use crate::order::making::Part;
use crate::order::precedence::Precedence;
use crate::order::state::State;
use nvm_record::NoMemory;
use std::alloc::Global;

/// How often sources are looked for at most.
const ROUNDS: u32 = 16;
/// How many others may begin while one goes on: of one that goes on longer nothing is asked.
const MOST_BESIDE: usize = 2048;

/// The ends of acts that are surely done, and 0 of others, counted from 1: of those that are done since nobody else can have put what
/// somebody found, when it was found.
fn ends_of(alloc: Global, part: &Part) -> Result<Numbers, NoMemory> {
    let mut ends = Numbers::new(alloc, part.acts.len(), 0)?;
    for number in 0..part.count() {
        let act = part.act(number);
        if act.sure && !act.any {
            ends.put(number, act.until.saturating_add(1));
        }
    }
    if part.starts_unknown {
        return Ok(ends);
    }
    for slot in 0..part.slots.count() {
        let givers = part.lists.of(Group::Givers(slot));
        let anything = part.lists.of(Group::Anything(part.slots.block(slot)));
        if givers.len() != 1 || !anything.is_empty() || part.slots.value(slot) == ZERO {
            continue;
        }
        let Some(giver) = givers.first() else {
            continue;
        };
        let giver = giver.act;
        for finder in part.lists.of(Group::Finders(slot)) {
            if finder.act != giver {
                let known = match ends.at(giver) {
                    0 => part.act(giver).until.saturating_add(1),
                    known => known,
                };
                let found = part.act(finder.act).until.saturating_add(1);
                ends.put(giver, known.min(found));
            }
        }
    }
    Ok(ends)
}

impl<'p> Derivation<'p> {
    /// Nothing is known.
    pub fn none(alloc: Global, part: &'p Part) -> Result<Derivation<'p>, NoMemory> {
        Ok(Derivation {
            part,
            nodes: Numbers::of(Vec::new(alloc)),
            acts: Numbers::of(Vec::new(alloc)),
            order: Precedence::none(alloc)?,
            links: State::new(alloc, 0)?,
            reach: Numbers::of(Vec::new(alloc)),
            open: Vec::new(alloc),
        })
    }

    /// What follows for the part. Nothing where it has too many acts.
    pub fn new(alloc: Global, part: &'p Part) -> Result<Derivation<'p>, NoMemory> {
        let mut made = Derivation::none(alloc, part)?;
        let times = made.find_nodes(alloc)?;
        made.order = Precedence::new(alloc, &times)?;
        if made.is_none() {
            return Ok(made);
        }
        made.nodes = Numbers::new(alloc, part.acts.len(), 0)?;
        for node in 0..made.order.count() {
            let act = made.acts.at(node);
            made.nodes.put(act, node.saturating_add(1));
        }
        made.links = State::new(alloc, part.cells.len().saturating_mul(3))?;
        made.note_reach(alloc)?;
        made.derive()?;
        for node in 0..made.order.count() {
            let act = part.act(made.acts.at(node));
            for cell in act.cell..act.cells_end() {
                if made.source(cell) == 0 && matches!(&part.cell(cell).wants, Wants::Slot(_)) {
                    made.open.push(Open {
                        block: part.cell(cell).block,
                        from: act.from,
                        cell,
                    })?;
                }
            }
        }
        made.open.sort()?;
        made.order.bits.keep();
        made.links.keep();
        Ok(made)
    }

    /// Whether nothing is known.
    pub fn is_none(&self) -> bool {
        self.order.count() == 0
    }

    /// Finds the acts that are surely done, by beginning, and gives their times.
    fn find_nodes(&mut self, alloc: Global) -> Result<Vec<(u32, u32)>, NoMemory> {
        let part = self.part;
        let ends = ends_of(alloc, part)?;
        let mut begun = Vec::new(alloc);
        for entry in part.lists.of(Group::All) {
            if ends.at(entry.act) != 0 {
                begun.push((entry.time, entry.act))?;
            }
        }
        let mut acts = Vec::with_capacity(alloc, begun.len())?;
        let mut times = Vec::with_capacity(alloc, begun.len())?;
        for place in 0..begun.len() {
            let (from, act) = begun[place];
            let end = ends.at(act).saturating_sub(1);
            let beside = begun
                .partition_point(|other| other.0 <= end)
                .saturating_sub(place);
            if beside <= MOST_BESIDE {
                acts.push(act)?;
                times.push((from, end))?;
            }
        }
        self.acts = Numbers::of(acts);
        Ok(times)
    }

    /// Notes how far the givers of each slot reach.
    fn note_reach(&mut self, alloc: Global) -> Result<(), NoMemory> {
        let part = self.part;
        let mut reach = Vec::new(alloc);
        for slot in 0..part.slots.count() {
            let mut latest = 0;
            for giver in part.lists.of(Group::Givers(slot)) {
                latest = part.act(giver.act).until.max(latest);
                reach.push(latest)?;
            }
        }
        self.reach = Numbers::of(reach);
        Ok(())
    }

    /// Draws all consequences.
    fn derive(&mut self) -> Result<(), NoMemory> {
        for number in 0..self.part.count() {
            let before = self.part.act(number).before;
            if before != NONE {
                if let (Some(one), Some(other)) = (self.node(before), self.node(number)) {
                    self.order.add(one, other)?;
                }
            }
        }
        self.follow()?;
        for _ in 0..ROUNDS {
            if self.order.is_absurd || !self.find_sources()? {
                break;
            }
            self.follow()?;
        }
        Ok(())
    }

    /// Looks for sources that are sure. Says whether one was found.
    fn find_sources(&mut self) -> Result<bool, NoMemory> {
        let part = self.part;
        let mut is_found = false;
        for node in 0..self.order.count() {
            let act = part.act(self.acts.at(node));
            for cell in act.cell..act.cells_end() {
                if let Wants::Slot(slot) = part.cell(cell).wants {
                    if self.source(cell) == 0 {
                        let source = self.source_of(None, node, slot);
                        if source != 0 {
                            is_found = true;
                            self.set_source(node, cell, source)?;
                        }
                    }
                }
            }
        }
        Ok(is_found)
    }
}
