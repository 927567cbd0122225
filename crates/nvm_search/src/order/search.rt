//! The search for an order of a part's acts.
mod clearing;
mod every;
mod fetching;
mod finders;
mod memory;
mod moves;
mod settling;
mod way_back;

use crate::numbers::Numbers;
use crate::order::acts::NONE;
use crate::order::board::{Board, Field, Step, key};
use crate::order::derivation::Derivation;
use crate::order::making::Part;
use crate::order::search::memory::Memory;
use nvm_record::NoMemory;
use std::alloc::Global;

/// An act that can be next, and the slot that it gives where it has a choice.
#[derive(Clone, Copy)]
pub struct Move {
    pub act: u32,
    pub slot: u32,
}

impl Move {
    /// The act, where it has no choice.
    fn of(act: u32) -> Move {
        Move { act, slot: NONE }
    }
}

/// An act that should be done soon. `apart`: even if blocks of its point have to be done later.
#[derive(Clone, Copy)]
pub struct Target {
    pub act: u32,
    pub slot: u32,
    pub apart: bool,
}

/// A moment at which one of several moves could be made.
#[derive(Clone, Copy, Default)]
struct Turn {
    /// The way back to it.
    mark: u32,
    known_mark: (u32, u32),
    steps: usize,
    hash: u64,
    /// Its moves, and which of them is next.
    start: usize,
    next: usize,
    /// Whether its moves are all that there are, and not only those that looked right.
    all: bool,
}

/// Of the state of acts and blocks: an act that was done.
const DONE: u32 = u32::MAX;
/// How many moves may be taken back before one more act is in order than ever before, or the search leaps back.
const FEW: u32 = 100;

/// A search for an order of a part's acts.
#[derive(Drop)]
pub struct Search<'p> {
    alloc: Global,
    /// By which moves are drawn, where it isn't 0.
    seed: u32,
    pub board: Board<'p>,
    turns: Vec<Turn>,
    moves: Vec<Move>,
    targets: Vec<Target>,
    /// The round in which an act was last looked at.
    seen: Numbers,
    round: u32,
    failed: Memory,
    /// How many moves may be taken back before the next leap, and how many acts may be looked at in all.
    left_back: u32,
    pub left_in_all: u64,
    /// How often no move was left.
    exhausted: u32,
    /// How many leaps were made since more acts were in order than ever before.
    leaps: u32,
    /// The steps that were in the way where it got stuck, counted from 1, and the act that couldn't be done.
    conflict: Vec<u32>,
    wanted: u32,
    /// Of each turn, the steps that were in the way of the moves that were given up.
    conflicts: Vec<Vec<u32>>,
    /// The most acts that were ever in order, and which was the most urgent one then.
    most: usize,
    most_urgent: u32,
    /// What comes before what.
    known: Derivation<'p>,
    /// Whether every move is made, and not only those that look right.
    tries_all: bool,
}

impl<'p> Search<'p> {
    pub fn new(
        alloc: Global,
        part: &'p Part,
        effort: u64,
        seed: u32,
        known: Derivation<'p>,
    ) -> Result<Search<'p>, NoMemory> {
        Ok(Search {
            alloc,
            seed,
            board: Board::new(alloc, part)?,
            turns: Vec::new(alloc),
            moves: Vec::new(alloc),
            targets: Vec::new(alloc),
            seen: Numbers::new(alloc, part.acts.len(), 0)?,
            round: 0,
            failed: Memory::new(alloc),
            left_back: FEW,
            left_in_all: effort,
            leaps: 0,
            exhausted: 0,
            conflict: Vec::new(alloc),
            wanted: NONE,
            conflicts: Vec::new(alloc),
            most: 0,
            most_urgent: NONE,
            known,
            tries_all: false,
        })
    }

    /// Puts the act in order.
    fn place(&mut self, made: Move) -> Result<(), NoMemory> {
        let act = self.board.part.act(made.act);
        let latest = self.board.at(Field::Latest).max(act.from);
        let block = self.board.put_all(&act, made.slot)?;
        if !act.again {
            let step = self.board.next_step();
            self.board.set(Field::Step(made.act), step)?;
            self.board.hash ^= key(made.act, DONE);
            self.known.set_done(&self.board, made.act)?;
        }
        self.board.set(Field::Latest, latest)?;
        self.board.steps.push(Step {
            act: made.act,
            slot: made.slot,
            block,
            latest,
        })?;
        Ok(())
    }

    /// Puts the act in order, and those that look at what it gave.
    fn make(&mut self, made: Move) -> Result<(), NoMemory> {
        self.place(made)?;
        let part = self.board.part;
        let act = part.act(made.act);
        if !act.is_look {
            for at in act.cell..act.cells_end() {
                self.settle_block(part.cell(at).block)?;
            }
        }
        Ok(())
    }

    /// Makes a move that leads to the act that has to be done first. Says whether there was one.
    fn go_on(&mut self, urgent: u32) -> Result<bool, NoMemory> {
        if self.board.steps.len() > self.most || self.most_urgent == NONE {
            self.most = self.board.steps.len();
            self.most_urgent = urgent;
            self.left_back = FEW;
            self.leaps = 0;
        }
        self.conflict.clear();
        self.wanted = urgent;
        if self.failed.has(self.board.hash) || self.known.order.is_absurd {
            return Ok(false);
        }
        let mut turn = self.turn(false);
        self.find_moves(turn.start, urgent)?;
        if self.moves.len() == turn.start && self.conflict.is_empty() {
            self.find_all_moves(turn.start)?;
            turn.all = true;
        }
        if self.moves.len() == turn.start {
            return Ok(false);
        }
        self.draw(turn.start);
        self.turns.push(turn)?;
        let in_way = std::mem::replace(&mut self.conflict, Vec::new(self.alloc));
        self.conflicts.push(in_way)?;
        self.take_move()?;
        Ok(true)
    }

    /// A turn at this moment, whose moves are those that are found from now on.
    fn turn(&self, all: bool) -> Turn {
        Turn {
            mark: self.board.state.mark(),
            known_mark: self.known.mark(),
            steps: self.board.steps.len(),
            hash: self.board.hash,
            start: self.moves.len(),
            next: self.moves.len(),
            all,
        }
    }

    /// Puts one of the moves from `start` on first: with a seed not always the first.
    fn draw(&mut self, start: usize) {
        let count = self.moves.len().saturating_sub(start);
        if self.seed == 0 || count < 2 {
            return;
        }
        let drawn = key(self.seed, self.left_back) ^ self.board.hash;
        if drawn % 4 == 0 {
            let other = start.saturating_add((drawn >> 8) as usize % count);
            if other < self.moves.len() && start < self.moves.len() {
                self.moves.swap(start, other);
            }
        }
    }

    /// Makes the next move of the last turn.
    fn take_move(&mut self) -> Result<(), NoMemory> {
        let Some(turn) = self.turns.last_mut() else {
            return Ok(());
        };
        let Some(made) = self.moves.get(turn.next) else {
            return Ok(());
        };
        let made = *made;
        turn.next = turn.next.saturating_add(1);
        self.make_any(made)
    }

    /// Whether an order was found, which the board has then, or nothing.
    pub fn run(&mut self) -> Result<Option<bool>, NoMemory> {
        for _ in 0..u64::MAX {
            let urgent = self.settle()?;
            if urgent == NONE {
                return Ok(Some(true));
            }
            if !self.go_on(urgent)? && !self.go_back()? && !self.leap() {
                break;
            }
        }
        Ok(None)
    }

    /// The point that had to be next when the most acts were in order.
    pub fn stuck_at(&self) -> u32 {
        self.board.part.act(self.most_urgent).point
    }
}
