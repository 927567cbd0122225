//! The way back from where no move leads on: which steps were in the way, and to which turn the search returns.
use crate::order::board::Field;
use crate::order::lists::Group;
use crate::order::search::{FEW, Search, Turn};
use nvm_record::NoMemory;

/// The least that a leap takes back, and how often that is doubled before it begins again.
const SHORT: usize = 8;

const DOUBLED: u32 = 10;
/// How many changes of a state are as much work as a look at an act.
const CHANGES: u32 = 16;
/// How many of those who gave a slot are looked at for one that needn't have yet.
const MOST_BLAMED: usize = 64;
/// How often the search begins again after no move was left: which were left out may be wrong.
const MOST_EXHAUSTED: u32 = 64;

impl<'p> Search<'p> {
    /// Notes that the step of a field was in the way.
    pub(super) fn blame(&mut self, field: Field) -> Result<(), NoMemory> {
        let step = self.board.at(field);
        if step != 0 {
            self.conflict.push(step)?;
        }
        Ok(())
    }

    /// Notes that those who gave the slot and needn't have yet were in the way. Every other time it is left out: the search goes farther
    /// back by that.
    pub(super) fn blame_givers(&mut self, slot: u32) -> Result<(), NoMemory> {
        if !self.known.is_none() && self.seed % 2 == 0 {
            return Ok(());
        }
        let part = self.board.part;
        let givers = part.lists.up_to(Group::Givers(slot), self.board.horizon);
        for giver in givers.iter().rev().take(MOST_BLAMED) {
            let step = self.board.at(Field::Step(giver.act));
            if step != 0 && part.act(giver.act).until >= self.board.at(Field::Latest) {
                self.conflict.push(step)?;
            }
        }
        Ok(())
    }

    /// Gives up the last turn.
    pub(super) fn drop_turn(&mut self, start: usize) {
        self.moves.truncate(start);
        self.turns.pop();
        self.conflicts.pop();
    }

    /// Takes back all that was done since the turn. That was work.
    pub(super) fn return_to(&mut self, turn: &Turn) {
        let board = &mut self.board;
        let changes = board
            .state
            .mark()
            .saturating_sub(turn.mark)
            .saturating_add(self.known.mark().0.saturating_sub(turn.known_mark.0));
        let steps = board.steps.len().saturating_sub(turn.steps);
        self.left_in_all = self
            .left_in_all
            .saturating_sub(steps as u64)
            .saturating_sub(u64::from(changes / CHANGES));
        board.state.back(turn.mark);
        board.steps.truncate(turn.steps);
        board.hash = turn.hash;
        self.known.back(turn.known_mark);
    }

    /// Takes back many moves, more each time, and draws others from there on. Says whether there is anything left to be tried.
    pub(super) fn leap(&mut self) -> bool {
        if self.left_back > 0 {
            self.exhausted = self.exhausted.saturating_add(1);
        }
        if self.left_in_all == 0 || self.exhausted > MOST_EXHAUSTED {
            return false;
        }
        let distance = SHORT << (self.leaps % DOUBLED);
        let kept = self.most.saturating_sub(distance);
        let mut back = Turn::default();
        for _ in 0..u64::MAX {
            let Some(turn) = self.turns.last() else {
                break;
            };
            let turn = *turn;
            self.drop_turn(turn.start);
            if turn.steps <= kept {
                back = turn;
                break;
            }
        }
        self.return_to(&back);
        self.leaps = self.leaps.saturating_add(1);
        self.seed = self.seed.saturating_add(1);
        self.left_back = FEW;
        true
    }

    /// Goes back to the turn at which the last step in the way was made, and makes another move there. Says whether there was one.
    pub(super) fn go_back(&mut self) -> Result<bool, NoMemory> {
        for _ in 0..u64::MAX {
            if self.left_back == 0 || self.left_in_all == 0 {
                break;
            }
            let Some(turn) = self.turns.last() else {
                break;
            };
            let turn = *turn;
            // Where no step is known to have been in the way it is the last.
            if let Some(last) = self.conflict.iter().copied().max() {
                if last as usize <= turn.steps {
                    self.drop_turn(turn.start);
                    continue;
                }
            }
            self.left_back = self.left_back.saturating_sub(1);
            self.return_to(&turn);
            // Those in the way before the turn, and of its moves that were given up before.
            self.conflict.retain(|step| *step as usize <= turn.steps);
            if let Some(old) = self.conflicts.last() {
                self.conflict.extend_from_slice(old)?;
            }
            self.conflict.sort()?;
            self.conflict.dedup();
            self.settle()?;
            self.find_moves(turn.start, self.wanted)?;
            if turn.next >= self.moves.len() && !turn.all {
                self.find_all_moves(turn.start)?;
                if let Some(last) = self.turns.last_mut() {
                    last.all = true;
                }
            }
            if turn.next < self.moves.len() {
                if let Some(in_way) = self.conflicts.last_mut() {
                    std::mem::swap(in_way, &mut self.conflict);
                }
                self.take_move()?;
                return Ok(true);
            }
            self.failed.note(turn.hash)?;
            self.drop_turn(turn.start);
        }
        Ok(false)
    }
}
