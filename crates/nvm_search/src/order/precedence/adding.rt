//! What is noted where one node is found to come before another.
use crate::order::precedence::{Precedence, bit, take_node};
use nvm_record::NoMemory;

impl Precedence {
    /// Notes that the one comes before the other, and what follows by that alone. What is done needs no row: it comes before all that isn't.
    pub fn add(&mut self, one: u32, other: u32) -> Result<(), NoMemory> {
        if self.is_absurd || self.is_before(one, other) {
            return Ok(());
        }
        if one == other || self.is_before(other, one) {
            self.is_absurd = true;
            return Ok(());
        }
        for word in self.open_words(other) {
            let own = if word == one / 32 { bit(one) } else { 0 };
            let known = self.before(other, word) | self.bits.at(self.done_place(word));
            let mut left = (self.before(one, word) | own) & !known;
            for _ in 0..32 {
                let Some(node) = take_node(word, &mut left) else {
                    break;
                };
                self.add_all_after(node, other)?;
            }
        }
        Ok(())
    }

    /// Notes that the node comes before `other` and all after that.
    fn add_all_after(&mut self, node: u32, other: u32) -> Result<(), NoMemory> {
        let row = self.row(node);
        let open = self.open_words(node);
        for word in open.start.max(self.row(other).first)..open.end {
            let own = if word == other / 32 { bit(other) } else { 0 };
            let known = self.bits.at(row.at(word));
            let mut left = (self.after(other, word) | own) & !known;
            if left == 0 {
                continue;
            }
            self.bits.set(row.at(word), known | left)?;
            let mut end = self.end(node);
            for _ in 0..32 {
                let Some(later) = take_node(word, &mut left) else {
                    break;
                };
                self.note_before(later, node)?;
                self.found.push((node, later))?;
                end = end.min(self.row(later).until);
            }
            let place = self.end_place(node);
            self.bits.set(place, end)?;
        }
        Ok(())
    }

    /// Notes in the node's row that another comes before it.
    fn note_before(&mut self, node: u32, other: u32) -> Result<(), NoMemory> {
        let row = self.row(node);
        let word = other / 32;
        if word < row.first || word > row.last {
            return Ok(());
        }
        let place = row.at(word).saturating_add(self.words);
        let known = self.bits.at(place);
        self.bits.set(place, known | bit(other))
    }
}
