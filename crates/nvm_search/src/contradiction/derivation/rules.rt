//! The rules of a derivation: what each gives by what is known.
use crate::contradiction::contents::Sought;
use crate::contradiction::derivation::{Derivation, Derived, Rule};
use crate::contradiction::window::WindowFind;
use nvm_record::NoMemory;
use nvm_standard::{Presence, Put};

impl<'a> Derivation<'a> {
    /// What comes before what by what the table says of two nodes alone.
    pub(super) fn put_given(&mut self) -> Result<(), NoMemory> {
        let window = self.window;
        let alloc = window.history.alloc;
        for (place, member) in window.members.iter().enumerate() {
            let point = window.history.point(member.point);
            if point.after && member.point > 0 {
                if let Some(before) = window.place(member.point - 1, member.block) {
                    self.put(before, place, Rule::Own { by: place })?;
                    self.owns.push((before, place))?;
                }
            }
            if let (Put::Deallocated, Some(over), Ok(at)) = (
                point.put,
                point.over,
                window.blocks.binary_search(&member.block),
            ) {
                for later in &self.sure.at(at).places(alloc)? {
                    match window.members.get(*later) {
                        Some(writer) if over < writer.from => {
                            self.put(place, *later, Rule::Deallocate)?;
                        }
                        _ => {}
                    }
                }
            }
        }
        Ok(())
    }

    /// Whether a node of the later one's point is there of which all blocks of the point before are, and which one.
    fn there_by(&self, before: usize, later: usize) -> Option<usize> {
        if self.is_there(later) {
            return Some(later);
        }
        if self.window.point(before).presence == Presence::Together {
            let point = self.window.node(later).point;
            for (_, other) in &self.owns {
                if self.window.node(*other).point == point && self.is_there(*other) {
                    return Some(*other);
                }
            }
        }
        None
    }

    /// Notes of points that come before others that they are there, since those are.
    pub(super) fn put_owns(&mut self) -> Result<(), NoMemory> {
        for at in 0..self.owns.len() {
            let Some(own) = self.owns.get(at) else {
                continue;
            };
            let (before, later) = *own;
            if self.is_there(before) {
                continue;
            }
            if let Some(by) = self.there_by(before, later) {
                self.put_there(before, later, Rule::Own { by })?;
            }
        }
        Ok(())
    }

    /// What a find whose source is known gives: all if it `is_new`, else what is more by what changed, or if `all` since more are there.
    pub(super) fn put_sourced(
        &mut self,
        number: usize,
        find: &WindowFind,
        source: usize,
        is_new: bool,
        all: bool,
    ) -> Result<(), NoMemory> {
        let alloc = self.window.history.alloc;
        let reader = find.reader;
        let by = Rule::Source { find: number };
        if is_new && self.is_there(source) {
            self.put(source, reader, by)?;
        } else if is_new {
            self.put_there(source, reader, by)?;
            self.sure.put(find.at, source);
        }
        if is_new || all || self.orders.changed_after.has(source) {
            let after = &self.orders.after;
            let sure = self.sure.at(find.at);
            for writer in &sure.places_but(alloc, after.at(source), after.at(reader))? {
                if *writer != source && *writer != reader {
                    self.put(reader, *writer, Rule::Over { find: number })?;
                }
            }
        }
        if is_new || all || self.orders.changed_before.has(reader) {
            let before = &self.orders.before;
            let sure = self.sure.at(find.at);
            for writer in &sure.places_but(alloc, before.at(reader), before.at(source))? {
                if *writer != source && *writer != reader {
                    self.put(*writer, source, Rule::Under { find: number })?;
                }
            }
        }
        Ok(())
    }

    /// What the find of a block's first content gives: that it was there at first, if it `is_new`, and that its reader comes before those
    /// that surely put others there.
    pub(super) fn put_first(
        &mut self,
        number: usize,
        find: &WindowFind,
        is_new: bool,
    ) -> Result<(), NoMemory> {
        let alloc = self.window.history.alloc;
        let reader = find.reader;
        if let (true, Sought::Value(value), Some(None)) = (
            is_new,
            find.sought,
            self.firsts.get(find.at),
        ) {
            let index = self.derived.len();
            if let Some(first) = self.firsts.get_mut(find.at) {
                *first = Some((value, index));
            }
            self.derived.push(Derived {
                earlier: reader,
                later: reader,
                by: Rule::AtFirst { find: number },
            })?;
        }
        for later in &self.sure.at(find.at).places(alloc)? {
            if *later != reader {
                self.put(reader, *later, Rule::First { find: number })?;
            }
        }
        Ok(())
    }

    /// What the ties give.
    pub(super) fn put_ties(&mut self) -> Result<(), NoMemory> {
        let window = self.window;
        for tie in &window.ties {
            let mut before = None;
            let mut after = None;
            for reader in &tie.readers {
                if before.is_none() && self.orders.has(*reader, tie.entry) {
                    before = Some(*reader);
                }
                if after.is_none() && self.orders.has(tie.entry, *reader) {
                    after = Some(*reader);
                }
            }
            for reader in &tie.readers {
                match before {
                    Some(by) if by != *reader => {
                        self.put(*reader, tie.entry, Rule::TiedBefore { by })?;
                    }
                    _ => {}
                }
                match after {
                    Some(by) if by != *reader => {
                        self.put(tie.entry, *reader, Rule::TiedAfter { by })?;
                    }
                    _ => {}
                }
            }
        }
        Ok(())
    }
}
