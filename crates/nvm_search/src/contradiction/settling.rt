//! Whose block a node of a window found, by the orders that are known.
use crate::contradiction::derivation::Derivation;
use crate::contradiction::window::WindowFind;
use nvm_record::NoMemory;
use nvm_standard::Presence;

/// Who put what a node found.
#[derive(Clone, Copy, PartialEq, Eq)]
pub enum Whose {
    Writer(usize),
    /// Nobody did: it was there at first.
    First,
    /// Nobody can have, and it can't have been there at first.
    Nobody,
}

/// Who put what a node found, and why no other can have, beside the times.
#[derive(Drop)]
pub struct Settled {
    pub whose: Whose,
    /// The orders by which they can't: each of a node that has to come before another.
    pub orders: Vec<(usize, usize)>,
    /// Those that come between, which have to be there.
    pub between: Vec<usize>,
    /// Where it was derived what was there at first, if it rests on that.
    pub other: Option<usize>,
}

impl Settled {
    /// Puts down by which orders the reader can't have found what the writer put, or what was there at first, if it can't: the writer comes
    /// after it, or one that surely put something there or found something else comes between them.
    fn put_excuse(
        &mut self,
        derivation: &Derivation<'_>,
        find: &WindowFind,
        writer: Option<usize>,
    ) -> Result<bool, NoMemory> {
        let orders = &derivation.orders;
        let before = orders.before.at(find.reader);
        let mut since = before;
        if let Some(writer) = writer {
            if orders.has(find.reader, writer) {
                self.orders.push((find.reader, writer))?;
                return Ok(true);
            }
            since = orders.after.at(writer);
        }
        let sure = derivation.sure.at(find.at).first_with(since, before);
        let found = if sure.is_some() {
            sure
        } else {
            find.others.first_with(since, before)
        };
        let Some(between) = found else {
            return Ok(false);
        };
        if let Some(writer) = writer {
            self.orders.push((writer, between))?;
        }
        self.orders.push((between, find.reader))?;
        self.between.push(between)?;
        Ok(true)
    }
}

/// Who put what was found, where the orders leave one that isn't done any number of times. `is_there` says that the reader is known to be
/// there.
pub fn who_put(
    derivation: &Derivation<'_>,
    find: &WindowFind,
    is_there: bool,
) -> Result<Option<Settled>, NoMemory> {
    let window = derivation.window;
    let mut settled = Settled {
        whose: Whose::Nobody,
        orders: Vec::new(window.history.alloc),
        between: Vec::new(window.history.alloc),
        other: None,
    };
    for writer in &find.writers {
        if settled.put_excuse(derivation, find, Some(*writer))? {
            continue;
        }
        let may_repeat = window.point(*writer).presence == Presence::Repeated;
        if settled.whose != Whose::Nobody || !is_there || may_repeat {
            return Ok(None);
        }
        settled.whose = Whose::Writer(*writer);
    }
    if find.was_first && !settled.put_excuse(derivation, find, None)? {
        settled.other = derivation.other_first(find);
        if settled.other.is_none() {
            if settled.whose != Whose::Nobody || !is_there {
                return Ok(None);
            }
            settled.whose = Whose::First;
        }
    }
    Ok(Some(settled))
}

impl<'a> Derivation<'a> {
    /// Settles who put what was found, if that is known by now and wasn't before.
    pub fn settle(&mut self, number: usize, find: &WindowFind) -> Result<bool, NoMemory> {
        match self.whose(number) {
            Some(Whose::First) if self.other_first(find).is_some() => {}
            Some(_) => return Ok(false),
            None => {}
        }
        let is_there = self.is_there(find.reader);
        let Some(new) = who_put(self, find, is_there)? else {
            return Ok(false);
        };
        if let Some(settled) = self.settled.get_mut(number) {
            *settled = Some(new);
        }
        Ok(true)
    }
}
