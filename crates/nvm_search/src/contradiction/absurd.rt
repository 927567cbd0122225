//! What can't be by what was derived: finds that nobody can have put, and nodes that come before themselves.
use crate::contradiction::derivation::Derivation;
use crate::contradiction::settling::Whose;
use crate::contradiction::window::WindowFind;
use nvm_record::NoMemory;
use nvm_standard::{Conclusion, Presence};

/// What can't be.
#[derive(Drop)]
pub struct Absurd {
    pub conclusion: Conclusion,
    /// The finds that nobody can have put, by their places in the window's.
    pub finds: Vec<usize>,
    /// The node that would come before itself.
    pub circle: Option<usize>,
}

impl<'a> Derivation<'a> {
    /// Whether nobody can have put what was found: that is settled, or something else was found between who put it and its reader.
    fn is_nobody(&self, number: usize, find: &WindowFind) -> bool {
        let before = self.orders.before.at(find.reader);
        let since = match self.whose(number) {
            Some(Whose::Nobody) => return true,
            Some(Whose::Writer(source)) => self.orders.after.at(source),
            Some(Whose::First) => before,
            None => return false,
        };
        find.others.first_with(since, before) != None
    }
}

/// The finds of a point that is done in one of its blocks, if nobody can have put any of them, and this is the first.
fn nowhere(derivation: &Derivation<'_>, reader: usize) -> Result<Option<Vec<usize>>, NoMemory> {
    let window = derivation.window;
    let node = window.node(reader);
    let point = window.point(reader);
    if point.presence != Presence::OneOf || node.block != point.first {
        return Ok(None);
    }
    let mut finds = Vec::new(window.history.alloc);
    for (number, find) in window.finds.iter().enumerate() {
        if window.node(find.reader).point == node.point {
            if !derivation.is_nobody(number, find) {
                return Ok(None);
            }
            finds.push(number)?;
        }
    }
    if finds.len() == point.blocks as usize {
        Ok(Some(finds))
    } else {
        Ok(None)
    }
}

/// All that can't be by what was derived.
pub fn absurd_of(derivation: &Derivation<'_>) -> Result<Vec<Absurd>, NoMemory> {
    let window = derivation.window;
    let alloc = window.history.alloc;
    let mut absurd = Vec::new(alloc);
    for (number, find) in window.finds.iter().enumerate() {
        if !derivation.is_nobody(number, find) {
            continue;
        }
        let reader = window.node(find.reader).point;
        if derivation.is_there(find.reader) {
            let mut finds = Vec::new(alloc);
            finds.push(number)?;
            absurd.push(Absurd {
                conclusion: Conclusion::Nobody {
                    reader,
                    block: find.block,
                },
                finds,
                circle: None,
            })?;
        } else if let Some(finds) = nowhere(derivation, find.reader)? {
            absurd.push(Absurd {
                conclusion: Conclusion::Nowhere { reader },
                finds,
                circle: None,
            })?;
        }
    }
    for place in 0..window.members.len() {
        if derivation.orders.has(place, place) && derivation.is_there(place) {
            absurd.push(Absurd {
                conclusion: Conclusion::Loop,
                finds: Vec::new(alloc),
                circle: Some(place),
            })?;
        }
    }
    Ok(absurd)
}
