//! The shortest ways on which one node of a window is found to come before another.
use crate::contradiction::derivation::Derivation;
use nvm_record::NoMemory;
use std::alloc::Global;

/// That one node of a window comes before another: by the times, or as it was derived.
#[derive(Clone, Copy)]
pub struct Link {
    pub earlier: usize,
    pub later: usize,
    /// Its place in what was derived, and none if it is by the times.
    pub derived: Option<usize>,
}

/// The links from a node to those that it leads to, as far as they are found.
#[derive(Drop)]
struct Reached {
    /// For each node the link by which it was first found.
    by: Vec<Option<Link>>,
    /// The nodes in the order in which they were found.
    places: Vec<usize>,
}

impl Reached {
    /// Notes that the link leads to its later node.
    fn put(&mut self, link: Link) -> Result<(), NoMemory> {
        if let Some(by) = self.by.get_mut(link.later) {
            if by.is_none() {
                *by = Some(link);
                self.places.push(link.later)?;
            }
        }
        Ok(())
    }

    /// The links that lead from the first node to the other.
    fn path(&self, alloc: Global, from: usize, to: usize) -> Result<Option<Vec<Link>>, NoMemory> {
        let mut path = Vec::new(alloc);
        let mut place = to;
        for _link in 0..self.by.len() {
            let Some(Some(link)) = self.by.get(place) else {
                return Ok(None);
            };
            path.push(*link)?;
            place = link.earlier;
            if place == from {
                path.reverse();
                return Ok(Some(path));
            }
        }
        Ok(None)
    }
}

/// The fewest links by which the one comes before the other, the first of what was derived among them alone, over nodes that are there by
/// these.
pub fn path(
    derivation: &Derivation<'_>,
    first: usize,
    from: usize,
    to: usize,
) -> Result<Option<Vec<Link>>, NoMemory> {
    let window = derivation.window;
    let alloc = window.history.alloc;
    let places = window.members.len();
    let mut reached = Reached {
        by: vec![in alloc; None; places]?,
        places: Vec::new(alloc),
    };
    let mut least = places;
    for turn in 0..=places {
        let earlier = match turn.checked_sub(1) {
            None => from,
            Some(index) => match reached.places.get(index) {
                Some(place) => *place,
                None => break,
            },
        };
        if turn > 0 && derivation.there(earlier) > first {
            continue;
        }
        let (Some(next), Some(leaving)) = (
            window.next.get(earlier),
            derivation.leaving.get(earlier),
        ) else {
            break;
        };
        for later in *next..least {
            reached.put(Link {
                earlier,
                later,
                derived: None,
            })?;
        }
        least = least.min(*next);
        for index in leaving {
            if *index >= first {
                break;
            }
            if let Some(derived) = derivation.derived.get(*index) {
                reached.put(Link {
                    earlier,
                    later: derived.later,
                    derived: Some(*index),
                })?;
            }
        }
        match reached.by.get(to) {
            Some(Some(_)) => break,
            _ => {}
        }
    }
    reached.path(alloc, from, to)
}
