//! What is found for a part: an order of its points.
use crate::numbers::MARK;
use crate::order::acts::{Gives, NONE};
use crate::order::board::{Field, Step};
use crate::order::known::Known;
use crate::order::making::{Part, part_of};
use crate::order::parts::Share;
use crate::order::trying::{Miss, searched};
use nvm_record::NoMemory;
use nvm_standard::{Content, FirstContent, Placed, Value};

/// What was found for a part.
#[derive(Drop)]
pub struct Found<'t> {
    /// What is placed, each with the latest time at which it or one before it in the part began. Merged by these times the parts' orders
    /// keep all times.
    pub steps: Vec<(u32, Placed<'t>)>,
    pub first: Vec<FirstContent<'t>>,
}

/// What a value stands for.
fn content_of<'t>(known: &Known<'_, 't>, value: u32) -> Content<'t> {
    if value == MARK {
        return Content::Mark;
    }
    if value == known.ones {
        return Content::Ones;
    }
    match known.values.bytes_of(value) {
        Some(bytes) => Content::Bytes(bytes),
        None => Content::Zeroes,
    }
}

/// What the step places.
fn placed_by<'t>(known: &Known<'_, 't>, part: &Part, step: &Step) -> Placed<'t> {
    let act = part.act(step.act);
    let cell = part.cell(act.cell);
    let block = if act.any { step.block } else { cell.block };
    let value = match cell.gives {
        Gives::Deallocated | Gives::Anything if step.slot != NONE => {
            Value::Put(content_of(known, part.slots.value(step.slot)))
        }
        _ => Value::AsIs,
    };
    Placed {
        point: act.point,
        first: part.first.saturating_add(block),
        blocks: if act.any { 1 } else { act.cells },
        value,
    }
}

/// An order of the part's points. Notes which points of which one block is done are done in the part.
pub fn found_for<'t>(
    known: &mut Known<'_, 't>,
    number: u32,
    shares: &[Share],
    is_last: bool,
) -> Result<Result<Found<'t>, Miss>, NoMemory> {
    let part = part_of(known, shares)?;
    let board = match searched(known, &part, is_last)? {
        Ok(board) => board,
        Err(miss) => return Ok(Err(miss)),
    };
    let mut found = Found {
        steps: Vec::with_capacity(known.alloc, board.steps.len())?,
        first: Vec::new(known.alloc),
    };
    for step in &board.steps {
        if step.block != NONE {
            let point = part.act(step.act).point;
            known.met.put(point, 1);
            known.holder.put(point, number);
        }
        let placed = placed_by(known, &part, step);
        found.steps.push((step.latest, placed))?;
    }
    for block in 0..part.blocks {
        let slot = board.at(Field::First(block));
        if slot != NONE {
            found.first.push(FirstContent {
                block: part.first.saturating_add(block),
                content: content_of(known, part.slots.value(slot)),
            })?;
        }
    }
    Ok(Ok(found))
}
