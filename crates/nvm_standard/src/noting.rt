ghost use Rattle.std.specs.Prelude.{◌≡◌, ◌⊎◌, ◌-◌, ℕ, Contains, IsTrue, OnOk, Some};
ghost use Rattle.nvm_standard.specs.PointView.{seen_table};
ghost use Rattle.nvm_standard.specs.Inside.Noted.{IsNoted, IsNotedThere, noted};
ghost use Rattle.nvm_standard.specs.Knowledge.{IsWithin};
ghost use Rattle.nvm_standard.specs.Nodes as spec;
ghost use Rattle.nvm_standard.specs.Nodes.{node};
ghost use Rattle.nvm_standard.specs.Standing as standing;
ghost use Rattle.nvm_standard.specs.Standing.{IsAtFirst, IsBeforeWith, IsFollowed, IsThereBy, IsWhollyThere, known_with};
ghost use Rattle.nvm_standard.specs.declared.node.Node.{Node as NodeSpec};

use crate::fact::Fact;
use crate::known::{Known, Order, is_there, note};
use crate::node::{Node, has_block, named, node_at, point_at};
use crate::point::Presence;
use crate::points::Points;
use nvm_record::NoMemory;
use std::alloc::Global;

/// Which order the fact says, if it says one.
fn order_of(points: &Points<'_>, fact: Fact) -> Option<Order>
    ensures { result ≡ standing.order_of (seen_table points.now) fact }
{
    match fact {
        Fact::Time { earlier, later } => Some(Order {
            earlier: node_at(points, earlier.point, earlier.block),
            later: node_at(points, later.point, later.block),
        }),
        Fact::Deallocate {
            deallocate,
            writer,
            block,
        } => Some(order_at(points, deallocate, writer, block)),
        Fact::Own { later, block } => Some(order_at(points, later.saturating_sub(1), later, block)),
        Fact::Source {
            writer,
            reader,
            block,
        } => Some(order_at(points, writer, reader, block)),
        Fact::Over {
            reader,
            writer,
            block,
            ..
        } => Some(order_at(points, reader, writer, block)),
        Fact::Under {
            writer,
            source,
            block,
            ..
        } => Some(order_at(points, writer, source, block)),
        Fact::First {
            reader,
            writer,
            block,
        } => Some(order_at(points, reader, writer, block)),
        Fact::AtFirst { .. } => None,
        Fact::TiedBefore {
            reader,
            block,
            entry,
            ..
        } => Some(order_at(points, reader, entry, block)),
        Fact::TiedAfter {
            entry,
            reader,
            block,
            ..
        } => Some(order_at(points, entry, reader, block)),
    }
}

/// That the one comes before the other at the block.
fn order_at(points: &Points<'_>, earlier: u32, later: u32, block: u32) -> Order
    ensures { result ≡ standing.order_at (seen_table points.now) earlier later block }
{
    Order {
        earlier: node_at(points, earlier, block),
        later: node_at(points, later, block),
    }
}

/// The point before the later one, at the block.
fn node_before(points: &Points<'_>, later: u32, block: u32) -> Node
    ensures { result ≡ spec.node_at (seen_table points.now) (later - 1) block }
{
    node_at(points, later.saturating_sub(1), block)
}

/// Whether the point of this number is noted to be there in some block.
fn is_noted_somewhere(points: &Points<'_>, known: &Known, number: u32) -> bool
    ensures { IsTrue result → (x : ℕ) × IsNotedThere (seen_table points.now) known.now.there.items (node number x) }
{
    for one in &known.there {
        if one.point == number && is_there(points, &known.there, named(number, one.block)) {
            return true;
        }
    }
    false
}

/// Whether the point before the later one is done in all of its blocks or none, has this one, and the later one is noted to be there in
/// some block.
fn is_wholly_there(points: &Points<'_>, known: &Known, later: u32, block: u32) -> bool
    ensures { IsTrue result → IsWhollyThere (seen_table points.now) (noted (seen_table points.now) known.now) later block }
{
    match point_at(points, later.saturating_sub(1)) {
        Some(point) => {
            point.presence == Presence::Together
                && has_block(point, block)
                && is_noted_somewhere(points, known, later)
        }
        None => false,
    }
}

/// Whether the point before the later one is there at the block, since the later one is.
fn is_followed(points: &Points<'_>, known: &Known, later: u32, block: u32) -> bool
    ensures { IsTrue result → IsFollowed (seen_table points.now) (noted (seen_table points.now) known.now) later block }
{
    is_there(points, &known.there, node_at(points, later, block))
        || is_wholly_there(points, known, later, block)
}

/// Notes what is there by the fact: the source of a reader that is, or the point before one that is.
fn note_there(points: &Points<'_>, known: &mut Known, fact: Fact) -> Result<(), NoMemory>
    ensures there { OnOk result ((a : NodeSpec) → Contains known.new.there.items a
        → Contains known.old.there.items a ⊎ IsThereBy (seen_table points.now) (noted (seen_table points.now) known.old) fact a) }
    ensures orders { known.new.orders ≡ known.old.orders }
    ensures firsts { known.new.firsts ≡ known.old.firsts }
{
    match fact {
        Fact::Source {
            writer,
            reader,
            block,
        } => {
            if is_there(points, &known.there, node_at(points, reader, block)) {
                known.there.push(node_at(points, writer, block))?;
            }
        }
        Fact::Own { later, block } => {
            if is_followed(points, known, later, block) {
                known.there.push(node_before(points, later, block))?;
            }
        }
        _ => {}
    }
    Ok(())
}

/// Notes that a reader found what was there at first.
fn note_first(known: &mut Known, fact: Fact) -> Result<(), NoMemory>
    ensures firsts { OnOk result ((a : NodeSpec) → Contains known.new.firsts.items a → Contains known.old.firsts.items a ⊎ IsAtFirst fact a) }
    ensures orders { known.new.orders ≡ known.old.orders }
    ensures there { known.new.there ≡ known.old.there }
{
    if let Fact::AtFirst { reader, block } = fact {
        known.firsts.push(named(reader, block))?;
    }
    Ok(())
}

/// Notes the order that the fact says, if it says one, and what follows from it.
fn note_order(
    alloc: Global,
    points: &Points<'_>,
    known: &mut Known,
    fact: Fact,
) -> Result<(), NoMemory>
    ensures noted { OnOk result ((x y : NodeSpec) → IsNoted known.new.orders.items x y
        → IsBeforeWith (IsNotedThere (seen_table points.now) known.old.there.items) (IsNoted known.old.orders.items)
        (standing.order_of (seen_table points.now) fact) x y) }
    ensures there { known.new.there ≡ known.old.there }
    ensures firsts { known.new.firsts ≡ known.old.firsts }
{
    match order_of(points, fact) {
        Some(order) => note(alloc, points, known, order),
        None => Ok(()),
    }
}

/// Notes what the fact says, and what follows from it and from what was noted.
pub(crate) fn note_fact(
    alloc: Global,
    points: &Points<'_>,
    known: &mut Known,
    fact: Fact,
) -> Result<(), NoMemory>
    ensures { OnOk result (IsWithin (noted (seen_table points.now) known.new)
        (known_with (seen_table points.now) (noted (seen_table points.now) known.old) (Some fact))) }
{
    note_there(points, known, fact)?;
    note_first(known, fact)?;
    note_order(alloc, points, known, fact)
}
