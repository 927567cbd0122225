ghost use Rattle.std.specs.Prelude.{◌≡◌, ◌⊎◌, Contains, IfOk, IsTrue, OnOk, Some};
ghost use Rattle.nvm_standard.specs.PointView.{seen_table};
ghost use Rattle.nvm_standard.specs.Standing.{HasLoop, IsBeforeWith, IsFrom, IsSure, IsUpTo};
ghost use Rattle.nvm_standard.specs.Inside.Noted.{IsNoted, IsNotedThere, noted};
ghost use Rattle.nvm_standard.specs.declared.known.Order.{Order as OrderSpec};
ghost use Rattle.nvm_standard.specs.declared.node.Node.{Node as NodeSpec};

use crate::node::{Node, has_block, point_at};
use crate::point::Presence;
use crate::points::Points;
use nvm_record::NoMemory;
use std::alloc::Global;

/// That the one comes before the other.
#[derive(Clone, Copy, Debug, PartialEq, Eq)]
pub(crate) struct Order {
    pub earlier: Node,
    pub later: Node,
}

/// What the facts give so far.
#[derive(Debug, Drop)]
pub(crate) struct Known {
    /// What comes before what.
    pub orders: Vec<Order>,
    /// What is there and isn't sure.
    pub there: Vec<Node>,
    /// Which readers found what was in their block at first.
    pub firsts: Vec<Node>,
}

/// Whether the order is noted.
pub(crate) fn is_noted(orders: &Vec<Order>, earlier: Node, later: Node) -> bool
    ensures { IsTrue result → IsNoted orders.now.items earlier later }
{
    for noted in orders {
        if noted.earlier == earlier && noted.later == later {
            return true;
        }
    }
    false
}

/// Whether the table says that it is there.
fn is_sure(points: &Points<'_>, node: Node) -> bool
    ensures { IsTrue result → IsSure (seen_table points.now) node }
{
    match point_at(points, node.point) {
        Some(point) => match point.presence {
            Presence::Sure => has_block(point, node.block),
            Presence::OneOf => point.blocks == 1 && node.block == point.first,
            _ => false,
        },
        None => false,
    }
}

/// Whether it is among these.
fn is_among(nodes: &Vec<Node>, node: Node) -> bool
    ensures { IsTrue result → Contains nodes.now.items node }
{
    for one in nodes {
        if *one == node {
            return true;
        }
    }
    false
}

/// Whether it is known to be there.
pub(crate) fn is_there(points: &Points<'_>, there: &Vec<Node>, node: Node) -> bool
    ensures { IsTrue result → IsNotedThere (seen_table points.now) there.now.items node }
{
    is_sure(points, node) || is_among(there, node)
}

/// Notes the order, if it isn't noted.
fn put(orders: &mut Vec<Order>, order: Order) -> Result<(), NoMemory>
    ensures { OnOk result ((o : OrderSpec) → Contains orders.new.items o → Contains orders.old.items o ⊎ (o ≡ order)) }
{
    if !is_noted(orders, order.earlier, order.later) {
        orders.push(order)?;
    }
    Ok(())
}

/// The node, and those that come before it, where it is there.
fn up_to(
    alloc: Global,
    points: &Points<'_>,
    known: &Known,
    node: Node,
) -> Result<Vec<Node>, NoMemory>
    ensures { IfOk result (λ nodes. (x : NodeSpec) → Contains nodes.items x
        → IsUpTo (IsNotedThere (seen_table points.now) known.now.there.items) (IsNoted known.now.orders.items) x node) }
{
    let mut nodes = Vec::new(alloc);
    nodes.push(node)?;
    if !is_there(points, &known.there, node) {
        return Ok(nodes);
    }
    for noted in &known.orders {
        if noted.later == node {
            nodes.push(noted.earlier)?;
        }
    }
    Ok(nodes)
}

/// The node, and those that come after it, where it is there.
fn from(
    alloc: Global,
    points: &Points<'_>,
    known: &Known,
    node: Node,
) -> Result<Vec<Node>, NoMemory>
    ensures { IfOk result (λ nodes. (y : NodeSpec) → Contains nodes.items y
        → IsFrom (IsNotedThere (seen_table points.now) known.now.there.items) (IsNoted known.now.orders.items) node y) }
{
    let mut nodes = Vec::new(alloc);
    nodes.push(node)?;
    if !is_there(points, &known.there, node) {
        return Ok(nodes);
    }
    for noted in &known.orders {
        if noted.earlier == node {
            nodes.push(noted.later)?;
        }
    }
    Ok(nodes)
}

/// Notes that the node comes before each of these.
fn put_before_all(
    orders: &mut Vec<Order>,
    earlier: Node,
    laters: &Vec<Node>,
) -> Result<(), NoMemory>
    ensures { OnOk result ((o : OrderSpec) → Contains orders.new.items o
        → Contains orders.old.items o ⊎ ((o.earlier ≡ earlier) × Contains laters.now.items o.later)) }
{
    for later in laters {
        put(
            orders,
            Order {
                earlier,
                later: *later,
            },
        )?;
    }
    Ok(())
}

/// Notes that each of the first nodes comes before each of the others.
fn put_each_before_all(
    orders: &mut Vec<Order>,
    earliers: &Vec<Node>,
    laters: &Vec<Node>,
) -> Result<(), NoMemory>
    ensures { OnOk result ((o : OrderSpec) → Contains orders.new.items o
        → Contains orders.old.items o ⊎ (Contains earliers.now.items o.earlier × Contains laters.now.items o.later)) }
{
    for earlier in earliers {
        put_before_all(orders, *earlier, laters)?;
    }
    Ok(())
}

/// Notes the order, and what follows from it and from those before it.
pub(crate) fn note(
    alloc: Global,
    points: &Points<'_>,
    known: &mut Known,
    new: Order,
) -> Result<(), NoMemory>
    ensures noted { OnOk result ((x y : NodeSpec) → IsNoted known.new.orders.items x y
        → IsBeforeWith (IsNotedThere (seen_table points.now) known.old.there.items) (IsNoted known.old.orders.items) (Some new) x y) }
    ensures there { known.new.there ≡ known.old.there }
    ensures firsts { known.new.firsts ≡ known.old.firsts }
{
    let earliers = up_to(alloc, points, known, new.earlier)?;
    let laters = from(alloc, points, known, new.later)?;
    put_each_before_all(&mut known.orders, &earliers, &laters)
}

/// Whether some node that is there comes before itself.
pub(crate) fn has_loop(points: &Points<'_>, known: &Known) -> bool
    ensures { IsTrue result → HasLoop (noted (seen_table points.now) known.now) }
{
    for noted in &known.orders {
        if noted.earlier == noted.later && is_there(points, &known.there, noted.earlier) {
            return true;
        }
    }
    false
}
