ghost use Rattle.std.specs.Prelude.{IfOk, IsTrue, OnOk, length};
ghost use Rattle.nvm_standard.specs.PointView.{seen_table};
ghost use Rattle.nvm_standard.specs.Explanation.{IsExplanation};
ghost use Rattle.nvm_standard.specs.OrderView.{OrderView};
ghost use Rattle.nvm_standard.specs.Absurd.{IsAbsurd, IsContradiction, IsNobody, IsNowhere};
ghost use Rattle.nvm_standard.specs.Inside.Derived.{AreDerived};
ghost use Rattle.nvm_standard.specs.Inside.Noted.{noted};

use crate::contradiction::{Conclusion, Contradiction};
use crate::contradiction_fault::ContradictionFault;
use crate::fact::Fact;
use crate::known::{Known, has_loop, is_there};
use crate::node::{Node, named, node_at, point_at};
use crate::noting::note_fact;
use crate::point::Presence;
use crate::points::Points;
use crate::readings::is_source;
use crate::rules::is_given;
use std::alloc::Global;

/// All that the facts give, each of which is given by its rule and those before it, or the first that isn't.
fn derive(
    alloc: Global,
    points: &Points<'_>,
    facts: &Vec<Fact>,
) -> Result<Known, ContradictionFault>
    ensures { IfOk result (λ known. AreDerived (seen_table points.now) facts.now.items (length facts.now.items) known) }
{
    let mut known = Known {
        orders: Vec::new(alloc),
        there: Vec::new(alloc),
        firsts: Vec::new(alloc),
    };
    for n in 0..facts.len() {
        let fact = facts[n];
        if !is_given(points, &known, fact) {
            return Err(ContradictionFault::FactWrong { fact: n });
        }
        note_fact(alloc, points, &mut known, fact)?;
    }
    Ok(known)
}

/// Whether what the reader found in the block nobody can have left there.
fn is_nobody(points: &Points<'_>, known: &Known, reader: Node) -> bool
    ensures { IsTrue result → IsNobody (seen_table points.now) (noted (seen_table points.now) known.now) reader.point reader.block }
{
    is_source(points, known, reader.point, reader)
}

/// Whether that is so of each block of a point that is done in one of them.
fn is_nowhere(points: &Points<'_>, known: &Known, reader: u32) -> bool
    ensures { IsTrue result → IsNowhere (seen_table points.now) (noted (seen_table points.now) known.now) reader }
{
    let point = match point_at(points, reader) {
        Some(point) => point,
        None => return false,
    };
    if point.presence != Presence::OneOf {
        return false;
    }
    for place in 0..point.blocks {
        let block = match point.first.checked_add(place) {
            Some(block) => block,
            None => return false,
        };
        if !is_nobody(points, known, named(reader, block)) {
            return false;
        }
    }
    true
}

/// Whether the conclusion follows from what is known.
fn is_absurd(points: &Points<'_>, known: &Known, conclusion: Conclusion) -> bool
    ensures { IsTrue result → IsAbsurd (seen_table points.now) (noted (seen_table points.now) known.now) conclusion }
{
    match conclusion {
        Conclusion::Loop => has_loop(points, known),
        Conclusion::Nobody { reader, block } => {
            is_there(points, &known.there, node_at(points, reader, block))
                && is_nobody(points, known, named(reader, block))
        }
        Conclusion::Nowhere { reader } => is_nowhere(points, known, reader),
    }
}

/// Whether the contradiction shows that no order of the points is an explanation.
///
/// For each fact it looks at each point of the table. For each that can have put what was found it goes through the orders noted so far, and
/// through all of them again for each that begins at that point. It notes each two nodes of which the one comes before the other. So a
/// contradiction is best given with few facts. Of errors nothing is proved: they say that it wasn't taken. `FactWrong` names the first
/// fact that isn't given. After `NoMemory` nothing is known.
pub fn contradicts(
    alloc: Global,
    points: &Points<'_>,
    contradiction: &Contradiction,
) -> Result<(), ContradictionFault>
    ensures derived { OnOk result (IsContradiction (seen_table points.now) contradiction.now.facts.items contradiction.now.conclusion) }
    ensures contradicted { OnOk result ((o : OrderView) → IsExplanation (seen_table points.now) o → ⊥) }
{
    let known = derive(alloc, points, &contradiction.facts)?;
    if is_absurd(points, &known, contradiction.conclusion) {
        Ok(())
    } else {
        Err(ContradictionFault::NothingContradicted)
    }
}
