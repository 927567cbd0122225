//! A fact as an object of JSON, and what the facts come to.
use crate::fact_line::{itself_of, push_conclusion, push_fact};
use crate::point_name::command_of;
use crate::precedence::{PointOrder, order_of};
use nvm_record::NoMemory;
use nvm_standard::{Conclusion, Fact, Points};

/// What a rule is called.
fn rule_of(fact: Fact) -> &'static str {
    match fact {
        Fact::Time { .. } => "time",
        Fact::Deallocate { .. } => "deallocate",
        Fact::Own { .. } => "own",
        Fact::Source { .. } => "source",
        Fact::Over { .. } => "over",
        Fact::Under { .. } => "under",
        Fact::First { .. } => "first",
        Fact::AtFirst { .. } => "at first",
        Fact::TiedBefore { .. } => "tied before",
        Fact::TiedAfter { .. } => "tied after",
    }
}

/// Appends which command, or which block, the fact names as this.
fn push_member(text: &mut String, name: &str, number: u32) -> Result<(), NoMemory> {
    write!(text, ",\"{name}\":{number}")
}

/// Appends which command comes before which, and in which block, if one is named.
fn push_order(text: &mut String, points: &Points<'_>, order: PointOrder) -> Result<(), NoMemory> {
    push_member(text, "before", command_of(points, order.before))?;
    push_member(text, "after", command_of(points, order.after))?;
    match order.lba {
        Some(lba) => push_member(text, "lba", lba),
        None => Ok(()),
    }
}

/// Appends which commands the fact names as what, beside its order, and the other block that it names.
fn push_members(text: &mut String, points: &Points<'_>, fact: Fact) -> Result<(), NoMemory> {
    match fact {
        Fact::Time { .. } | Fact::Own { .. } => Ok(()),
        Fact::Deallocate {
            deallocate,
            writer,
            ..
        } => {
            push_member(text, "deallocate", command_of(points, deallocate))?;
            push_member(text, "writer", command_of(points, writer))
        }
        Fact::Source { writer, reader, .. } | Fact::First { reader, writer, .. } => {
            push_member(text, "writer", command_of(points, writer))?;
            push_member(text, "reader", command_of(points, reader))
        }
        Fact::Over {
            reader,
            writer,
            source,
            ..
        }
        | Fact::Under {
            writer,
            source,
            reader,
            ..
        } => {
            push_member(text, "writer", command_of(points, writer))?;
            push_member(text, "source", command_of(points, source))?;
            push_member(text, "reader", command_of(points, reader))
        }
        Fact::AtFirst { reader, block } => {
            push_member(text, "lba", block)?;
            push_member(text, "reader", command_of(points, reader))
        }
        Fact::TiedBefore {
            reader,
            entry,
            by,
            ..
        }
        | Fact::TiedAfter {
            entry,
            reader,
            by,
            ..
        } => {
            push_member(text, "entry", command_of(points, entry))?;
            push_member(text, "reader", command_of(points, reader))?;
            push_member(text, "by", by)
        }
    }
}

/// Appends the object of a fact.
pub(crate) fn push_fact_object(
    text: &mut String,
    points: &Points<'_>,
    fact: Fact,
) -> Result<(), NoMemory> {
    let rule = rule_of(fact);
    write!(text, "{{\"fact\":\"{rule}\"")?;
    if let Some(order) = order_of(fact) {
        push_order(text, points, order)?;
    }
    push_members(text, points, fact)?;
    text.push_str(",\"text\":\"")?;
    push_fact(text, points, fact)?;
    text.push_str("\"}")
}

/// Appends what kind of conclusion it is, and which command and block it names.
fn push_concluded(
    text: &mut String,
    points: &Points<'_>,
    facts: &[Fact],
    conclusion: Conclusion,
) -> Result<(), NoMemory> {
    match conclusion {
        Conclusion::Loop => {
            text.push_str("{\"conclusion\":\"loop\"")?;
            match itself_of(facts) {
                Some(number) => push_member(text, "job", command_of(points, number)),
                None => Ok(()),
            }
        }
        Conclusion::Nobody { reader, block } => {
            text.push_str("{\"conclusion\":\"nobody\"")?;
            push_member(text, "lba", block)?;
            push_member(text, "reader", command_of(points, reader))
        }
        Conclusion::Nowhere { reader } => {
            text.push_str("{\"conclusion\":\"nowhere\"")?;
            push_member(text, "reader", command_of(points, reader))
        }
    }
}

/// Appends the object of what the facts come to.
pub(crate) fn push_conclusion_object(
    text: &mut String,
    points: &Points<'_>,
    facts: &[Fact],
    conclusion: Conclusion,
) -> Result<(), NoMemory> {
    push_concluded(text, points, facts, conclusion)?;
    text.push_str(",\"text\":\"")?;
    push_conclusion(text, points, facts, conclusion)?;
    text.push_str("\"}")
}
