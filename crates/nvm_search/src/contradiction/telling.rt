//! Reasons as a contradiction in the words of nvm_standard.
use crate::contradiction::absurd::Absurd;
use crate::contradiction::derivation::{Derivation, Derived, Rule};
use crate::contradiction::naming::{Named, put_named};
use crate::contradiction::paths::Link;
use crate::contradiction::reasons::Reasons;
use crate::contradiction::settling::Whose;
use crate::contradiction::window::Window;
use nvm_record::NoMemory;
use nvm_standard::{Contradiction, Fact, Put};

/// Where so many others can have put what was found, it is said why they can't have.
const FEW: usize = 2;

/// So many orders that go without saying are said.
const MOST_SPARE: usize = 4;

/// Puts the fact at the end, if it isn't there.
pub fn put_once(facts: &mut Vec<Fact>, fact: Fact) -> Result<(), NoMemory> {
    if !facts.contains(&fact) {
        facts.push(fact)?;
    }
    Ok(())
}

/// A link as a fact, if the table says it by itself.
pub fn given_fact(derivation: &Derivation<'_>, link: Link) -> Option<Fact> {
    match link.derived {
        None => Some(Fact::Time {
            earlier: derivation.window.node(link.earlier),
            later: derivation.window.node(link.later),
        }),
        Some(index) => {
            let derived = *derivation.derived.get(index)?;
            match derived.by {
                Rule::Deallocate => derived_fact(derivation, derived),
                _ => None,
            }
        }
    }
}

/// What was derived, as a fact.
fn derived_fact(derivation: &Derivation<'_>, derived: Derived) -> Option<Fact> {
    let window = derivation.window;
    let earlier = window.node(derived.earlier);
    let later = window.node(derived.later);
    Some(match derived.by {
        Rule::Deallocate => Fact::Deallocate {
            deallocate: earlier.point,
            writer: later.point,
            block: earlier.block,
        },
        Rule::Own { .. } => Fact::Own {
            later: later.point,
            block: later.block,
        },
        Rule::Source { find } => Fact::Source {
            writer: earlier.point,
            reader: later.point,
            block: window.finds.get(find)?.block,
        },
        Rule::Over { find } => Fact::Over {
            reader: earlier.point,
            writer: later.point,
            block: window.finds.get(find)?.block,
            source: match derivation.whose(find) {
                Some(Whose::Writer(source)) => window.node(source).point,
                _ => return None,
            },
        },
        Rule::Under { find } => {
            let find = window.finds.get(find)?;
            Fact::Under {
                writer: earlier.point,
                source: later.point,
                block: find.block,
                reader: window.node(find.reader).point,
            }
        }
        Rule::First { find } => Fact::First {
            reader: earlier.point,
            writer: later.point,
            block: window.finds.get(find)?.block,
        },
        Rule::AtFirst { find } => Fact::AtFirst {
            reader: earlier.point,
            block: window.finds.get(find)?.block,
        },
        Rule::TiedBefore { by } => Fact::TiedBefore {
            reader: earlier.point,
            block: earlier.block,
            entry: later.point,
            by: window.node(by).block,
        },
        Rule::TiedAfter { by } => Fact::TiedAfter {
            entry: earlier.point,
            reader: later.point,
            block: later.block,
            by: window.node(by).block,
        },
    })
}

/// Why the find wasn't there at first, if it can have been, and why those that can have put it, and aren't in question by the times,
/// aren't: what goes without saying of each where they are few, and where they are or the conclusion is of the find, who put the block
/// last before the reader.
fn put_excuses(
    facts: &mut Vec<Fact>,
    window: &Window<'_>,
    number: usize,
    is_concluded: bool,
) -> Result<(), NoMemory> {
    let history = window.history;
    let Some(find) = window.finds.get(number) else {
        return Ok(());
    };
    let block = find.block;
    let reader = window.node(find.reader);
    let servers = history.all_servers(reader.point, block, find.sought)?;
    let last = history.last_sure(reader.point, block);
    let mut is_overwritten = !history.is_never_first(find.sought);
    for server in &servers {
        let is_in_question = match window.place(*server, block) {
            Some(place) => find.writers.contains(&place),
            None => false,
        };
        if is_in_question {
            continue;
        }
        let point = history.point(*server);
        let is_later = history.until(reader.point) < point.from;
        is_overwritten = is_overwritten || !is_later;
        if servers.len() > FEW {
            continue;
        }
        let fact = match (last, point.put) {
            _ if is_later => Fact::Time {
                earlier: reader,
                later: history.node(*server, block),
            },
            (None, _) => continue,
            (Some(writer), Put::Deallocated) => Fact::Deallocate {
                deallocate: *server,
                writer,
                block,
            },
            (Some(writer), _) => Fact::Time {
                earlier: history.node(*server, block),
                later: history.node(writer, block),
            },
        };
        put_once(facts, fact)?;
    }
    match last {
        Some(writer) if is_overwritten && (is_concluded || servers.len() <= FEW) => put_once(
            facts,
            Fact::Time {
                earlier: history.node(writer, block),
                later: reader,
            },
        ),
        _ => Ok(()),
    }
}

/// The reasons why it can't be, as a contradiction. Beside those that it names it speaks of the nodes that can have put what was found, and
/// of those that come before others without saying.
pub fn told(absurd: &Absurd, reasons: Reasons<'_>) -> Result<Named, NoMemory> {
    let Reasons {
        derivation,
        times,
        spare,
        derived,
        finds,
        ..
    } = reasons;
    let window = derivation.window;
    let alloc = window.history.alloc;
    let mut facts = times;
    let mut nodes = Vec::new(alloc);
    for fact in &spare {
        put_named(&mut nodes, window.history, *fact)?;
        if spare.len() <= MOST_SPARE {
            put_once(&mut facts, *fact)?;
        }
    }
    for number in &finds.places(alloc)? {
        put_excuses(&mut facts, window, *number, absurd.finds.contains(number))?;
        if let Some(find) = window.finds.get(*number) {
            for writer in &find.writers {
                nodes.push(window.node(*writer))?;
            }
        }
    }
    for index in &derived.places(alloc)? {
        if let Some(derived) = derivation.derived.get(*index) {
            if let Some(fact) = derived_fact(derivation, *derived) {
                put_once(&mut facts, fact)?;
            }
        }
    }
    let contradiction = Contradiction {
        facts,
        conclusion: absurd.conclusion,
    };
    Named::of(window.history, contradiction, nodes)
}
