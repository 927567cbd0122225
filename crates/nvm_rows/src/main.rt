//! The program `nvm_rows`: makes the calls that standard input has, one a line, and prints what each answers, on a line, too.
//!
//! A row has words: whom it asks, what, and of what. `unit open` and `space open` begin a new unit or space. A row that asks for nothing that
//! there is, or that has no memory for its words, is answered `unread`. Empty rows and those that begin with `#` are printed as they stand.
#![tactic(auto)]

mod job;
mod spaces;
mod units;

use nvm_store::Limit;
use std::alloc::Global;
use std::io;
use std::mem::replace;
use std::process::ExitCode;
use std::sync::Wait;

/// What is open, if something is.
#[derive(Drop)]
enum Opened {
    Nothing,
    Unit(units::Ground),
    Space(spaces::Ground),
}

fn main(rt: HostRuntime) -> ExitCode {
    let mut opened = Opened::Nothing;
    for row in rt.lines(rt.alloc()) {
        let Ok(row) = row else {
            return ExitCode::from(1);
        };
        if answered(&rt, &mut opened, row.as_str()).is_err() {
            return ExitCode::from(1);
        }
    }
    ExitCode::from(0)
}

/// Prints a heading, or what a row's call answers.
fn answered<R: AllocGlobal + Print + Wait>(
    rt: &R,
    opened: &mut Opened,
    row: &str,
) -> io::Result<()> {
    if row.is_empty() || row.starts_with('#') {
        return rt.println(row);
    }
    let (layer, rest) = cut(row);
    let (who, rest) = cut(rest);
    let (call, of) = cut(rest);
    match who {
        "open" => match open(rt.alloc(), layer, call) {
            Some(new) => {
                *opened = new;
                rt.println("opened")
            }
            None => rt.println("unread"),
        },
        "close" => closed(rt, replace(opened, Opened::Nothing)),
        _ => match opened {
            Opened::Nothing => rt.println("unread"),
            Opened::Unit(ground) => ground.answered(rt, who, call, of),
            Opened::Space(ground) => ground.answered(rt, who, call, of),
        },
    }
}

/// The first word, and the others.
pub fn cut(words: &str) -> (&str, &str) {
    match words.split_once(' ') {
        Some(two) => two,
        None => (words, ""),
    }
}

/// A unit whose history has so many entries at most, or a space of such units. A space without a number has no limit.
fn open(alloc: Global, layer: &str, most: &str) -> Option<Opened> {
    match layer {
        "unit" => Some(Opened::Unit(units::Ground::open(alloc, limit(most)?)?)),
        _ => Some(Opened::Space(spaces::Ground::open(alloc, limit(most))?)),
    }
}

fn limit(most: &str) -> Option<Limit> {
    Limit::new(most.parse().ok()?)
}

/// Tells how many entries each unit's history has at the end.
fn closed<R: AllocGlobal + Print>(rt: &R, opened: Opened) -> io::Result<()> {
    match opened {
        Opened::Nothing => rt.println("unread"),
        Opened::Unit(ground) => ground.closed(rt),
        Opened::Space(ground) => ground.closed(rt),
    }
}
