//! Callers of the libraries, one module a library: what a maker writes who links it. The page `CALLING.md` of each library
//! shows its module here, to the byte. The program calls each caller once, by a trace that standard input has as text, and what else
//! no program calls, and prints what it is answered.
#![tactic(auto)]

pub mod audit;
mod calls_on_traces;
mod calls_on_units;
pub mod contradiction;
pub mod evidence;
pub mod file;
pub mod generate;
pub mod geometry;
pub mod judge;
pub mod plan;
pub mod record;
pub mod run;
pub mod space;
pub mod store;
pub mod trace;
pub mod trace_text;
pub mod unit;

use crate::calls_on_traces::{judged, noted, recorded, upgraded};
use crate::calls_on_units::{copied, cut, polled, stored, taken, written};
use anyhow::{Context, Result};
use nvm_store::Limit;
use std::io::Read;

fn main(rt: HostRuntime) -> Result<()> {
    let alloc = rt.alloc();
    let mut text = Vec::new(alloc);
    rt.reader().read_to_end(&mut text)?;
    let text = trace_text::in_one_spelling(alloc, &text)?;
    print!(rt; "in_one_spelling:\n{text}")?;
    let limit = Limit::new(4).context("there is no such limit")?;
    let (seen, jobs) = noted(&rt, &text)?;
    copied(&rt)?;
    taken(&rt, seen.geometry, &jobs)?;
    cut(&rt)?;
    stored(&rt)?;
    written(&rt, limit)?;
    polled(&rt, seen.geometry, limit, &jobs)?;
    recorded(&rt, limit, &seen, &jobs)?;
    upgraded(&rt)?;
    judged(&rt, &text)
}
