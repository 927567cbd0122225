//! Records of runs explained: of an unlawful one what went wrong and where, and of a lawful one how much there was in it. Why a record
//! explains a trace, or doesn't. Which field of a file is at an offset.
//!
//! [`explain`] audits a record and gives the verdict, as an audit prints it. Of a first fault it says what such a fault means,
//! the job and what was done of it, the unit's entries round the place, and what the step gives at that point beside what was
//! recorded there: where bytes decide, the first that differs, and the entry that changed its block last. `examples/explained.py` has
//! explanations that were written by hand, and holds the built `nvq` to them.
//!
//! [`witness_story`] judges a trace by a record and tells what was found: one fact a line, behind the line that a witness prints. Of a
//! fault it tells what such a fault means, and the commands of which it is: as the trace has them, and as the record has them and did
//! them. Each job is called by its number in the record, as in the fault's line and in the record's listing.
//!
//! [`field_told`] says which field of a record or a trace is at an offset, in words, as in `the kind of entry 3 of unit 5`.
#![tactic(auto)]

mod around;
mod changes;
mod comparison;
mod difference;
mod doing;
mod ended;
mod entry_story;
mod explaining;
mod fields;
mod given;
mod jobs;
pub mod laws;
mod looked_up;
mod meaning;
mod most;
mod ordering;
mod part_story;
mod passed;
mod recorded_data;
mod shape_fault;
mod shape_story;
mod summary;
mod unit_at;
mod unit_counts;
mod witness_meaning;
mod witnessing;
mod written;

pub use explaining::explain;
pub use fields::field_told;
pub use witnessing::witness_story;
