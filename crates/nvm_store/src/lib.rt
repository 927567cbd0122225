//! The blocks of one unit, what is done to them and asked of them, and the histories that say how
//! they came to be.
//!
//! [`judge`], [`apply`] and [`answer`] are the step of a command on the unit's LBAs, for every medium
//! whose blocks the unit holds; [`UnitBlocks::change`] is the same step in place, and [`replay`] the
//! steps of a whole history. Which acts and looks lie in a unit, [`Place::covers`] and
//! [`Place::covers_look`] tell.
#![tactic(auto)]

mod act;
mod act_ref;
mod blocks;
mod comparison;
mod cut_ranges;
mod entry;
mod history;
pub mod laws;
mod limit;
mod look;
mod place;
mod step;
mod unit_blocks;

pub use act::Act;
pub use act_ref::ActRef;
pub use entry::Entry;
pub use history::{History, replay};
pub use limit::Limit;
pub use look::{Answer, Look};
pub use place::Place;
pub use step::{answer, answer_into, apply, judge, judge_look};
pub use unit_blocks::UnitBlocks;
