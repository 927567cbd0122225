//! One atomic unit that many threads share: its blocks, and the history of their changes.
//!
//! [`Unit::new`] gives a unit with its passes, which threads take with them. [`Unit::change`] and
//! [`Unit::observe`] are one atomic step each, and what they answer is the step of the command after a
//! number of entries of the unit's history that isn't below what the pass had seen. What a pass has seen
//! grows at each call; [`Unit::meet`] brings two passes to one history, and [`Unit::close`] gives the whole.
//! [`Unit::unrecorded`] gives one that keeps the number of its entries alone, with the same contracts.
//!
//! Those two wait for a unit that another pass has. [`Unit::try_change`] and [`Unit::look`] never do, nor do
//! [`Unit::poll_change`], [`Unit::poll_observe`] and [`Unit::poll_observe_into`], which are called again until the unit was free.
//!
//! A unit has one word: twice the number of entries, and one more while a pass holds the unit. All steps on
//! it are in the module `steps`, and each keeps the rule that the unit's state is one to which the seven
//! kinds of events lead. That every list of such events leads to a sound state is a law of [`laws`].
#![tactic(auto)]

mod attempt;
mod book;
mod bounds;
mod changes;
mod count;
mod gate;
mod kept;
mod latch;
pub mod laws;
mod looks;
mod pass;
mod replies;
mod rule;
mod seats;
mod snapshot;
mod steps;
mod taking;
mod told;
mod unit;
mod unit_fault;
mod views;
mod visits;

pub use bounds::Bounds;
pub use count::Count;
pub use gate::{Gate, Open};
pub use kept::Kept;
pub use pass::Pass;
pub use replies::{Busy, Changed, LookFault, ObserveFault, Observed, ObservedStatus};
pub use unit::{MOST_ENTRIES, MOST_PASSES, Unit};
pub use unit_fault::UnitFault;
