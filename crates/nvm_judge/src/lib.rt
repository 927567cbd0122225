//! Whether a trace is explained by an order of points, as docs/STANDARD.md asks, or contradicted: from the trace to a judgment that is proved.
//!
//! [`judge`] makes the table of the trace's points and has a [`Search`] look for an order of them, and then for a contradiction. It needs no
//! trust: an order is given only where the walk of [nvm_standard](../nvm_standard) takes it, and so is a contradiction.
//! [`check_order`] says whether an order that comes from elsewhere explains a trace, and [`check_contradiction`] whether a
//! contradiction shows that none does.
#![tactic(auto)]

mod check_fault;
mod checking;
mod judging;
mod judgment;
mod refute_fault;
mod refuting;
mod search;

pub use check_fault::CheckFault;
pub use checking::check_order;
pub use judging::{judge, profile_of};
pub use judgment::Judgment;
pub use refute_fault::RefuteFault;
pub use refuting::check_contradiction;
pub use search::{Search, Stop};
