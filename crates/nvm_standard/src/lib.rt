//! What the standard says of a trace (docs/STANDARD.md): the points of its commands, when an order of these explains it, and which facts
//! show that none does.
//!
//! A [`Point`] is what a command does at one moment, or block by block at moments of their own: [`points_of`] gives the table of points that
//! the page has of each command of a trace. An [`Order`] places the points of a table one after the other, and [`explains`] says whether it
//! keeps each clause of the page, "An explanation". Then it explains the trace, whoever found it.
//!
//! A [`Contradiction`] is a list of [`Fact`]s of a table: of two points, the one comes at a block before the other. [`contradicts`] says yes
//! only where each fact is given by its rule and the facts before it, and together they are absurd. Then no order of the points explains the
//! trace, which is proved. Neither looks for what it judges: whoever found an order or a contradiction need not be trusted.
#![tactic(auto)]

mod bytes;
mod checking;
mod commands;
mod contradicting;
mod contradiction;
mod contradiction_fault;
mod deallocating;
mod dividing;
mod doer;
mod done_rows;
mod explaining;
mod fact;
mod fitting;
mod following;
mod holding;
mod known;
mod making;
mod node;
mod noting;
mod order;
mod order_fault;
mod pairing;
mod pairs;
mod point;
mod points;
mod points_fault;
mod positions;
mod presence;
mod profile;
mod readings;
mod rows;
mod rules;
mod run;
mod serving;
mod times;
mod timing;
mod told;
mod tying;

pub use bytes::bytes_at;
pub use contradicting::contradicts;
pub use contradiction::{Conclusion, Contradiction};
pub use contradiction_fault::ContradictionFault;
pub use deallocating::is_put;
pub use explaining::explains;
pub use fact::Fact;
pub use holding::may_find;
pub use making::points_of;
pub use node::Node;
pub use nvm_trace::Deallocated;
pub use order::{Content, FirstContent, Order, Placed, Value};
pub use order_fault::OrderFault;
pub use point::{Found, Point, Presence, Put};
pub use points::Points;
pub use points_fault::PointsFault;
pub use profile::{Held, Profile};
