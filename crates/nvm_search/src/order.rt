//! The search for an order of points that explains a trace.
//!
//! [`order_of`] cuts the namespace where no entry joins two blocks, searches an order of the points of each part by itself, and merges
//! them. Moves that look right are tried first, and where they lead to no order every one.

mod acts;
mod board;
mod derivation;
mod found;
mod known;
mod lists;
mod making;
mod merging;
mod parts;
mod precedence;
mod search;
mod slots;
mod state;
mod together;
mod trying;

pub use merging::order_of;
