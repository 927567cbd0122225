//! The searches for evidence of a trace's verdict: an order of its points that explains it, and a contradiction among them.
//!
//! `order_of` looks for the one, and `contradiction_of` for the other; both number what they compare (`numbers`). Nothing here is
//! trusted, and no library stands on it: an order counts only where [`explains`](nvm_standard::explains) takes it, and a contradiction
//! only where [`contradicts`](nvm_standard::contradicts) does.
#![tactic(auto)]

mod contradiction;
mod numbers;
mod order;

use nvm_judge::{Search, Stop};
use nvm_record::NoMemory;
use nvm_standard::{Contradiction, Order, Points};
use std::alloc::Global;

/// The searches of this crate.
#[derive(Clone, Copy)]
pub struct Searches;

impl Search for Searches {
    /// For each of `effort` some hundred acts are looked at.
    fn order_of<'t>(
        &self,
        alloc: Global,
        points: &Points<'t>,
        effort: u32,
    ) -> Result<Result<Order<'t>, Stop>, NoMemory> {
        order::order_of(alloc, points, effort)
    }

    /// `effort` is how many points, each at one of its blocks, are looked at together at most, from 64 to 2,048. Of more those that are
    /// near in time are, so a contradiction may be missed.
    fn contradiction_of(
        &self,
        alloc: Global,
        points: &Points<'_>,
        effort: u32,
    ) -> Result<Option<Contradiction>, NoMemory> {
        contradiction::contradiction_of(alloc, points, effort)
    }
}
