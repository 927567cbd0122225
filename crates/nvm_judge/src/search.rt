use nvm_record::NoMemory;
use nvm_standard::{Contradiction, Order, Points};
use std::alloc::Global;

/// Why a search that found no order ended.
#[derive(Clone, Copy, Debug, PartialEq, Eq)]
pub enum Stop {
    /// It went on for as long as it might: a longer one may find an order.
    Effort,
    /// No order explains the points.
    Everything,
}

/// Who looks for a verdict's evidence. Nobody has to trust what is found: [`judge`](crate::judge) gives only what a walk over it takes.
///
/// Both go on for as long as `effort` allows, and return `NoMemory` where a growth was refused: nothing is known then.
pub trait Search {
    /// An order that explains the points, if one is found, or else why the search for one ended.
    fn order_of<'t>(
        &self,
        alloc: Global,
        points: &Points<'t>,
        effort: u32,
    ) -> Result<Result<Order<'t>, Stop>, NoMemory>;

    /// A contradiction of the points, if one is found.
    fn contradiction_of(
        &self,
        alloc: Global,
        points: &Points<'_>,
        effort: u32,
    ) -> Result<Option<Contradiction>, NoMemory>;
}
