//! What threads know of a unit. It exists in proofs alone: no value of these types is made.

use crate::bounds::Bounds;
use nvm_store::Entry;
use std::collections::LinkedList;

/// What the caller of one pass has seen and done.
pub struct PassView {
    /// The pass's number.
    pub number: u64,
    /// What is settled of its unit.
    pub bounds: Bounds,
    /// The entries that it has seen: all those with which the unit's history began when a step last
    /// showed it.
    pub seen: LinkedList<Entry>,
    /// The entries that it made, each with its place in the history.
    pub mine: LinkedList<(u64, Entry)>,
    /// The number of entries that the deciding step of each of its changes and observations found, in
    /// their order.
    pub marks: LinkedList<u64>,
    /// The number of entries that its last step found.
    pub floor: u64,
}

/// What one seat carries.
pub struct Group {
    /// The views of its passes: none of a spent seat.
    pub passes: LinkedList<PassView>,
    /// The history, while it holds the unit.
    pub held: Option<LinkedList<Entry>>,
}
