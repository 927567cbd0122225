/// What is reported of the course of an audit. Both methods return, and wait for nothing.
pub trait Watcher {
    /// The record has `units` units. What was done is looked at first, and then each unit, unless a fault is found before.
    fn before_units(&self, units: u16);

    /// The unit of this number is audited. Several threads report their units at the same time, each unit once, in no order.
    fn after_unit(&self, unit: u16);
}

/// A watcher that does nothing.
#[derive(Clone, Copy, Debug)]
pub struct Unwatched;

impl Watcher for Unwatched {
    fn before_units(&self, _units: u16) {}

    fn after_unit(&self, _unit: u16) {}
}
