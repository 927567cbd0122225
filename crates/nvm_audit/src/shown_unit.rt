use crate::done_part::DonePart;
use nvm_geometry::Geometry;
use nvm_plan::Job;
use nvm_store::{History, Limit};

/// All that a record shows of one unit.
#[derive(Clone, Copy, Debug)]
pub(crate) struct ShownUnit<'a, 'p> {
    pub geometry: &'a Geometry,
    pub limit: Limit,
    /// The record's jobs.
    pub jobs: &'a Vec<Job>,
    /// The number of the unit.
    pub unit: u16,
    pub history: &'a History,
    /// The parts that name the unit, by worker and in the worker's order.
    pub parts: &'p Vec<DonePart<'a>>,
}
