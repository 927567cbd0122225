//! The geometry that a namespace advertises: its boundaries and atomic units, its limits, and how a
//! range of LBAs is cut at the boundaries.
#![tactic(auto)]

mod boundaries;
mod geometry;
mod geometry_fault;
mod large_geometry;
pub mod laws;
mod parts;
mod piece;
mod regions;

pub use geometry::{Geometry, MOST_BLOCKS, MOST_UNITS};
pub use geometry_fault::GeometryFault;
pub use large_geometry::{LargeGeometry, MOST_LARGE_BLOCKS, MOST_UNIT_BLOCKS};
pub use parts::Parts;
pub use piece::Piece;
pub use regions::Regions;
