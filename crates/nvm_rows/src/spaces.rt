//! A space and its two ports.
mod ground;
mod ports;

pub use ground::Ground;
