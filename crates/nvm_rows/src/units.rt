//! A shared unit and its two passes.
mod ground;
mod passes;

pub use ground::Ground;
