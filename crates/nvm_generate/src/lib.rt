//! Loads that find bugs in devices: the commands that each host is to ask for, by a seed.
//!
//! What finds bugs is few units that all hosts write and read at the same time, mostly as a whole, and fused pairs on them. So a
//! load goes to all blocks of a namespace, which is to be a small one: three in four commands have a whole unit. The data of each block of
//! a Write is a stamp that no other block of any host has, so that a Read says whose Write it found. A Compare has what its
//! host wrote last, mostly.
//!
//! [`jobs_of_load`] gives the jobs of a host, and [`list_of_load`] the list that says their commands. The same load and host give
//! the same commands on each machine.
#![tactic(auto)]

mod asking;
mod commands;
mod dice;
mod kind;
pub mod laws;
mod load;
mod loads;
mod range;
mod stamp;

pub use load::{Load, Mix};
pub use loads::{jobs_of_load, list_of_load};
