//! Which jobs the hosts' commands are, in which order they are done, which of them are refused before
//! anything is done, and what each of them asks of a unit.
//!
//! [`jobs`] pairs the hosts' commands and puts them in order, [`plan`] is the table of checks, and [`fits`]
//! tests what a job must be before it. [`job_units`] are the units in which a job has a part, [`job_part_in`] is its
//! act or look in one of them, [`only_part`] that of a command that lies in one unit, [`Kind`] says what its parts do and how they can end, and [`Completions`] are what is reported
//! to its host. Where it is known that no check applies, [`ready_job_units`], [`ready_part_count`] and [`job_part_there`] do without
//! another plan. On a namespace of any size [`refusal`] is the table of checks, and the parts of a job are found by their LBAs:
//! [`first_reached`], [`next_reached`] and [`part_at`]. What a job does to the medium and what
//! its outcome is, only specs say; [`laws`] and [`job_laws`] have what holds of these.
#![tactic(auto)]

mod body_fields;
mod checks;
mod completions;
mod decision;
mod fit;
mod job;
pub mod job_laws;
mod job_list;
mod kind;
pub mod laws;
mod lent_part;
mod pairing;
mod part;
mod place;
mod profile;
mod reach;
mod reached;
mod units;

pub use body_fields::{BodyFields, only_part};
pub use checks::{plan, refusal};
pub use completions::Completions;
pub use decision::Plan;
pub use fit::{MOST_HOSTS, fits};
pub use job::{Body, Job};
pub use job_list::jobs;
pub use kind::{Kind, is_read};
pub use lent_part::{LentPart, job_part_in, job_part_there, part_at};
pub use part::{Part, PartResult, Parts};
pub use place::unit_place;
pub use reached::{first_reached, next_reached};
pub use units::{JobUnits, job_part_count, job_units, ready_job_units, ready_part_count};
