//! What lists and records say. What a record and a run hold, item by item, and all that is wrong in a record; and how these are shown: as
//! lines for people, and as objects of JSON for programs. What command lists expect of a run, whether the run met it, and all lines of a list
//! that are no commands.
//!
//! [`items`] are the jobs, the entries and the done jobs of a record, each once and in order. [`answers`] are what the host of each
//! command of a run was answered. [`all_faults`] audits a record as [`nvm_audit::audit`] does; where that finds a fault in a unit, it looks on, and
//! answers the first fault of each unit that has one.
//!
//! [`list_record`] and [`list_as_objects`] show items, [`answers_as_objects`] answers, and [`list_faults`] faults. What is printed of each no
//! contract says: `examples/listings.py`, `listed_objects.py`, `objects_run.py` and `faulty.py` hold the built `nvq` to that.
//! [`push_namespace`], [`push_body`], [`push_entry`], [`push_done`], [`push_part`], [`push_verdict`] and [`push_fault`] append the lines of one thing,
//! and [`SentObjects`], [`StatusStrings`] and [`DataValue`] are values of JSON, for texts that have some of them.
//!
//! A command of a list may be followed by the word `expect` and the status with which it has to end, as in
//! `compare 0 1 00 first expect 2/85`. [`expectations`] reads what each command of a list expects, and [`without_expectations`] is
//! the list without that, line by line, which is what [`nvm_list`] reads. [`checks`] puts each expectation beside the status that
//! a run's record has of its command, and [`checks_text`] is what is printed of that.
//!
//! [`nvm_list`] answers the first wrong line of a list in place of commands. [`wrong_lines`] goes on after it, and gives each with what
//! was expected in it. A wrong line counts as no command, and the lines after it are read as if it weren't there.
#![tactic(auto)]

mod answer;
mod check;
mod check_text;
mod checking;
mod expectation_fault;
mod expecting;
mod faults;
mod finding;
mod item;
mod lines;
mod list_line;
mod named_units;
mod objects;
mod status_word;
mod stripping;
mod unit_faults;
mod values;
mod verdict;
mod wrong_list;

pub use answer::{Answer, answers};
pub use check::Check;
pub use check_text::{checks_text, unmet_count};
pub use checking::checks;
pub use expectation_fault::{ExpectationFault, Expected};
pub use expecting::expectations;
pub use faults::Faults;
pub use finding::all_faults;
pub use item::{Item, items};
pub use lines::{
    ActText, list_record, push_body, push_done, push_entry, push_namespace, push_part, result_word,
};
pub use objects::{answers_as_objects, list_as_objects};
pub use stripping::without_expectations;
pub use values::{DataValue, SentObjects, StatusStrings};
pub use verdict::{list_faults, push_fault, push_verdict};
pub use wrong_list::{WrongLine, wrong_lines};
