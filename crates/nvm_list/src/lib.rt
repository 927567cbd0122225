//! Command lists: a host file as text that people write and read.
//!
//! A line of a list is a command: `write LBA BLOCKS DATA`, `read LBA BLOCKS`, `compare LBA BLOCKS DATA`,
//! `zeroes LBA BLOCKS`, `uncorrectable LBA BLOCKS`, `dataset LBA+BLOCKS,LBA+BLOCKS` of up to 256 ranges, or
//! `op-7f LBA BLOCKS`, and then options, each at most once and in any order: `first`, `second` or `reserved`,
//! `cid=N` and `nsid=N`, and `deallocate` after ranges. `#` starts a comment, and a line without words is
//! passed over.
//!
//! [`assemble`] makes a list into the bytes of a host file, and [`list_file`] lists those. Lists that were written by
//! hand, with their commands and faults, are in `examples/programs.py`, which holds the built `nvq` to them.
//! [`OperandsText`] and its kin display some of the words of one command, for callers that list commands among other things, and
//! [`next_said`] gives what a list says of its commands, one after the other. [`command_of_words`], [`payload`], [`first_word`] and
//! their kin read the words of one command, for other texts that have commands in them.
#![tactic(auto)]

mod command_line;
mod data_word;
mod expected;
mod fault;
pub mod laws;
mod line_cut;
mod line_pieces;
mod listing;
mod lists;
mod name_word;
mod number_word;
mod operands;
mod option_words;
mod range_word;
mod run;
mod said;

pub use data_word::payload;
pub use expected::Expected;
pub use fault::{LineFault, ListFault};
pub use line_cut::{cut, first_word, is_blank, place_of, without_comment};
pub use line_pieces::{CommandText, OperandsText, RangesText, deallocate_option, fuse_option};
pub use listing::{list, list_file};
pub use lists::{assemble, command_of_words, read_list};
pub use number_word::{hex_byte, number};
pub use said::next_said;
