//! What is printed of commands and their completions: a line for each command, with the data that a
//! Read answers as runs of equal bytes. And bytes to a writer, of which it is known what it took.
//!
//! The functions `write_*` write to a writer, and take no memory of their own. Where the writer fails, its error is answered, and
//! it has taken a front of the text and nothing else: [`hand`] hands over bytes so. Most pieces are short, so hand it a [`BufWriter`](std::io::BufWriter) where each write costs.
//!
//! [`OpName`], [`StatusText`], [`StatusesText`], [`RunsText`] and [`HexByte`] are displayed as the same texts, so that other crates
//! write a line by one `write!`.
//!
//! Texts that were written by hand are in `examples/programs.py`, which holds the built programs to them.
#![tactic(auto)]

mod digit;
mod front;
mod handing;
mod hex_byte;
pub mod laws;
mod line;
mod name;
mod number;
mod piece;
mod run;
mod status;

pub use handing::{Failed, Noted, hand, hand_noting, noted_error};
pub use hex_byte::HexByte;
pub use line::write_line;
pub use name::OpName;
pub use number::write_decimal;
pub use piece::Piece;
pub use run::{RunsText, write_runs};
pub use status::{StatusText, StatusesText};
