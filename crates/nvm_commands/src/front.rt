//! The front of a program: the words of its command line, files and standard streams, and what is said where words
//! ask for nothing that can be done. A file that is written appears whole or not at all ([`Output`]).
//!
//! Options that take a number read it by [`number`], whose contract says which words are which numbers. Of files and streams no clause can
//! say what they hold, so few other functions here have one: `examples/check` holds the built programs to what they must say.

mod arguments;
mod failure;
mod files;
mod judging_words;
mod number_options;
mod number_word;
mod output;
mod progress;
mod run_options;
mod unfinished;
mod version;
mod words;

pub use arguments::{
    file_argument, file_arguments, flag, path_given, path_named, path_option, paths_named,
};
pub use failure::failed;
pub use files::{
    FileFault, InputKind, STANDARD, is_input, is_one_output, is_output, is_read, read_input, write,
    write_run,
};
pub use judging_words::{
    AuditWords, Telling, WitnessWords, audit_command, json, judging_of, read_audit, read_witness,
    strict, telling_of, trace, witness_command,
};
pub use number_options::{
    Expected, number_given, number_of_16_bits, number_of_32_bits, number_of_64_bits, number_option,
    size_given,
};
pub use output::Output;
pub use progress::{JobProgress, Progress};
pub use run_options::{limit, limit_given, nabo, nabsn, nsze, workers_given};
pub use version::VERSION;
pub use words::{UNWRITTEN, WordFault, tell, words_given};
