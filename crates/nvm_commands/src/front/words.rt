//! The faults of a command line's words.
use crate::front::number_options::Expected;
use clap::Error;
use clap::error::ErrorKind;
use std::alloc::{AllocError, AllocFailed};
use std::rt::Env;
use std::{env, io};

/// Why the words of the command line ask for nothing that can be done.
#[derive(Drop)]
pub enum WordFault {
    /// What `clap` says of them. A call for help is one, too.
    Words(Error),
    /// An option has a value that it doesn't take.
    Value {
        option: &'static str,
        word: String,
        expected: Expected,
    },
    /// Something is missing in them, although `clap` took them.
    Missing,
    /// One of them isn't UTF-8, or they couldn't be had.
    NotText,
    /// Memory was asked for and refused.
    NoMemory,
}

impl From<Error> for WordFault {
    fn from(error: Error) -> WordFault {
        match error.kind() {
            ErrorKind::OutOfMemory => WordFault::NoMemory,
            _ => WordFault::Words(error),
        }
    }
}

impl From<io::Error> for WordFault {
    fn from(error: io::Error) -> WordFault {
        match error.kind() {
            io::ErrorKind::OutOfMemory => WordFault::NoMemory,
            _ => WordFault::NotText,
        }
    }
}

impl From<AllocError> for WordFault {
    fn from(_e: AllocError) -> WordFault {
        WordFault::NoMemory
    }
}

impl<T: Drop> From<AllocFailed<T>> for WordFault {
    fn from(_e: AllocFailed<T>) -> WordFault {
        WordFault::NoMemory
    }
}

/// The words after the program's name.
pub fn words_given<R: AllocGlobal + Env>(rt: &R) -> Result<Vec<String>, WordFault> {
    let mut words = Vec::new(rt.alloc());
    for word in env::args(rt)?.skip(1) {
        words.push(word)?;
    }
    Ok(words)
}

/// The fault where standard output couldn't be written.
pub const UNWRITTEN: &str = "cannot write standard output";

/// Says what is wrong with the words on standard error, or gives what they ask for on standard output, as help. Gives the exit
/// status: 0 where they asked for that and had it, and else 1. For want of memory the program's one line says so. Where standard
/// output doesn't take it, nothing is said yet: the error is why.
pub fn tell<R: AllocGlobal + Print + Eprint>(
    rt: &R,
    program: &str,
    fault: WordFault,
) -> Result<u8, io::ErrorKind> {
    match fault {
        WordFault::Words(error) => {
            let is_fault = error.use_stderr();
            match error.print(rt) {
                Ok(()) => return Ok(u8::from(is_fault)),
                Err(_) if is_fault => {}
                Err(error) => return Err(error.kind()),
            }
        }
        WordFault::Value {
            option,
            word,
            expected,
        } => {
            let _ = eprintln!(rt;
                "error: invalid value '{word}' for '--{option}': {expected}\n\nFor more information, try '--help'."
            );
        }
        WordFault::Missing => {
            let _ = rt.eprintln("error: a value is missing\n\nFor more information, try '--help'.");
        }
        WordFault::NotText => {
            let _ = rt.eprintln("error: invalid UTF-8 was detected in one or more arguments");
        }
        WordFault::NoMemory => {
            let _ = eprintln!(rt; "{program}: no memory");
        }
    }
    Ok(1)
}
