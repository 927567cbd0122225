//! The options of `run` whose help or range is the same in both programs.
ghost use Rattle.std.specs.Prelude.{IfOk, codes};
ghost use Rattle.clap.specs.Matches.{first_value, found_of};
ghost use Rattle.nvm_commands.specs.Numbers.{IsGiven};

use crate::front::number_options::{number_given, number_option};
use crate::front::words::WordFault;
use clap::{Arg, ArgMatches};
use nvm_engine::Workers;
use nvm_store::Limit;
use std::alloc::Global;

/// `--nsze`.
pub fn nsze<'a>(alloc: Global) -> Arg<'a> {
    number_option(alloc, "nsze", "Size of the namespace in logical blocks")
}

/// `--nabsn`.
pub fn nabsn<'a>(alloc: Global) -> Arg<'a> {
    number_option(
        alloc,
        "nabsn",
        "Atomic boundary size, zeroes-based: 0 is none",
    )
}

/// `--nabo`.
pub fn nabo<'a>(alloc: Global) -> Arg<'a> {
    number_option(alloc, "nabo", "Atomic boundary offset")
}

/// `--limit`.
pub fn limit<'a>(alloc: Global) -> Arg<'a> {
    number_option(alloc, "limit", "Most changes of a unit, 1 to 4194304")
}

/// The number that `--limit` has, from 1 to 4,194,304, or `None` where it isn't given.
pub fn limit_given(alloc: Global, words: &ArgMatches<'_>) -> Result<Option<Limit>, WordFault>
    ensures { IfOk result (IsGiven 1 4194304 (first_value (found_of words.now) (codes "limit"))) }
{
    match number_given(alloc, words, "limit", 1, 4_194_304)? {
        Some(most) => Ok(Limit::new(most as u32)),
        None => Ok(None),
    }
}

/// The number that `--workers` has, from 1 to 64, or `None` where it isn't given.
pub fn workers_given(alloc: Global, words: &ArgMatches<'_>) -> Result<Option<Workers>, WordFault>
    ensures { IfOk result (IsGiven 1 64 (first_value (found_of words.now) (codes "workers"))) }
{
    match number_given(alloc, words, "workers", 1, 64)? {
        Some(count) => Ok(Workers::new(count as u16)),
        None => Ok(None),
    }
}
