//! Options that take a number.
ghost use Rattle.std.specs.Prelude.{◌≤◌, Some, IfOk, IfSome, codes};
ghost use Rattle.clap.specs.Matches.{first_value, found_of};
ghost use Rattle.nvm_commands.specs.Numbers.{IsGiven};

use crate::front::number_word::number;
use crate::front::words::WordFault;
use clap::{Arg, ArgMatches};
use nvm_record::BlockSize;
use std::alloc::Global;
use std::fmt;
use std::fmt::{Display, Formatter};

/// What was expected of an option's value.
#[derive(Clone, Copy)]
pub enum Expected {
    /// A number.
    Number,
    /// A number from the one to the other.
    Between(u64, u64),
    /// The size of a block.
    Size,
}

impl Display for Expected {
    fn fmt<W: fmt::Write>(&self, f: &mut Formatter<W>) -> fmt::Result {
        match self {
            Expected::Number => f.write_str("expected a number, as in 65536, 0x10000 or 64k"),
            Expected::Between(least, most) => {
                write!(f, "expected a number from {least} to {most}")
            }
            Expected::Size => f.write_str("expected 512 or 4096"),
        }
    }
}

/// An option that takes a number.
pub fn number_option<'a>(alloc: Global, name: &'a str, help: &'a str) -> Arg<'a> {
    Arg::new(alloc, name).long(name).value_name("N").help(help)
}

/// The number that an option has, from `least` to `most`, or `None` where it isn't given.
pub fn number_given(
    alloc: Global,
    words: &ArgMatches<'_>,
    option: &'static str,
    least: u64,
    most: u64,
) -> Result<Option<u64>, WordFault>
    ensures given { IfOk result (IsGiven least most (first_value (found_of words.now) option.now)) }
    ensures range { IfOk result (λ given. IfSome given (λ n. (least ≤ n) × (n ≤ most))) }
{
    let Some(word) = words.get_str(option) else {
        return Ok(None);
    };
    match number(word.as_bytes(), least, most) {
        Ok(value) => Ok(Some(value)),
        Err(expected) => Err(refused(alloc, option, word, expected)),
    }
}

/// The number of 16 bits of an option that has to be given.
pub fn number_of_16_bits(
    alloc: Global,
    words: &ArgMatches<'_>,
    option: &'static str,
) -> Result<u16, WordFault>
    ensures { IfOk result (λ n. IsGiven 0 65535 (first_value (found_of words.now) option.now) (Some n)) }
{
    match number_given(alloc, words, option, 0, 65_535)? {
        Some(value) => Ok(value as u16),
        None => Err(WordFault::Missing),
    }
}

/// The number of 32 bits of an option that has to be given.
pub fn number_of_32_bits(
    alloc: Global,
    words: &ArgMatches<'_>,
    option: &'static str,
) -> Result<u32, WordFault>
    ensures { IfOk result (λ n. IsGiven 0 4294967295 (first_value (found_of words.now) option.now) (Some n)) }
{
    match number_given(alloc, words, option, 0, 4_294_967_295)? {
        Some(value) => Ok(value as u32),
        None => Err(WordFault::Missing),
    }
}

/// The number of 64 bits of an option that has to be given.
pub fn number_of_64_bits(
    alloc: Global,
    words: &ArgMatches<'_>,
    option: &'static str,
) -> Result<u64, WordFault>
    ensures { IfOk result (λ n. IsGiven 0 18446744073709551615 (first_value (found_of words.now) option.now) (Some n)) }
{
    match number_given(alloc, words, option, 0, u64::MAX)? {
        Some(value) => Ok(value),
        None => Err(WordFault::Missing),
    }
}

/// The size of a block that `--block` has.
pub fn size_given(alloc: Global, words: &ArgMatches<'_>) -> Result<BlockSize, WordFault>
    ensures { IfOk result (λ size. IsGiven 0 4294967295 (first_value (found_of words.now) (codes "block")) (Some size)) }
{
    let Some(word) = words.get_str("block") else {
        return Err(WordFault::Missing);
    };
    let bytes = number_of_32_bits(alloc, words, "block")?;
    match BlockSize::new(bytes) {
        Some(size) => Ok(size),
        None => Err(refused(alloc, "block", word, Expected::Size)),
    }
}

/// The fault of an option's value.
fn refused(alloc: Global, option: &'static str, word: &str, expected: Expected) -> WordFault {
    match String::from_str(alloc, word) {
        Ok(word) => WordFault::Value {
            option,
            word,
            expected,
        },
        Err(error) => WordFault::from(error),
    }
}
