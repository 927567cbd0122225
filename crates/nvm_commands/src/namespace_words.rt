//! The words that say what the namespace is like, of `nvq run` and `nvq generate`.

use crate::front::{
    WordFault, nabo, nabsn, nsze, number_given, number_of_16_bits, number_of_64_bits,
    number_option, size_given,
};
use clap::{Arg, ArgMatches, Command, Error};
use nvm_record::BlockSize;
use std::alloc::Global;

/// The numbers of the namespace.
#[derive(Clone, Copy)]
pub struct NamespaceWords {
    pub size: BlockSize,
    pub nsze: u64,
    pub nabsn: u16,
    pub nabo: u16,
    /// As many blocks as a unit has, where it isn't given.
    pub nawun: u16,
    /// As many blocks as a unit has, where it isn't given.
    pub nacwu: u16,
}

/// What the words say.
pub fn read_namespace(alloc: Global, words: &ArgMatches<'_>) -> Result<NamespaceWords, WordFault> {
    let size = size_given(alloc, words)?;
    let nsze = number_of_64_bits(alloc, words, "nsze")?;
    let nabsn = number_of_16_bits(alloc, words, "nabsn")?;
    Ok(NamespaceWords {
        size,
        nsze,
        nabsn,
        nabo: number_of_16_bits(alloc, words, "nabo")?,
        nawun: unit_given(alloc, words, "nawun", nabsn)?,
        nacwu: unit_given(alloc, words, "nacwu", nabsn)?,
    })
}

/// The zeroes-based number of blocks that an option has, or else that of a whole unit. Without boundaries that is the highest number.
fn unit_given(
    alloc: Global,
    words: &ArgMatches<'_>,
    option: &'static str,
    nabsn: u16,
) -> Result<u16, WordFault> {
    match number_given(alloc, words, option, 0, 65_535)? {
        Some(value) => Ok(value as u16),
        None if nabsn == 0 => Ok(u16::MAX),
        None => Ok(nabsn),
    }
}

/// A command with the options that say what the namespace is like. The namespace has `blocks` blocks where no number is given.
pub fn with_namespace<'a>(
    alloc: Global,
    command: Command<'a>,
    blocks: &'a str,
) -> Result<Command<'a>, Error> {
    let nawun = number_option(
        alloc,
        "nawun",
        "Atomic write unit, zeroes-based [default: a whole unit]",
    );
    let nacwu = number_option(
        alloc,
        "nacwu",
        "Atomic compare and write unit, zeroes-based [default: a whole unit]",
    );
    Ok(
        command
            .arg(nsze(alloc).default_value(blocks))?
            .arg(block(alloc))?
            .arg(nabsn(alloc).default_value("7"))?
            .arg(nabo(alloc).default_value("0"))?
            .arg(nawun)?
            .arg(nacwu)?,
    )
}

/// The option that says how large a block is.
pub fn block<'a>(alloc: Global) -> Arg<'a> {
    number_option(
        alloc,
        "block",
        "Size of a logical block in bytes, 512 or 4096",
    )
    .default_value("512")
}
