//! The words of `nvq generate`.
ghost use Rattle.std.specs.Prelude.{◌≤◌, IfOk, length};

use crate::front::{
    WordFault, file_arguments, number_given, number_of_16_bits, number_of_64_bits, number_option,
    paths_named,
};
use crate::namespace_words::{NamespaceWords, read_namespace, with_namespace};
use clap::{Arg, ArgMatches, Command, Error};
use nvm_generate::Mix;
use std::alloc::Global;

/// What the words of `nvq generate` say: the numbers of the load, and where its lists go.
#[derive(Drop)]
pub struct GenerateWords {
    pub seed: u64,
    /// How many commands each list has.
    pub commands: u16,
    pub namespace: NamespaceWords,
    pub mix: Mix,
    /// Where the lists go, host 1's first, at least one.
    pub outs: Vec<String>,
}

/// What the words say.
pub fn read_generate(alloc: Global, words: &ArgMatches<'_>) -> Result<GenerateWords, WordFault>
    ensures { IfOk result (λ load. 1 ≤ length load.outs.items) }
{
    let seed = number_of_64_bits(alloc, words, "seed")?;
    let Some(commands) = number_given(alloc, words, "commands", 1, 65_535)? else {
        return Err(WordFault::Missing);
    };
    Ok(GenerateWords {
        seed,
        commands: commands as u16,
        namespace: read_namespace(alloc, words)?,
        mix: mix_of(alloc, words)?,
        outs: paths_named(alloc, words, "out")?,
    })
}

/// The weights of the kinds.
fn mix_of(alloc: Global, words: &ArgMatches<'_>) -> Result<Mix, WordFault> {
    Ok(Mix {
        write: number_of_16_bits(alloc, words, "write")?,
        read: number_of_16_bits(alloc, words, "read")?,
        compare: number_of_16_bits(alloc, words, "compare")?,
        pair: number_of_16_bits(alloc, words, "pair")?,
        zeroes: number_of_16_bits(alloc, words, "zeroes")?,
        uncorrectable: number_of_16_bits(alloc, words, "uncorrectable")?,
        deallocate: number_of_16_bits(alloc, words, "deallocate")?,
    })
}

/// `nvq generate`.
pub fn generate_command<'a>(alloc: Global) -> Result<Command<'a>, Error> {
    let seed = number_option(alloc, "seed", "The same words and seed give the same lists");
    let commands = number_option(
        alloc,
        "commands",
        "Number of commands of each list, 1 to 65535",
    );
    let outs = file_arguments(
        alloc,
        "out",
        "OUT",
        "Where the lists go, host 1's first; one may be - for standard output",
    );
    let command = Command::new(alloc, "generate")
        .about("Writes lists of commands that find bugs in devices, one for each host")
        .arg(seed.default_value("1"))?
        .arg(commands.default_value("1000"))?;
    let command = with_namespace(alloc, command, "32")?
        .arg(weight(
            alloc,
            "write",
            "40",
            "Weight of Writes among all kinds; 0 is none",
        ))?
        .arg(weight(alloc, "read", "40", "Weight of Reads"))?
        .arg(weight(alloc, "compare", "5", "Weight of Compares"))?
        .arg(weight(alloc, "pair", "10", "Weight of fused Compares and Writes"))?
        .arg(weight(alloc, "zeroes", "3", "Weight of Write Zeroes"))?
        .arg(weight(alloc, "uncorrectable", "0", "Weight of Write Uncorrectable"))?
        .arg(weight(alloc, "deallocate", "0", "Weight of Deallocates"))?;
    Ok(command.arg(outs)?)
}

/// How often a kind is asked for, relative to the others.
fn weight<'a>(alloc: Global, name: &'a str, value: &'a str, help: &'a str) -> Arg<'a> {
    number_option(alloc, name, help).default_value(value)
}
