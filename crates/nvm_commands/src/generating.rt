//! `nvq generate`: the lists of a load are written.
ghost use Rattle.std.specs.Prelude.{◌≡◌, ◌≤◌, ℕ, List, IfOk, IfErr, length, map, string_bytes};
ghost use Rattle.nvm_plan.specs.Fits.{most_hosts};
ghost use Rattle.nvm_commands.specs.Files.{IsWriteFault, IsWritingFault};
ghost use Rattle.nvm_commands.specs.Generated.{AreListsOfLoad, IsGeneratingFault, IsLoadFault, IsLoadOf};

use crate::failure::{Failure, of_run};
use crate::fault::Fault;
use crate::front::{FileFault, Output, Progress, is_one_output};
use crate::generating_words::GenerateWords;
use crate::written_files::{made, unmade, unwritten};
use nvm_generate::{Load, list_of_load};
use nvm_geometry::Geometry;
use nvm_plan::MOST_HOSTS;
use std::alloc::{AllocError, Global};
use std::collections::VecDeque;
use std::io::Write;
use std::rt::Files;

/// Why nothing is written to a path to which another list goes.
const OF_ANOTHER: &str = "the list of another host goes there";

/// Writes a list for each host. All are generated before the first file is begun, and written before the first takes its place. After a
/// fault no list is written, or only those before one that couldn't take its place.
pub fn run_generate<R: AllocGlobal + Files + Print + Eprint>(
    rt: &R,
    words: &GenerateWords,
    progress: &Progress<'_, R>,
) -> Result<(), Failure>
    ensures { IfErr result (λ failure. IsGeneratingFault words.now failure.fault) }
{
    let count = words.outs.len();
    let load = match load_of(words) {
        Ok(load) => load,
        Err(fault) => return Err(of_run(rt.alloc(), fault, count)),
    };
    let outs = words.outs.as_slice();
    check_outs(rt, outs)?;
    let texts = lists_of(rt.alloc(), &load, count as u8)?;
    write_lists(rt, outs, texts.as_slice(), progress)
}

/// The load of the words' numbers, or why there is none.
fn load_of(words: &GenerateWords) -> Result<Load, Fault>
    ensures load { IfOk result (IsLoadOf words.now) }
    ensures few { IfOk result (λ _. length words.now.outs.items ≤ most_hosts) }
    ensures fault { IfErr result (IsLoadFault words.now) }
{
    if words.outs.len() > MOST_HOSTS as usize {
        return Err(Fault::TooManyHosts);
    }
    let it = &words.namespace;
    match Geometry::new(
        it.nsze,
        it.size.bytes(),
        it.nabsn,
        it.nabo,
        it.nawun,
        it.nacwu,
    ) {
        Ok(geometry) => Ok(Load {
            seed: words.seed,
            commands: words.commands,
            geometry,
            mix: words.mix,
        }),
        Err(fault) => Err(Fault::Geometry(fault)),
    }
}

/// No two lists go to one place.
fn check_outs<R: Files + AllocGlobal>(rt: &R, outs: &[String]) -> Result<(), Failure>
    ensures { IfErr result (λ failure. IsWritingFault (map (λ path. string_bytes path) outs.now) failure.fault) }
{
    for (place, out) in outs.iter().enumerate() {
        for other in &outs[..place] {
            check_apart(rt, out.as_str(), other.as_str())?;
        }
    }
    Ok(())
}

/// Refuses a path to which another list goes. The hint below the fault says why.
fn check_apart<R: Files + AllocGlobal>(rt: &R, out: &str, other: &str) -> Result<(), Failure>
    ensures { IfErr result (λ failure. IsWriteFault out.now failure.fault) }
{
    if is_one_output(rt, out, other)? {
        return Err(unwritten(rt.alloc(), out, Some(OF_ANOTHER)));
    }
    Ok(())
}

/// The lists of `count` hosts, from host 1 on.
fn lists_of(alloc: Global, load: &Load, count: u8) -> Result<Vec<String>, AllocError>
    ensures lists { IfOk result (λ texts. AreListsOfLoad load.now 1 (map (λ text. string_bytes text) texts.items)) }
    ensures each { IfOk result (λ texts. length texts.items ≡ count) }
{
    let mut texts = Vec::with_capacity(alloc, count as usize)?;
    for before in 0..count {
        let text = list_of_load(alloc, load, before + 1)?;
        texts.push(text)?;
    }
    Ok(texts)
}

/// Writes each text to its path. A file takes its place once all are written.
fn write_lists<'a, R: AllocGlobal + Files + Print + Eprint>(
    rt: &'a R,
    outs: &'a [String],
    texts: &[String],
    progress: &'a Progress<'a, R>,
) -> Result<(), Failure>
    requires { length texts.now ≡ length outs.now }
    ensures { IfErr result (λ failure. IsWritingFault (map (λ path. string_bytes path) outs.now) failure.fault) }
{
    let mut outputs = VecDeque::with_capacity(rt.alloc(), outs.len())?;
    for (place, out) in outs.iter().enumerate() {
        let (path, text) = (out.as_str(), texts[place].as_str());
        match filled(rt, path, text, progress) {
            Ok(output) => outputs.push_back(output)?,
            Err(fault) => return Err(unmade(rt.alloc(), path, fault)),
        }
    }
    // A link that led to nothing leads to its file now.
    check_outs(rt, outs)?;
    for out in outs {
        if let Some(output) = outputs.pop_front() {
            made(rt.alloc(), out.as_str(), output.finish())?;
        }
    }
    Ok(())
}

/// A text that is written to a path, and not yet in its place.
fn filled<'a, R: AllocGlobal + Files + Print + Eprint>(
    rt: &'a R,
    out: &'a str,
    text: &str,
    progress: &'a Progress<'a, R>,
) -> Result<Output<'a, R>, FileFault> {
    let mut output = Output::new(rt, out, progress)?;
    output.write_all(text.as_bytes())?;
    output.flush()?;
    Ok(output)
}
