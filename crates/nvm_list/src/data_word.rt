ghost use Rattle.std.specs.Prelude.{◌≡◌, IfOk, option_map, replicate};
ghost use Rattle.nvm_text.specs.Runs.{written_out};
ghost use Rattle.nvm_list.specs.Commas.{read_parts};
ghost use Rattle.nvm_list.specs.Data as spec;
ghost use Rattle.nvm_list.specs.Data.{read_run};
ghost use Rattle.nvm_list.specs.Answers.{Gives};

use crate::expected::Expected;
use crate::fault::LineFault;
use crate::line_cut::cut;
use crate::number_word::hex_byte;
use crate::run::Run;
use nvm_record::{NoMemory, Payload};
use std::alloc::Global;

/// The `wanted` bytes that a word says: runs that add up to them, or two hexadecimal digits, which fill
/// them.
pub fn payload(alloc: Global, word: &[u8], wanted: u64) -> Result<Payload, LineFault>
    ensures { Gives (λ p. p) result (spec.payload wanted word.now) }
{
    match hex_byte(word) {
        Some(byte) => Ok(filled(alloc, wanted, byte)?),
        None => payload_of_runs(alloc, word, wanted),
    }
}

/// The same byte, `wanted` times.
fn filled(alloc: Global, wanted: u64, byte: u8) -> Result<Payload, NoMemory>
    ensures { IfOk result (λ p. p ≡ replicate wanted byte) }
{
    let mut bytes = Vec::new(alloc);
    bytes.resize(wanted as usize, byte)?;
    Payload::new(alloc, bytes)
}

/// The bytes of runs, which add up to `wanted`.
fn payload_of_runs(alloc: Global, word: &[u8], wanted: u64) -> Result<Payload, LineFault>
    ensures { Gives (λ p. p) result
        (spec.data_of_runs wanted (read_parts read_run word.now)) }
{
    let Some(runs) = runs_of(alloc, word)? else {
        return Err(LineFault::Expected(Expected::Data));
    };
    let found = total(&runs);
    if found != u128::from(wanted) {
        return Err(LineFault::Expected(Expected::DataLength { wanted, found }));
    }
    Ok(written(alloc, &runs, wanted)?)
}

/// The runs that commas part, or `None` where something there isn't a run.
fn runs_of(alloc: Global, word: &[u8]) -> Result<Option<Vec<Run>>, NoMemory>
    ensures { IfOk result
        (λ runs. option_map (λ v. v.items) runs ≡ read_parts read_run word.now) }
{
    let mut runs = Vec::new(alloc);
    let mut rest = Some(word);
    while let Some(bytes) = rest {
        let (text, after) = cut(bytes, b',');
        let Some(run) = Run::read(text) else {
            return Ok(None);
        };
        runs.push(run)?;
        rest = after;
    }
    Ok(Some(runs))
}

/// How many bytes the runs have.
fn total(runs: &[Run]) -> u128
    ensures { result ≡ spec.total runs.now }
{
    let mut total = 0;
    for run in runs {
        total += u128::from(run.count());
    }
    total
}

/// The bytes of runs, which are `bytes` in all.
fn written(alloc: Global, runs: &[Run], bytes: u64) -> Result<Payload, NoMemory>
    requires { spec.total runs.now ≡ bytes }
    ensures { IfOk result (λ p. p ≡ written_out runs.now) }
{
    let mut payload = Vec::with_capacity(alloc, bytes as usize)?;
    for run in runs {
        payload.resize(payload.len() + run.count() as usize, run.byte())?;
    }
    Payload::new(alloc, payload)
}
