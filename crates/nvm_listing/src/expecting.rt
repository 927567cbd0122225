ghost use Rattle.std.specs.Prelude.{◌≡◌, ◌⊎◌, IfErr, IfOk, Ok, Err};
ghost use Rattle.nvm_listing.specs.Expectations as spec;
ghost use Rattle.nvm_listing.specs.declared.expectation_fault.ExpectationFault.TheVariants.{NoMemory};

use crate::expectation_fault::{ExpectationFault, Expected};
use crate::list_line::expectation;
use nvm_list::{cut, first_word, without_comment};
use nvm_record::Status;
use std::alloc::Global;

/// The status that each command of a list has to end with, in the order of the commands, and `None` of a command that expects
/// nothing. Each line that has words is a command; whether it is a lawful one isn't looked at.
///
/// The first wrong expectation is answered in place of them, or `NoMemory` where a growth was refused before it.
pub fn expectations(alloc: Global, list: &[u8]) -> Result<Vec<Option<Status>>, ExpectationFault>
    ensures expectations { IfOk result (λ v. spec.expectations list.now ≡ Ok v.items) }
    ensures fault { IfErr result (λ e. (spec.expectations list.now ≡ Err e) ⊎ (e ≡ NoMemory)) }
{
    let mut expectations = Vec::new(alloc);
    let mut line = 0;
    let mut rest = Some(list);
    while let Some(bytes) = rest {
        let (text, after) = cut(bytes, b'\n');
        line += 1;
        if has_words(text) {
            match expectation(text) {
                Ok(expectation) => expectations.push(expectation)?,
                Err(expected) => return Err(ExpectationFault::Line { line, expected }),
            }
        }
        rest = after;
    }
    Ok(expectations)
}

/// Whether a line has words.
fn has_words(line: &[u8]) -> bool
    ensures { result ≡ spec.has_words line.now }
{
    let (word, _) = first_word(without_comment(line));
    !word.is_empty()
}
