//! What is printed of the expectations of lists.
ghost use Rattle.std.specs.Prelude.{◌≡◌, ◌++◌, IfOk, OnOk, string_bytes};
ghost use Rattle.nvm_listing.specs.CheckText as spec;

use crate::check::Check;
use nvm_record::NoMemory;
use std::alloc::Global;

/// A line for each expectation that isn't met, as in `unmet 1 2 write expected 2/85 got 0/00`, and then the line
/// `expectations 12 unmet 1`.
pub fn checks_text(alloc: Global, checks: &[Check]) -> Result<String, NoMemory>
    ensures { IfOk result (λ text. string_bytes text ≡ spec.checks_text checks.now) }
{
    let mut text = String::new(alloc);
    for check in checks {
        push_unmet(&mut text, *check)?;
    }
    let (count, unmet) = (checks.len(), unmet_count(checks));
    write!(text, "expectations {count} unmet {unmet}\n")?;
    Ok(text)
}

/// Appends the line of an expectation that isn't met.
fn push_unmet(text: &mut String, check: Check) -> Result<(), NoMemory>
    ensures { OnOk result (string_bytes text.new ≡ string_bytes text.old ++ spec.unmet_line check) }
{
    if check.is_met() {
        return Ok(());
    }
    write!(text, "unmet {check}\n")
}

/// How many of the expectations aren't met.
pub fn unmet_count(checks: &[Check]) -> usize
    ensures { result ≡ spec.unmet_count checks.now }
{
    let mut count = 0;
    for check in checks {
        if !check.is_met() {
            count += 1;
        }
    }
    count
}
