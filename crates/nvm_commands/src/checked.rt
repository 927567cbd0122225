//! What a run says of the expectations of its lists.
ghost use Rattle.std.specs.Prelude.{◌≡◌, IfOk, map};
ghost use Rattle.nvm_audit.specs.LawfulRecord.{IsLawfulRecord};
ghost use Rattle.nvm_commands.specs.Expecting.{IsCheckedIf, IsCheckedOf, status_told};

use crate::read_list::ReadList;
use nvm_audit::Record;
use nvm_engine::Shown;
use nvm_listing::{checks, checks_text, unmet_count};
use nvm_record::{NoMemory, Status};
use std::alloc::{AllocError, Global};

/// What is printed of the expectations of a run's lists, how many there are, and how many of them aren't met.
#[derive(Drop)]
pub struct Checked {
    pub text: String,
    pub expectations: usize,
    pub unmet: usize,
}

impl Checked {
    /// What the record of a run says of the expectations of its lists, host 1's list first.
    pub fn of_run(
        alloc: Global,
        run: &Record,
        lists: &mut [&[Option<Status>]],
    ) -> Result<Checked, NoMemory>
        requires { IsLawfulRecord run.now }
        ensures { IfOk result (IsCheckedOf (map (λ list. list.now) lists.old) run.now) }
    {
        let checks = checks(alloc, run, lists)?;
        let text = checks_text(alloc, &checks)?;
        Ok(Checked {
            text,
            expectations: checks.len(),
            unmet: unmet_count(&checks),
        })
    }
}

/// 2 where an expectation that was checked isn't met, and else 0.
pub fn status_of(checked: &Option<Checked>) -> u8
    ensures { result ≡ status_told checked.now }
{
    match checked {
        Some(checked) if checked.unmet > 0 => 2,
        _ => 0,
    }
}

/// What the run's record says of the expectations of the lists, if that is asked.
pub fn checked_of(
    alloc: Global,
    asked: bool,
    shown: &Shown,
    lists: &[ReadList<'_>],
) -> Result<Option<Checked>, AllocError>
    requires { IsLawfulRecord shown.now }
    ensures { IfOk result (IsCheckedIf asked) }
{
    if !asked {
        return Ok(None);
    }
    let mut expectations = Vec::with_capacity(alloc, lists.len())?;
    for list in lists {
        expectations.push(list.expectations.as_slice())?;
    }
    let checked = Checked::of_run(alloc, shown.record(), &mut expectations)?;
    Ok(Some(checked))
}
