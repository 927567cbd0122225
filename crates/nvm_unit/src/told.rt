//! A history that contracts alone see.
ghost use Rattle.std.specs.Prelude.{◌≡◌, List};
ghost use Rattle.std.specs.Borrow.{ftrue};
ghost use Rattle.nvm_store.specs.HistoryEntry.{HistoryEntry};

use nvm_store::ActRef;
use std::marker::Model;

/// Entries that were reported and not kept. It has no bytes, and what makes it does nothing at run time.
#[derive(Drop)]
pub struct Told {
    pub ghost entries: { List HistoryEntry },
}

impl Model for Told {
    ghost also_owns = { λ _. ftrue };
}

// It owns nothing.
unsafe impl Send for Told {}

/// What is reported about a history.
#[derive(Clone, Copy)]
pub enum Telling<'a> {
    /// It has no entry.
    Nothing,
    /// It is what was reported before, and one change more: by which pass, as a part of which job, and what was done.
    OneMore {
        before: &'a Told,
        pass: u16,
        job: u32,
        act: ActRef<'a>,
    },
    /// It is what was reported before, but for the last entry.
    OneLess {
        before: &'a Told,
    },
}

impl Told {
    ghost use Rattle.nvm_unit.specs.Inside.Telling.{entries_told};

    /// The history that is reported.
    #[inline(always)]
    pub fn by(_telling: &Telling<'_>) -> Told
        ensures { result.entries ≡ entries_told _telling.now }
    {
        Told {}
    }
}
