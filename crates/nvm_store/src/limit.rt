ghost use Rattle.std.specs.Prelude.{◌≡◌, SomeIff};
ghost use Rattle.nvm_store.specs.Limit.{IsLimit};

use std::marker::Model;

/// The most entries that a unit's history may have.
#[derive(Clone, Copy, Debug, PartialEq, Eq, Hash)]
pub struct Limit {
    entries: u32,
}

impl Model for Limit {
    ghost use Rattle.std.specs.Prelude.{ℕ};
    ghost use Rattle.nvm_store.specs.Limit.{IsLimit};

    ghost Value = { ℕ };

    ghost view = { λ l. l.entries };

    ghost invariant = { λ l. IsLimit l.entries };

    ghost inverse = { λ n. record { entries = n } };
}

impl Limit {
    /// The limit of `entries` entries, or `None` where that isn't 1 to 4,194,304.
    pub fn new(entries: u32) -> Option<Limit>
        ensures { SomeIff result (IsLimit entries) entries }
    {
        if 1 <= entries && entries <= 4_194_304 {
            Some(Limit { entries })
        } else {
            None
        }
    }

    /// The number of entries.
    pub fn entries(self) -> u32
        ensures value { result ≡ self }
        ensures valid { IsLimit result }
    {
        self.entries
    }
}
