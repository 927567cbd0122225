ghost use Rattle.std.specs.Prelude.{◌≡◌, SomeIff};
ghost use Rattle.nvm_engine.specs.Counters.{IsWorkerCount};

use std::marker::Model;

/// How many workers do the jobs of a run.
#[derive(Clone, Copy, Debug, PartialEq, Eq)]
pub struct Workers {
    count: u16,
}

impl Model for Workers {
    ghost use Rattle.std.specs.Prelude.{ℕ};
    ghost use Rattle.nvm_engine.specs.Counters.{IsWorkerCount};

    ghost Value = { ℕ };

    ghost view = { λ w. w.count };

    ghost invariant = { λ w. IsWorkerCount w.count };

    ghost inverse = { λ n. record { count = n } };
}

impl Workers {
    /// `count` workers, or `None` where that isn't 1 to 64.
    pub fn new(count: u16) -> Option<Workers>
        ensures { SomeIff result (IsWorkerCount count) count }
    {
        if 1 <= count && count <= 64 {
            Some(Workers { count })
        } else {
            None
        }
    }

    /// The number of workers.
    pub fn count(self) -> u16
        ensures value { result ≡ self }
        ensures valid { IsWorkerCount result }
    {
        self.count
    }
}
