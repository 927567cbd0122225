ghost use Rattle.std.specs.Prelude.{◌≡◌};

use crate::kept::Kept;
use crate::told::{Telling, Told};
use nvm_record::NoMemory;
use nvm_store::ActRef;
use std::alloc::Global;
use std::marker::Model;

/// The number of entries alone. The entries themselves are reported to contracts, and kept nowhere.
#[derive(Drop)]
pub struct Count {
    entries: u64,
    told: Told,
}

impl Model for Count {
    ghost use Rattle.std.specs.Prelude.{◌≡◌, List, length};
    ghost use Rattle.nvm_store.specs.HistoryEntry.{HistoryEntry};

    ghost Value = { List HistoryEntry };

    ghost view = { λ c. c.told.entries };

    ghost invariant = { λ c. c.entries ≡ length c.told.entries };
}

/// Their number.
impl Kept for Count {
    ghost told = { λ c. c };

    fn nothing(_alloc: Global) -> Count {
        Count {
            entries: 0,
            told: Told::by(&Telling::Nothing),
        }
    }

    fn keeps_acts() -> bool {
        false
    }

    fn entries(&self) -> u64 {
        self.entries
    }

    fn keep(
        &mut self,
        _alloc: Global,
        pass: u16,
        job: u32,
        act: ActRef<'_>,
    ) -> Result<(), NoMemory> {
        self.entries += 1;
        self.told = Told::by(&Telling::OneMore {
            before: &self.told,
            pass,
            job,
            act,
        });
        Ok(())
    }

    fn take_back(&mut self) {
        self.entries -= 1;
        self.told = Told::by(&Telling::OneLess { before: &self.told });
    }
}
