use nvm_record::NoMemory;
use nvm_store::History;
use nvm_unit::{Kept, Pass};
use std::marker::Model;

/// A caller's token at a space: a pass of each of its regions, all of the port's number.
///
/// Contracts see its number, and of its passes the region that each is of and what it has seen and done. A port
/// that is dropped makes it impossible to close the space.
#[derive(Drop)]
pub struct Port<K: Kept = History> {
    pub(crate) number: u16,
    /// The pass of region k is at place k.
    pub(crate) passes: Vec<Pass<K>>,
}

impl<K: Kept> Model for Port<K> {
    ghost use Rattle.nvm_space.specs.Ports.{PortState};

    ghost Value = { PortState };

    ghost view = { λ p. record { number = p.number; passes = p.passes.items } };
}

impl<K: Kept> Port<K> {
    ghost use Rattle.std.specs.Prelude.{◌≡◌, ◌≢◌, [], OnOk};
    ghost use Rattle.nvm_space.specs.Inside.Dealing.{with_one_more};

    /// Its number. The ports of a space are numbered from 0.
    pub fn number(&self) -> u16
        ensures { result ≡ self.now.number }
    {
        self.number
    }

    /// Adds the pass of the next region.
    pub(crate) fn add(&mut self, pass: Pass<K>) -> Result<(), NoMemory>
        ensures { OnOk result (self.new ≡ with_one_more self.old pass) }
    {
        self.passes.push(pass)?;
        Ok(())
    }

    /// The pass of the last region, which leaves the port.
    pub(crate) fn take_last(&mut self) -> Pass<K>
        requires { self.old.passes ≢ [] }
        ensures { self.old ≡ with_one_more self.new result }
    {
        let Some(pass) = self.passes.pop() else {
            unreachable!("it has a pass")
        };
        pass
    }
}
