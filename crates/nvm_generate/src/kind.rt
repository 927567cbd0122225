ghost use Rattle.std.specs.Prelude.{◌<◌, IsTrue};
ghost use Rattle.nvm_generate.specs.Inside.Kinds.{IsKindOf};

use crate::dice::Dice;
use crate::load::Mix;

/// What a host asks for.
#[derive(Clone, Copy, PartialEq, Eq)]
pub enum Kind {
    Write,
    Read,
    Compare,
    Pair,
    Zeroes,
    Uncorrectable,
    Deallocate,
}

impl Mix {
    /// A kind, each as often as its number says.
    pub fn kind(&self, dice: &mut Dice) -> Kind
        ensures { IsKindOf self.now result }
    {
        let mut left = dice.below(self.total().max(1));
        if takes(&mut left, self.write) {
            Kind::Write
        } else if takes(&mut left, self.compare) {
            Kind::Compare
        } else if takes(&mut left, self.pair) {
            Kind::Pair
        } else if takes(&mut left, self.zeroes) {
            Kind::Zeroes
        } else if takes(&mut left, self.uncorrectable) {
            Kind::Uncorrectable
        } else if takes(&mut left, self.deallocate) {
            Kind::Deallocate
        } else {
            Kind::Read
        }
    }

    /// All numbers together.
    fn total(&self) -> u32 {
        u32::from(self.write)
            + u32::from(self.read)
            + u32::from(self.compare)
            + u32::from(self.pair)
            + u32::from(self.zeroes)
            + u32::from(self.uncorrectable)
            + u32::from(self.deallocate)
    }
}

/// Whether what is left lies below the number, which is taken from it if not.
fn takes(left: &mut u32, number: u16) -> bool
    ensures { IsTrue result → 0 < number }
{
    let number = u32::from(number);
    if *left < number {
        return true;
    }
    *left -= number;
    false
}
