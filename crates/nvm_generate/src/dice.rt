ghost use Rattle.std.specs.Prelude.{◌<◌};

use rand_core::{Rng, SeedableRng};
use rand_xoshiro::Xoshiro256PlusPlus;

/// The random numbers of a host.
#[derive(Drop)]
pub struct Dice {
    words: Xoshiro256PlusPlus,
}

impl Dice {
    /// Those of a host of a load with this seed. Each host starts 2^128 numbers after the one before, so no two hosts draw the same
    /// ones.
    pub fn new(seed: u64, host: u8) -> Dice {
        let mut words = Xoshiro256PlusPlus::seed_from_u64(seed);
        for _ in 0..host {
            words.jump();
        }
        Dice { words }
    }

    /// A number below this one.
    pub fn below(&mut self, sides: u32) -> u32
        requires { 0 < sides }
        ensures { result < sides }
    {
        self.words.next_u32() % sides
    }
}
