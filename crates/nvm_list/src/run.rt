ghost use Rattle.std.specs.Prelude.{◌≡◌};
ghost use Rattle.nvm_list.specs.Data.{read_run};

use crate::line_cut::place_of;
use crate::number_word::{hex_byte, number};
use std::marker::Model;

/// The same byte, `count` times.
#[derive(Clone, Copy)]
pub struct Run {
    count: u64,
    byte: u8,
}

impl Model for Run {
    ghost use Rattle.nvm_text.specs.Runs as runs;

    ghost Value = { runs.Run };

    ghost view = { λ r. runs.run_of r.count r.byte };

    ghost inverse = { λ r. record { count = r.count; byte = r.byte } };
}

impl Run {
    /// The run that `511*41` writes.
    pub fn read(text: &[u8]) -> Option<Run>
        ensures { result ≡ read_run text.now }
    {
        let place = place_of(text, b'*');
        if place == text.len() {
            return None;
        }
        let count = number(&text[..place], u64::MAX)?;
        let byte = hex_byte(&text[place + 1..])?;
        if count == 0 {
            return None;
        }
        Some(Run { count, byte })
    }

    /// How many bytes it has.
    pub fn count(self) -> u64
        ensures { result ≡ self.count }
    {
        self.count
    }

    /// The byte.
    pub fn byte(self) -> u8
        ensures { result ≡ self.byte }
    {
        self.byte
    }
}
