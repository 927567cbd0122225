ghost use Rattle.std.specs.Prelude.{Some};
ghost use Rattle.nvm_text.specs.Lines.{hex2};

use std::fmt;
use std::fmt::{Display, Formatter};

/// A byte as two hexadecimal digits.
#[derive(Clone, Copy)]
pub struct HexByte(pub u8);

#[tactic(auto, using(std::proofs::lemmas::Fmt::hex_byte))]
impl Display for HexByte {
    ghost output = { λ byte. Some (hex2 byte.0) };

    fn fmt<W: fmt::Write>(&self, f: &mut Formatter<W>) -> fmt::Result {
        let byte = self.0;
        write!(f, "{byte:02x}")
    }
}
