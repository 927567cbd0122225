ghost use Rattle.std.specs.Prelude.{◌≡◌, Some};
ghost use Rattle.nvm_text.specs.Lines.{name_of, word_of};

use crate::hex_byte::HexByte;
use nvm_record::Op;
use std::fmt;
use std::fmt::{Display, Formatter};

/// The name of an operation: `write`, `read`, `uncorrectable`, `compare`, `zeroes` or `dataset`,
/// and `op-` with two hexadecimal digits for another opcode.
#[derive(Clone, Copy)]
pub struct OpName(pub Op);

impl Display for OpName {
    ghost output = { λ name. Some (name_of name.0) };

    fn fmt<W: fmt::Write>(&self, f: &mut Formatter<W>) -> fmt::Result {
        match self.0 {
            Op::Other(opcode) => write!(f, "op-{}", HexByte(opcode)),
            op => f.write_str(word_of(op)),
        }
    }
}

/// The name of an operation, without the digits of an opcode.
pub(crate) fn word_of(op: Op) -> &'static str
    ensures { result.now ≡ word_of op }
{
    match op {
        Op::Write => "write",
        Op::Read => "read",
        Op::WriteUncorrectable => "uncorrectable",
        Op::Compare => "compare",
        Op::WriteZeroes => "zeroes",
        Op::Dataset { .. } => "dataset",
        Op::Other(_) => "op-",
    }
}
