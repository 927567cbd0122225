ghost use Rattle.std.specs.Prelude.{◌≡◌};
ghost use Rattle.nvm_list.specs.Names as spec;

use crate::expected::Expected;
use crate::number_word::hex_byte;
use nvm_record::Op;

/// The operation that a word names, a Dataset Management without its Deallocate bit.
pub fn operation(word: &[u8]) -> Result<Op, Expected>
    ensures { result ≡ spec.operation word.now }
{
    if word == b"write".as_slice() {
        Ok(Op::Write)
    } else if word == b"read".as_slice() {
        Ok(Op::Read)
    } else if word == b"uncorrectable".as_slice() {
        Ok(Op::WriteUncorrectable)
    } else if word == b"compare".as_slice() {
        Ok(Op::Compare)
    } else if word == b"zeroes".as_slice() {
        Ok(Op::WriteZeroes)
    } else if word == b"dataset".as_slice() {
        Ok(Op::Dataset { deallocate: false })
    } else {
        other_operation(word)
    }
}

/// The operation of a word `op-7f`: one of an opcode that has no name of its own.
fn other_operation(word: &[u8]) -> Result<Op, Expected>
    ensures { result ≡ spec.other_operation word.now }
{
    let Some(digits) = word.strip_prefix(b"op-") else {
        return Err(Expected::Name);
    };
    let Some(opcode) = hex_byte(digits) else {
        return Err(Expected::Name);
    };
    match Op::of_opcode(opcode, false) {
        Op::Other(opcode) => Ok(Op::Other(opcode)),
        _ => Err(Expected::Name),
    }
}
