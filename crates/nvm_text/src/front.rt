//! What comes before the data of a line.
ghost use Rattle.std.specs.Prelude.{◌≡◌, ◌+◌, ◌≤◌, [], ◌∷◌, ◌++◌, codes, length};
ghost use Rattle.nvm_text.specs.Lines.{identifiers, name_of, status_text};

use crate::name::word_of;
use crate::piece::Piece;
use nvm_record::{Op, Status};

/// Host, command identifier, name and status, and the byte behind them.
#[inline(always)]
pub fn front_of(op: Op, host: u16, cid: u16, status: Status, behind: u8) -> Piece
    ensures { result ≡ identifiers host cid ++ (name_of op ++ (codes " " ++ (status_text status ++ behind ∷ []))) }
{
    let mut front = Piece::new();
    front.put_byte(behind);
    put_status(&mut front, status);
    front.put_byte(b' ');
    put_name(&mut front, op);
    put_identifiers(&mut front, host, cid);
    front
}

/// Puts the host's number and the command identifier in front, with a space after each.
fn put_identifiers(piece: &mut Piece, host: u16, cid: u16)
    requires { length piece.old + 42 ≤ 80 }
    ensures text { piece.new ≡ identifiers host cid ++ piece.old }
    ensures room { length piece.new ≤ length piece.old + 42 }
{
    piece.put_byte(b' ');
    piece.put_decimal(u64::from(cid));
    piece.put_byte(b' ');
    piece.put_decimal(u64::from(host));
}

/// Puts the name of an operation in front.
fn put_name(piece: &mut Piece, op: Op)
    requires { length piece.old + 13 ≤ 80 }
    ensures text { piece.new ≡ name_of op ++ piece.old }
    ensures room { length piece.new ≤ length piece.old + 13 }
{
    if let Op::Other(opcode) = op {
        piece.put_hex2(opcode);
    }
    piece.put(word_of(op).as_bytes());
}

/// Puts a status in front.
fn put_status(piece: &mut Piece, status: Status)
    requires { length piece.old + 23 ≤ 80 }
    ensures text { piece.new ≡ status_text status ++ piece.old }
    ensures room { length piece.new ≤ length piece.old + 23 }
{
    piece.put_hex2(status.sc);
    piece.put_byte(b'/');
    piece.put_decimal(u64::from(status.sct));
}
