ghost use Rattle.std.specs.Prelude.{◌≡◌, ◌+◌, ◌≤◌, ◌++◌, ◌∷◌, ℕ, List, [], decimal, drop, length};
ghost use Rattle.nvm_text.specs.Lines.{hex2};

use crate::digit::hex_digit;
use itoa::write_digits;
use std::marker::Model;

/// The number of bytes that fit into a piece.
const ROOM: usize = 80;

/// A short text that is put together from its back, so that a writer is called once for it.
#[derive(Drop)]
pub struct Piece {
    bytes: [u8; ROOM],
    start: usize,
}

impl Model for Piece {
    ghost Value = { List ℕ };

    ghost view = { λ p. drop p.start p.bytes };

    ghost invariant = { λ p. p.start ≤ 80 };
}

impl Piece {
    /// A piece without text.
    pub fn new() -> Piece
        ensures { result ≡ [] }
    {
        Piece {
            bytes: [0; ROOM],
            start: ROOM,
        }
    }

    /// Puts a number in decimal digits in front.
    pub fn put_decimal(&mut self, number: u64)
        requires { length self.old + 20 ≤ 80 }
        ensures text { self.new ≡ decimal number ++ self.old }
        ensures room { length self.new ≤ length self.old + 20 }
    {
        self.start = write_digits(number, &mut self.bytes, self.start);
    }

    /// Puts a byte as two hexadecimal digits in front.
    pub fn put_hex2(&mut self, byte: u8)
        requires { length self.old + 2 ≤ 80 }
        ensures text { self.new ≡ hex2 byte ++ self.old }
        ensures room { length self.new ≡ length self.old + 2 }
    {
        self.put_byte(hex_digit(byte % 16));
        self.put_byte(hex_digit(byte / 16));
    }

    /// Puts one byte in front.
    pub fn put_byte(&mut self, byte: u8)
        requires { length self.old + 1 ≤ 80 }
        ensures text { self.new ≡ byte ∷ self.old }
        ensures room { length self.new ≡ length self.old + 1 }
    {
        self.start -= 1;
        self.bytes[self.start] = byte;
    }

    /// Puts text in front.
    pub fn put(&mut self, text: &[u8])
        requires { length self.old + length text.now ≤ 80 }
        ensures text { self.new ≡ text.now ++ self.old }
        ensures room { length self.new ≡ length self.old + length text.now }
    {
        let end = self.start;
        self.start -= text.len();
        self.bytes[self.start..end].copy_from_slice(text);
    }

    /// The text.
    pub fn as_slice(&self) -> &[u8]
        ensures { result.now ≡ self.now }
    {
        &self.bytes[self.start..]
    }
}
