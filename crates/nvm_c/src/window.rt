//! A writer that keeps one piece of the bytes that it is handed.
ghost use Rattle.std.specs.Prelude.{◌≡◌, ◌∷◌, ◌≤◌, [], Some, length};
ghost use Rattle.std.specs.Io.{WritesAtMost};
ghost use Rattle.std.specs.Io.KnownBytes.{Keeps, WriteAppends};
ghost use Rattle.nvm_c.specs.Inside.Pieces.{piece_of};

use crate::handed::{Handed, Handing};
use std::alloc::Global;
use std::io;
use std::io::{Error, ErrorKind, Write};

/// Takes all bytes, counts them, and keeps those from a place on, at most so many. It fails only where memory for these is refused, or
/// the count passes what a `usize` holds.
#[derive(Drop)]
pub struct Window {
    from: usize,
    most: usize,
    piece: Vec<u8>,
    count: usize,
    handed: Handed,
    ghost kept: { piece.items ≡ piece_of from most handed.bytes },
    ghost counted: { count ≡ length handed.bytes },
}

impl Window {
    /// A window that was handed nothing.
    pub fn new(alloc: Global, from: usize, most: usize) -> Window
        ensures from { result.from ≡ from }
        ensures most { result.most ≡ most }
        ensures handed { result.handed.bytes ≡ [] }
    {
        Window {
            from,
            most,
            piece: Vec::new(alloc),
            count: 0,
            handed: Handed::by(&Handing::Nothing),
        }
    }

    /// How many bytes it was handed.
    pub fn count(&self) -> usize
        ensures { result ≡ length self.now.handed.bytes }
    {
        self.count
    }

    /// The piece.
    pub fn piece(&self) -> &[u8]
        ensures { result.now ≡ piece_of self.now.from self.now.most self.now.handed.bytes }
    {
        &self.piece
    }
}

impl Write for Window {
    // The place and the limit stand before the bytes, so that who writes can change neither.
    ghost contents = { λ w. Some (w.from ∷ w.most ∷ w.handed.bytes) };

    fn write(&mut self, bytes: &[u8]) -> io::Result<usize>
        ensures bound { WritesAtMost result bytes.now }
        ensures bytes { WriteAppends (Some (self.old.from ∷ self.old.most ∷ self.old.handed.bytes))
            (Some (self.new.from ∷ self.new.most ∷ self.new.handed.bytes)) result bytes.now }
    {
        let Some(count) = self.count.checked_add(bytes.len()) else {
            return Err(Error::from(ErrorKind::FileTooLarge));
        };
        let over = self.from.saturating_sub(self.count);
        let seen = within(bytes, over, self.most - self.piece.len());
        let handed = Handed::by(&Handing::More {
            before: &self.handed,
            bytes,
        });
        self.piece.extend_from_slice(seen)?;
        self.count = count;
        self.handed = handed;
        Ok(bytes.len())
    }

    fn flush(&mut self) -> io::Result<()>
        ensures bytes { Keeps (Some (self.old.from ∷ self.old.most ∷ self.old.handed.bytes))
            (Some (self.new.from ∷ self.new.most ∷ self.new.handed.bytes)) }
    {
        Ok(())
    }
}

/// The bytes from a place on, at most so many.
fn within(bytes: &[u8], from: usize, most: usize) -> &[u8]
    ensures { result.now ≡ piece_of from most bytes.now }
{
    let rest = &bytes[from.min(bytes.len())..];
    &rest[..most.min(rest.len())]
}
