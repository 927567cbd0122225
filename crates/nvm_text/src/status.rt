ghost use Rattle.std.specs.Prelude.{Some};
ghost use Rattle.nvm_text.specs.Lines.{status_text, statuses_text};

use crate::hex_byte::HexByte;
use nvm_record::{Status, Statuses};
use std::fmt;
use std::fmt::{Display, Formatter};

/// A status as `<type>/<code>`, the code as two hexadecimal digits.
#[derive(Clone, Copy)]
pub struct StatusText(pub Status);

impl Display for StatusText {
    ghost output = { λ text. Some (status_text text.0) };

    fn fmt<W: fmt::Write>(&self, f: &mut Formatter<W>) -> fmt::Result {
        let Status { sct, sc } = self.0;
        write!(f, "{sct}/{}", HexByte(sc))
    }
}

/// The status of a command, or those of a pair's two with a space between them, the first command's first.
#[derive(Clone, Copy)]
pub struct StatusesText(pub Statuses);

impl Display for StatusesText {
    ghost output = { λ text. Some (statuses_text text.0) };

    fn fmt<W: fmt::Write>(&self, f: &mut Formatter<W>) -> fmt::Result {
        match self.0 {
            Statuses::One(status) => write!(f, "{}", StatusText(status)),
            Statuses::Two(first, second) => {
                write!(f, "{} {}", StatusText(first), StatusText(second))
            }
        }
    }
}
