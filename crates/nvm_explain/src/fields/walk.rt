use crate::fields::numbers::behind;
use nvm_record::NoMemory;
use std::alloc::Global;

/// A walk over the fields of a file, from its front to the one that has an offset.
#[derive(Drop)]
pub(crate) struct Walk<'a> {
    bytes: &'a [u8],
    at: usize,
    /// Where the next field begins, at most at the offset.
    next: usize,
    /// What the field with the offset is, in words, once it is found.
    told: String,
}

/// A field: its name, and its length in bytes.
pub(crate) type Field = (&'static str, usize);

impl<'a> Walk<'a> {
    pub(crate) fn new(alloc: Global, bytes: &'a [u8], at: usize) -> Walk<'a> {
        Walk {
            bytes,
            at,
            next: 0,
            told: String::new(alloc),
        }
    }

    /// The bytes from the next field on.
    pub(crate) fn rest(&self) -> &'a [u8] {
        behind(self.bytes, self.next)
    }

    /// Whether one of these next fields has the offset, and then the words name it. If none has, the walk goes past them.
    pub(crate) fn finds(&mut self, fields: &[Field]) -> Result<bool, NoMemory> {
        for field in fields {
            let end = self.next.saturating_add(field.1);
            if self.at < end {
                write!(self.told, "it is {}", field.0)?;
                return Ok(true);
            }
            self.next = end;
        }
        Ok(false)
    }

    /// Adds of which thing the field that was found is, by its kind and its number. It is `true`: a field was found.
    pub(crate) fn found_in(&mut self, kind: &str, number: u32) -> Result<bool, NoMemory> {
        write!(self.told, " of {kind} {number}")?;
        Ok(true)
    }

    /// What the field that was found is, in words.
    pub(crate) fn told(self) -> String {
        self.told
    }
}
