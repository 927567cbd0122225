//! What a command answers on standard output.
ghost use Rattle.std.specs.Prelude.{◌≡◌, IfOk, IfErr, codes, string_bytes};
ghost use Rattle.nvm_commands.specs.Files.{IsWriteFault};

use crate::failure::Failure;
use crate::front::{Progress, STANDARD};
use crate::written_files::write_bytes;
use std::rt::Files;

/// A text, and the exit status once it is printed.
#[derive(Drop)]
pub struct Told {
    pub text: Vec<u8>,
    pub status: u8,
}

impl Told {
    /// This text, and this exit status.
    pub fn of(text: String, status: u8) -> Told
        ensures text { result.text.items ≡ string_bytes text }
        ensures status { result.status ≡ status }
    {
        let text = text.into_bytes();
        Told { text, status }
    }

    /// Prints the text, and gives the exit status.
    pub fn print<R: AllocGlobal + Files + Print + Eprint>(
        &self,
        rt: &R,
        progress: &Progress<'_, R>,
    ) -> Result<u8, Failure>
        ensures status { IfOk result (λ status. status ≡ self.now.status) }
        ensures fault { IfErr result (λ failure. IsWriteFault (codes "-") failure.fault) }
    {
        write_bytes(rt, STANDARD, &self.text, progress)?;
        Ok(self.status)
    }
}
