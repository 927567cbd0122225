ghost use Rattle.std.specs.Prelude.{◌≡◌};

use std::fmt;

/// Prints a fault on standard error, with the program's name before it. Returns the exit status, which is 1.
pub fn failed<R: Eprint, F: fmt::Display + Drop>(rt: &R, program: &str, fault: F) -> u8
    ensures { result ≡ 1 }
{
    let _ = eprintln!(rt; "{program}: {fault}");
    1
}
