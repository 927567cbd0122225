ghost use Rattle.std.specs.Prelude.{◌≡◌, ◌≤◌, drop, length};

use nvm_record::Payload;

mod taking;

/// What is left of a file to read: its bytes from one place to its end, borrowed.
#[derive(Clone, Copy)]
pub struct Rest<'a> {
    file: &'a Payload,
    from: usize,
    left: &'a [u8],
    ghost within: { from ≤ length file.now },
    ghost tail: { left.now ≡ drop from file.now },
}
