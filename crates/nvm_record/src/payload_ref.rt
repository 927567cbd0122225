ghost use Rattle.std.specs.Prelude.{◌≡◌, ◌+◌, ◌≤◌, length, slice_range};
ghost use Rattle.std.specs.Option.{ForSome};

use crate::payload::Payload;

mod lending;

/// Bytes that are lent: those of a payload, of a part of it, or of no payload. It owns nothing until it is shared.
#[derive(Clone, Copy)]
pub struct PayloadRef<'a> {
    bytes: &'a [u8],
    /// The payload that has them, if one does.
    whole: Option<&'a Payload>,
    /// Where they begin in it.
    from: usize,
    ghost within: { ForSome whole (λ p. from + length bytes.now ≤ length p.now) },
    ghost part: { ForSome whole (λ p. bytes.now ≡ slice_range p.now from (from + length bytes.now)) },
}
