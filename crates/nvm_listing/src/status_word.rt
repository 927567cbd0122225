ghost use Rattle.std.specs.Prelude.{◌≡◌};
ghost use Rattle.nvm_listing.specs.Expectation as spec;

use nvm_list::{hex_byte, number, place_of};
use nvm_record::Status;

/// The status that `2/85` writes: the type up to 255 in decimal digits, and the code in two hexadecimal ones.
pub(crate) fn status(word: &[u8]) -> Option<Status>
    ensures { result ≡ spec.status word.now }
{
    let place = place_of(word, b'/');
    if place == word.len() {
        return None;
    }
    let sct = number(&word[..place], 255)?;
    let sc = hex_byte(&word[place + 1..])?;
    Some(Status { sct: sct as u8, sc })
}
