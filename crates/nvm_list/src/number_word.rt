ghost use Rattle.std.specs.Prelude.{◌≡◌};
ghost use Rattle.nvm_list.specs.Numbers as spec;
ghost use Rattle.nvm_list.specs.Numbers.{hex_value};

/// The number that a word of decimal digits writes, where it is at most `most`. Leading zeroes are
/// taken.
pub fn number(word: &[u8], most: u64) -> Option<u64>
    ensures { result ≡ spec.number most word.now }
{
    if word.is_empty() {
        return None;
    }
    let mut value = 0;
    for byte in word {
        value = with_digit(value, *byte, most)?;
    }
    Some(value)
}

/// The number with one digit more, where that is a digit and the number is at most `most`.
fn with_digit(value: u64, byte: u8, most: u64) -> Option<u64>
    ensures { result ≡ spec.with_digit most value byte }
{
    if !byte.is_ascii_digit() {
        return None;
    }
    let value = u128::from(value) * 10 + u128::from(byte - b'0');
    if value <= u128::from(most) {
        Some(value as u64)
    } else {
        None
    }
}

/// The byte that two hexadecimal digits write, in either case.
pub fn hex_byte(word: &[u8]) -> Option<u8>
    ensures { result ≡ spec.hex_byte word.now }
{
    if word.len() != 2 {
        return None;
    }
    let high = hex_digit(word[0])?;
    let low = hex_digit(word[1])?;
    Some(high * 16 + low)
}

/// The value of a hexadecimal digit, in either case.
fn hex_digit(byte: u8) -> Option<u8>
    ensures { result ≡ hex_value byte }
{
    match byte {
        b'0'..=b'9' => Some(byte - b'0'),
        b'a'..=b'f' => Some(byte - b'a' + 10),
        b'A'..=b'F' => Some(byte - b'A' + 10),
        _ => None,
    }
}
