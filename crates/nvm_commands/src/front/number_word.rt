//! Numbers as the words of a command line write them: decimal, or hexadecimal after `0x`, with `k`, `m` or `g` after them for
//! 1,024 and its powers.
ghost use Rattle.std.specs.Prelude.{◌≡◌, ◌≤◌, ◌+◌, ◌*◌, IfOk};
ghost use Rattle.nvm_commands.specs.Numbers as spec;

use crate::front::number_options::Expected;

/// The number that a word says, where it is one from `least` to `most`. A `+` may come before it.
pub fn number(word: &[u8], least: u64, most: u64) -> Result<u64, Expected>
    ensures value { result ≡ spec.number least most word.now }
    ensures range { IfOk result (λ value. (least ≤ value) × (value ≤ most)) }
{
    let digits = digits_of(word);
    let radix = radix_of(word);
    if !is_numeral(radix, digits) {
        return Err(Expected::Number);
    }
    match whole(radix, digits, unit_of(word)) {
        Some(value) if least <= value && value <= most => Ok(value),
        _ => Err(Expected::Between(least, most)),
    }
}

/// How many times a number is taken by the letter after it.
fn unit_of(word: &[u8]) -> u64
    ensures { result ≡ spec.unit_of word.now }
{
    if word.is_empty() {
        return 1;
    }
    match word[word.len() - 1] {
        b'k' | b'K' => 1_024,
        b'm' | b'M' => 1_048_576,
        b'g' | b'G' => 1_073_741_824,
        _ => 1,
    }
}

/// The word without the letter after it and the `+` before it.
fn body_of(word: &[u8]) -> &[u8]
    ensures { result.now ≡ spec.body_of word.now }
{
    let body = if unit_of(word) == 1 {
        word
    } else {
        &word[..word.len() - 1]
    };
    if body.is_empty() || body[0] != b'+' {
        body
    } else {
        &body[1..]
    }
}

/// Whether `0x` comes before the digits.
fn is_hexadecimal(body: &[u8]) -> bool
    ensures { result ≡ spec.is_hexadecimal body.now }
{
    body.len() >= 2 && body[0] == b'0' && (body[1] == b'x' || body[1] == b'X')
}

/// The radix of the digits.
fn radix_of(word: &[u8]) -> u64
    ensures value { result ≡ spec.radix_of word.now }
    ensures least { 1 ≤ result }
{
    if is_hexadecimal(body_of(word)) {
        16
    } else {
        10
    }
}

/// The digits.
fn digits_of(word: &[u8]) -> &[u8]
    ensures { result.now ≡ spec.digits_of word.now }
{
    let body = body_of(word);
    if is_hexadecimal(body) {
        &body[2..]
    } else {
        body
    }
}

/// The value of a digit, or 16 for what is none.
fn digit_value(byte: u8) -> u64
    ensures { result ≡ spec.digit_value byte }
{
    match byte {
        b'0'..=b'9' => u64::from(byte - b'0'),
        b'a'..=b'f' => u64::from(byte - b'a' + 10),
        b'A'..=b'F' => u64::from(byte - b'A' + 10),
        _ => 16,
    }
}

/// Whether there is a digit or more, and nothing else.
fn is_numeral(radix: u64, digits: &[u8]) -> bool
    ensures { result ≡ spec.is_numeral radix digits.now }
{
    if digits.is_empty() {
        return false;
    }
    for byte in digits {
        if digit_value(*byte) >= radix {
            return false;
        }
    }
    true
}

/// The number that the digits write, times `unit`, where 64 bits hold it.
fn whole(radix: u64, digits: &[u8], unit: u64) -> Option<u64>
    requires radix { 1 ≤ radix }
    requires unit { 1 ≤ unit }
    ensures { result ≡ spec.within (spec.value_after radix 0 digits.now * unit) }
{
    match value_of(radix, digits) {
        Some(value) => value.checked_mul(unit),
        None => None,
    }
}

/// The number that the digits write, where 64 bits hold it.
fn value_of(radix: u64, digits: &[u8]) -> Option<u64>
    requires { 1 ≤ radix }
    ensures { result ≡ spec.within (spec.value_after radix 0 digits.now) }
{
    let mut value = 0;
    for byte in digits {
        value = with_digit(radix, value, *byte)?;
    }
    Some(value)
}

/// The number with one digit more, where 64 bits hold it.
fn with_digit(radix: u64, value: u64, byte: u8) -> Option<u64>
    ensures { result ≡ spec.within (value * radix + spec.digit_value byte) }
{
    value.checked_mul(radix)?.checked_add(digit_value(byte))
}
