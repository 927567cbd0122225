//! A hash of bytes.

/// An odd number whose bits are as if drawn at random.
const FACTOR: u64 = 0x9e37_79b9_7f4a_7c15;

/// A number of which each bit depends on many of the other's.
fn mixed(number: u64) -> u64 {
    let product = number.wrapping_mul(FACTOR);
    product ^ (product >> 32)
}

/// A number that equal bytes share, and other bytes hardly ever. All bytes 0 have none.
pub fn hash_of(bytes: &[u8]) -> Option<u64> {
    let (words, rest) = bytes.as_chunks::<8>();
    let mut hash = FACTOR;
    let mut some = 0;
    for word in words {
        let number = u64::from_le_bytes(*word);
        some |= number;
        hash = mixed(hash ^ number);
    }
    for byte in rest {
        let number = u64::from(*byte);
        some |= number;
        hash = mixed(hash ^ number);
    }
    if some == 0 { None } else { Some(hash) }
}
