//! Numbers in bytes, the lowest byte first. A number that isn't whole is 0.

use byteorder::{ByteOrder, LittleEndian};

/// The bytes from an offset on; none where it is past their end.
pub(crate) fn behind(bytes: &[u8], at: usize) -> &[u8] {
    match bytes.get(at..) {
        Some(rest) => rest,
        None => &[],
    }
}

pub(crate) fn u8_at(bytes: &[u8], at: usize) -> u8 {
    match bytes.get(at) {
        Some(byte) => *byte,
        None => 0,
    }
}

pub(crate) fn u16_at(bytes: &[u8], at: usize) -> u16 {
    let rest = behind(bytes, at);
    if rest.len() < 2 {
        0
    } else {
        LittleEndian::read_u16(rest)
    }
}

pub(crate) fn u32_at(bytes: &[u8], at: usize) -> u32 {
    let rest = behind(bytes, at);
    if rest.len() < 4 {
        0
    } else {
        LittleEndian::read_u32(rest)
    }
}

pub(crate) fn u64_at(bytes: &[u8], at: usize) -> u64 {
    let rest = behind(bytes, at);
    if rest.len() < 8 {
        0
    } else {
        LittleEndian::read_u64(rest)
    }
}
