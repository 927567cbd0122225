//! Fields, appended to the bytes of a file.
use byteorder::{ByteOrder, LittleEndian};
use std::alloc::AllocError;

/// Appends a number of four bytes.
pub(crate) fn push_u32(bytes: &mut Vec<u8>, number: u32) -> Result<(), AllocError> {
    let mut field = [0; 4];
    LittleEndian::write_u32(&mut field, number);
    bytes.extend_from_slice(&field)
}

/// Appends a number of eight bytes.
pub(crate) fn push_u64(bytes: &mut Vec<u8>, number: u64) -> Result<(), AllocError> {
    let mut field = [0; 8];
    LittleEndian::write_u64(&mut field, number);
    bytes.extend_from_slice(&field)
}
