//! Numbers as a record file has them, little endian.
ghost use Rattle.std.specs.Prelude.{◌≡◌, ◌<◌, ◌^◌};
ghost use Rattle.byteorder.specs.Endian.{little_bytes};

use byteorder::{ByteOrder, LittleEndian};

/// A number in two bytes.
pub fn two_bytes(number: u16) -> [u8; 2]
    ensures { result ≡ little_bytes 2 number }
{
    let mut bytes = [0; 2];
    LittleEndian::write_u16(&mut bytes, number);
    bytes
}

/// A number in four bytes.
pub fn four_bytes(number: u32) -> [u8; 4]
    ensures { result ≡ little_bytes 4 number }
{
    let mut bytes = [0; 4];
    LittleEndian::write_u32(&mut bytes, number);
    bytes
}

/// A number in eight bytes.
pub fn eight_bytes(number: u64) -> [u8; 8]
    ensures { result ≡ little_bytes 8 number }
{
    let mut bytes = [0; 8];
    LittleEndian::write_u64(&mut bytes, number);
    bytes
}

/// How many items there are, in four bytes.
pub fn count_bytes(count: usize) -> [u8; 4]
    requires { count < 2 ^ 32 }
    ensures { result ≡ little_bytes 4 count }
{
    four_bytes(count as u32)
}
