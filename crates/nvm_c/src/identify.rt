//! What a controller reports of a namespace.
ghost use Rattle.std.specs.Prelude.{◌≡◌};
ghost use Rattle.nvm_c.specs.Identify.{IdentifiesNumbers, IsReported, Reports};
ghost use Rattle.nvm_c.specs.Identify as spec;
ghost use Rattle.nvm_c.specs.Opening.{numbers_of};
ghost use Rattle.std.specs.Prelude.{length};

use crate::code::Code;
use crate::opening::{Numbers, large_of};
use crate::telling::overwrite;
use byteorder::{ByteOrder, LittleEndian};
use nvm_geometry::LargeGeometry;

/// An Identify Namespace data structure has so many bytes.
const IDENTIFY_BYTES: usize = 4096;

/// Writes the structure of the namespace of these numbers, if there is one.
pub(crate) fn identify_numbers(numbers: &Numbers, buffer: &mut [u8]) -> Code
    ensures { IdentifiesNumbers result (numbers_of numbers.now) buffer.old buffer.new }
{
    match large_of(numbers) {
        Some(geometry) => report(geometry, buffer),
        None => Code::BadNamespace,
    }
}

/// Writes the structure of the namespace, if the buffer has its length.
pub(crate) fn report(geometry: LargeGeometry, buffer: &mut [u8]) -> Code
    ensures { Reports result geometry buffer.old buffer.new }
{
    if buffer.len() != IDENTIFY_BYTES {
        return Code::BadLength;
    }
    identify(geometry, buffer);
    Code::Done
}

/// Writes the structure of the namespace.
fn identify(geometry: LargeGeometry, buffer: &mut [u8])
    requires { length buffer.old ≡ 4096 }
    ensures { IsReported geometry buffer.old buffer.new }
{
    let front = reported(geometry);
    buffer.fill(0);
    overwrite(buffer, &front);
}

/// Its front, up to the last field that is reported.
fn reported(geometry: LargeGeometry) -> [u8; 44]
    ensures { result ≡ spec.reported geometry }
{
    let nsze = geometry.nsze();
    let nawun = geometry.nawun();
    let nacwu = geometry.nacwu();
    let nabsn = geometry.nabsn();
    let nabo = geometry.nabo();
    let mut front = [0; 44];
    LittleEndian::write_u64(&mut front, nsze);
    front[24] = 2;
    LittleEndian::write_u16(&mut front[34..], nawun);
    LittleEndian::write_u16(&mut front[38..], nacwu);
    LittleEndian::write_u16(&mut front[40..], nabsn);
    LittleEndian::write_u16(&mut front[42..], nabo);
    front
}
