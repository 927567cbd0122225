ghost use Rattle.std.specs.Prelude.{◌≡◌, OnErr, OnOk};
ghost use Rattle.std.specs.Io.KnownBytes.{Appends};
ghost use Rattle.nvm_text.specs.Handed.{TakesFront};
ghost use Rattle.nvm_audit.specs.Recordable.{HoldsLimit};
ghost use Rattle.nvm_file.specs.Fits.{NumbersFit};
ghost use Rattle.nvm_file.specs.HeadSpelling as spec;
ghost use Rattle.nvm_file.specs.HeadSpelling.{head_bytes, limit_bytes, name_of};

use super::bytes::{four_bytes, two_bytes};
use byteorder::{ByteOrder, LittleEndian};
use nvm_audit::{Record, Version};
use nvm_geometry::Geometry;
use nvm_store::Limit;
use nvm_text::{Failed, Noted, hand_noting};
use std::io::Write;

/// Writes what stands before the jobs.
pub fn write_head<W: Write>(writer: &mut W, noted: &mut Noted, run: &Record) -> Result<(), Failed>
    ensures whole { OnOk result (Appends (W.contents writer.old) (W.contents writer.new) (head_bytes run.now)) }
    ensures front { OnErr result (TakesFront (W.contents writer.old) (W.contents writer.new) (head_bytes run.now)) }
    ensures fit { OnOk result (NumbersFit run.now.namespace) }
{
    hand_noting(writer, noted, name(run.version))?;
    hand_noting(writer, noted, &namespace_bytes(run.geometry))?;
    write_limit(writer, noted, run.version, run.limit)?;
    hand_noting(writer, noted, &two_bytes(run.workers))
}

/// The name of a file of the version.
fn name(version: Version) -> &'static [u8]
    ensures { result.now ≡ name_of version }
{
    match version {
        Version::One => b"NVR1",
        Version::Two => b"NVR2",
    }
}

/// The numbers of the namespace.
pub fn namespace_bytes(geometry: Geometry) -> [u8; 20]
    ensures bytes { result ≡ spec.namespace_bytes geometry }
    ensures fit { NumbersFit geometry }
{
    let mut bytes = [0; 20];
    LittleEndian::write_u64(&mut bytes, geometry.nsze());
    LittleEndian::write_u32(&mut bytes[8..], geometry.block_size().bytes());
    LittleEndian::write_u16(&mut bytes[12..], geometry.nabsn());
    LittleEndian::write_u16(&mut bytes[14..], geometry.nabo());
    LittleEndian::write_u16(&mut bytes[16..], geometry.nawun());
    LittleEndian::write_u16(&mut bytes[18..], geometry.nacwu());
    bytes
}

/// Writes the limit, for which the version has room.
fn write_limit<W: Write>(
    writer: &mut W,
    noted: &mut Noted,
    version: Version,
    limit: Limit,
) -> Result<(), Failed>
    requires { HoldsLimit version limit }
    ensures whole { OnOk result (Appends (W.contents writer.old) (W.contents writer.new) (limit_bytes version limit)) }
    ensures front { OnErr result (TakesFront (W.contents writer.old) (W.contents writer.new) (limit_bytes version limit)) }
{
    let entries = limit.entries();
    match version {
        Version::One => hand_noting(writer, noted, &two_bytes((entries - 1) as u16)),
        Version::Two => hand_noting(writer, noted, &four_bytes(entries)),
    }
}
