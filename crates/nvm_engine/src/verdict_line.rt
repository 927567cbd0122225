//! The line that says how an audit ended.
ghost use Rattle.std.specs.Prelude.{OnErr, OnOk};
ghost use Rattle.std.specs.Io.KnownBytes.{Appends};
ghost use Rattle.nvm_text.specs.Handed.{TakesFront};
ghost use Rattle.nvm_engine.specs.VerdictLine.{changes_text, count_text, lawful_line, place_text, spot_text, unlawful_line, unlawful_with};

use nvm_audit::{AuditFault, Spot, Verdict};
use nvm_text::{hand, write_decimal};
use std::io;
use std::io::Write;

/// Writes the line of a lawful record.
pub(crate) fn write_lawful<W: Write>(writer: &mut W, verdict: Verdict) -> io::Result<()>
    ensures whole { OnOk result (Appends (W.contents writer.old) (W.contents writer.new) (lawful_line verdict)) }
    ensures front { OnErr result (TakesFront (W.contents writer.old) (W.contents writer.new) (lawful_line verdict)) }
{
    write_count(writer, b"lawful jobs ", u64::from(verdict.jobs))?;
    write_count(writer, b" units ", u64::from(verdict.units))?;
    write_changes(writer, verdict)
}

/// Writes how many changes there were, and how many jobs were refused.
#[tactic(auto, unfolding(crate::specs::VerdictLine::changes_text))]
fn write_changes<W: Write>(writer: &mut W, verdict: Verdict) -> io::Result<()>
    ensures whole { OnOk result (Appends (W.contents writer.old) (W.contents writer.new) (changes_text verdict)) }
    ensures front { OnErr result (TakesFront (W.contents writer.old) (W.contents writer.new) (changes_text verdict)) }
{
    write_count(writer, b" changes ", verdict.changes)?;
    write_count(writer, b" refused ", u64::from(verdict.refused))?;
    hand(writer, b"\n")
}

/// Writes how much there was of something.
#[tactic(auto, unfolding(crate::specs::VerdictLine::count_text))]
fn write_count<W: Write>(writer: &mut W, of: &[u8], count: u64) -> io::Result<()>
    ensures whole { OnOk result (Appends (W.contents writer.old) (W.contents writer.new) (count_text of.now count)) }
    ensures front { OnErr result (TakesFront (W.contents writer.old) (W.contents writer.new) (count_text of.now count)) }
{
    hand(writer, of)?;
    write_decimal(writer, count)
}

/// Writes the line of a record's first fault. Want of memory is none, and has no line.
pub(crate) fn write_unlawful<W: Write>(writer: &mut W, fault: AuditFault) -> io::Result<()>
    ensures whole { OnOk result (Appends (W.contents writer.old) (W.contents writer.new) (unlawful_line fault)) }
    ensures front { OnErr result (TakesFront (W.contents writer.old) (W.contents writer.new) (unlawful_line fault)) }
{
    let Some(job) = fault.job() else {
        return hand(writer, b"");
    };
    write_fault(writer, fault.name().as_bytes(), job, fault.spot())
}

/// Writes the line of the fault of this name.
fn write_fault<W: Write>(
    writer: &mut W,
    name: &[u8],
    job: u32,
    spot: Option<Spot>,
) -> io::Result<()>
    ensures whole { OnOk result
        (Appends (W.contents writer.old) (W.contents writer.new) (unlawful_with name.now job spot)) }
    ensures front { OnErr result
        (TakesFront (W.contents writer.old) (W.contents writer.new) (unlawful_with name.now job spot)) }
{
    hand(writer, b"unlawful ")?;
    hand(writer, name)?;
    write_place(writer, job, spot)
}

/// Writes of which job the fault is, and where.
fn write_place<W: Write>(writer: &mut W, job: u32, spot: Option<Spot>) -> io::Result<()>
    ensures whole { OnOk result (Appends (W.contents writer.old) (W.contents writer.new) (place_text job spot)) }
    ensures front { OnErr result (TakesFront (W.contents writer.old) (W.contents writer.new) (place_text job spot)) }
{
    write_count(writer, b" job ", u64::from(job))?;
    write_spot(writer, spot)?;
    hand(writer, b"\n")
}

/// Writes where in a unit something is wrong.
fn write_spot<W: Write>(writer: &mut W, spot: Option<Spot>) -> io::Result<()>
    ensures whole { OnOk result (Appends (W.contents writer.old) (W.contents writer.new) (spot_text spot)) }
    ensures front { OnErr result (TakesFront (W.contents writer.old) (W.contents writer.new) (spot_text spot)) }
{
    let Some(spot) = spot else {
        return hand(writer, b" unit - place -");
    };
    write_count(writer, b" unit ", u64::from(spot.unit))?;
    write_count(writer, b" place ", u64::from(spot.place))
}
