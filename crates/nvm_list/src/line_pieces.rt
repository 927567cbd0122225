ghost use Rattle.std.specs.Prelude.{◌≡◌, Some};
ghost use Rattle.nvm_record.specs.Ranges.{ranges_of};
ghost use Rattle.nvm_list.specs.Listing as spec;
ghost use Rattle.nvm_list.specs.Listing.{behind_spaces, range_text, ranges_text};

use nvm_record::{Command, Fuse, LbaRange, Op, range_count};
use nvm_text::{OpName, RunsText};
use std::fmt;
use std::fmt::{Display, Formatter};

/// A command in the words of a list, with the options that it can't do without at this place, where the first command is at place 1.
#[derive(Clone, Copy)]
pub struct CommandText<'a> {
    pub place: u64,
    pub command: &'a Command,
}

impl Display for CommandText<'_> {
    ghost output = { λ text. Some (spec.command_text text.place text.command.now) };

    fn fmt<W: fmt::Write>(&self, f: &mut Formatter<W>) -> fmt::Result {
        let command = self.command;
        let name = OpName(command.op);
        let operands = OperandsText(command);
        let deallocate = deallocate_option(command.op);
        let fuse = fuse_option(command.fuse);
        let cid = CidOption {
            place: self.place,
            cid: command.cid,
        };
        let nsid = NsidOption(command.nsid);
        write!(f, "{name}{operands}{deallocate}{fuse}{cid}{nsid}")
    }
}

/// What a command is on, each word after a space: its ranges, or its starting LBA, its number of blocks and its data.
#[derive(Clone, Copy)]
pub struct OperandsText<'a>(pub &'a Command);

impl Display for OperandsText<'_> {
    ghost output = { λ text. Some (behind_spaces (spec.operand_words text.0.now)) };

    fn fmt<W: fmt::Write>(&self, f: &mut Formatter<W>) -> fmt::Result {
        let command = self.0;
        let first = command.slba;
        let blocks = u64::from(command.nlb) + 1;
        let payload = command.payload.as_slice();
        if command.op.carries_ranges() {
            write!(f, " {}", RangesText(payload))
        } else if command.op.carries_blocks() {
            write!(f, " {first} {blocks} {}", RunsText(payload))
        } else {
            write!(f, " {first} {blocks}")
        }
    }
}

/// The ranges that data holds, `<first LBA>+<number of blocks>` each, joined by commas: a range definition has 16 bytes.
#[derive(Clone, Copy)]
pub struct RangesText<'a>(pub &'a [u8]);

impl Display for RangesText<'_> {
    ghost output = { λ text. Some (ranges_text (ranges_of text.0.now)) };

    fn fmt<W: fmt::Write>(&self, f: &mut Formatter<W>) -> fmt::Result {
        let payload = self.0;
        let count = range_count(payload);
        if count == 0 {
            return Ok(());
        }
        write!(f, "{}", RangeText(LbaRange::at(payload, 0)))?;
        for place in 1..count {
            write!(f, ",{}", RangeText(LbaRange::at(payload, place)))?;
        }
        Ok(())
    }
}

/// One range.
#[derive(Clone, Copy)]
struct RangeText(LbaRange);

impl Display for RangeText {
    ghost output = { λ text. Some (range_text text.0) };

    fn fmt<W: fmt::Write>(&self, f: &mut Formatter<W>) -> fmt::Result {
        let LbaRange { first, blocks } = self.0;
        write!(f, "{first}+{blocks}")
    }
}

/// ` deallocate` where the operation has the Deallocate bit, and nothing where it hasn't.
pub fn deallocate_option(op: Op) -> &'static str
    ensures { result.now ≡ behind_spaces (spec.deallocate_words op) }
{
    match op {
        Op::Dataset { deallocate: true } => " deallocate",
        _ => "",
    }
}

/// ` first`, ` second` or ` reserved` by the FUSE bits, and nothing for a normal command.
pub fn fuse_option(fuse: Fuse) -> &'static str
    ensures { result.now ≡ behind_spaces (spec.fuse_words fuse) }
{
    match fuse {
        Fuse::Normal => "",
        Fuse::First => " first",
        Fuse::Second => " second",
        Fuse::Reserved => " reserved",
    }
}

/// ` cid=` and the command identifier, if that isn't the command's place in its list.
#[derive(Clone, Copy)]
struct CidOption {
    place: u64,
    cid: u16,
}

impl Display for CidOption {
    ghost output = { λ option. Some (behind_spaces (spec.cid_words option.place option.cid)) };

    fn fmt<W: fmt::Write>(&self, f: &mut Formatter<W>) -> fmt::Result {
        let cid = self.cid;
        if u64::from(cid) == self.place % 65_536 {
            return Ok(());
        }
        write!(f, " cid={cid}")
    }
}

/// ` nsid=` and the namespace identifier, if that isn't 1.
#[derive(Clone, Copy)]
struct NsidOption(u32);

impl Display for NsidOption {
    ghost output = { λ option. Some (behind_spaces (spec.nsid_words option.0)) };

    fn fmt<W: fmt::Write>(&self, f: &mut Formatter<W>) -> fmt::Result {
        let nsid = self.0;
        if nsid == 1 {
            return Ok(());
        }
        write!(f, " nsid={nsid}")
    }
}
