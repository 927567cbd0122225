ghost use Rattle.std.specs.Prelude.{◌≡◌, ◌+◌, ◌<◌, ◌≤◌, None, IfOk, OnOk, [], length, map, ◌*◌};
ghost use Rattle.std.specs.List.{range_with_len};
ghost use Rattle.nvm_record.specs.declared.op.Op.TheVariants as ops;
ghost use Rattle.nvm_record.specs.declared.op.Fuse.TheVariants.{Normal};
ghost use Rattle.nvm_plan.specs.Jobs.{commands_of};
ghost use Rattle.nvm_plan.specs.declared.job.Body.TheVariants as bodies;
ghost use Rattle.nvm_generate.specs.Inside.Range.{IsRangeOf};
ghost use Rattle.nvm_generate.specs.Inside.Asking.{IsAsking, IsContentOf, IsNext};
ghost use Rattle.nvm_generate.specs.Inside.Commands.{on_blocks};
ghost use Rattle.nvm_generate.specs.Load.{IsJobOfLoad};
ghost use Rattle.nvm_generate.specs.Stamp as stamp;
ghost use Rattle.nvm_generate.specs.Inside.Kinds.{IsKindOf};

use crate::commands::{command, deallocate};
use crate::dice::Dice;
use crate::kind::Kind;
use crate::load::Load;
use crate::range::Range;
use crate::stamp::stamps;
use nvm_plan::Body;
use nvm_plan::laws::ready_jobs;
use nvm_record::{Command, Fuse, NoMemory, Op, Payload};
use std::alloc::Global;

/// Blocks, and what they have.
#[derive(Drop)]
pub struct Content {
    pub range: Range,
    pub payload: Payload,
}

/// What changes while a host asks for commands.
#[derive(Drop)]
pub struct Asking {
    dice: Dice,
    /// What it wrote last.
    written: Option<Content>,
}

impl Asking {
    /// As a host of a load with this seed begins.
    pub fn new(seed: u64, host: u8) -> Asking
        ensures { result.written ≡ None }
    {
        Asking {
            dice: Dice::new(seed, host),
            written: None,
        }
    }
}

/// What a host asks for next, after `before` commands.
pub fn next_job(
    alloc: Global,
    load: &Load,
    host: u8,
    before: u16,
    asking: &mut Asking,
) -> Result<Body, NoMemory>
    requires room { before < load.now.commands }
    requires sound { IsAsking load.now asking.old }
    ensures job { IfOk result (IsJobOfLoad load.now host) }
    ensures cids { IfOk result (λ job. map (λ c. c.cid) (commands_of job)
        ≡ range_with_len (before + 1) (length (commands_of job))) }
    ensures few { IfOk result (λ job. before + length (commands_of job) ≤ load.now.commands) }
    ensures sound { OnOk result (IsAsking load.now asking.new) }
{
    ready_jobs();
    let count = load.commands;
    let cid = before + 1;
    match load.mix.kind(&mut asking.dice) {
        Kind::Pair if cid < count => pair(alloc, load, host, cid, asking),
        kind => Ok(Body::Single(single(alloc, load, host, cid, kind, asking)?)),
    }
}

/// A command by itself.
fn single(
    alloc: Global,
    load: &Load,
    host: u8,
    cid: u16,
    kind: Kind,
    asking: &mut Asking,
) -> Result<Command, NoMemory>
    requires kind { IsKindOf load.now.mix kind }
    requires sound { IsAsking load.now asking.old }
    ensures next { IfOk result (λ c. IsNext load.now host cid (bodies.Single c)) }
    ensures sound { OnOk result (IsAsking load.now asking.new) }
{
    match kind {
        Kind::Write => {
            let range = Range::any(&mut asking.dice, load.geometry);
            write(alloc, load, host, cid, Fuse::Normal, range, asking)
        }
        Kind::Compare => {
            let Content { range, payload } = expected(alloc, load, asking)?;
            Ok(command(cid, Fuse::Normal, Op::Compare, range, payload))
        }
        Kind::Deallocate => deallocate(alloc, cid, Range::any(&mut asking.dice, load.geometry)),
        Kind::Zeroes => Ok(without_data(cid, Op::WriteZeroes, load, asking)),
        Kind::Uncorrectable => Ok(without_data(cid, Op::WriteUncorrectable, load, asking)),
        Kind::Read | Kind::Pair => Ok(without_data(cid, Op::Read, load, asking)),
    }
}

/// A command that has no data, on any blocks.
fn without_data(cid: u16, op: Op, load: &Load, asking: &mut Asking) -> Command
    requires { IsAsking load.now asking.old }
    ensures command { result ≡ on_blocks cid Normal op result.slba result.nlb [] }
    ensures range { IsRangeOf load.now.geometry result.slba result.nlb }
    ensures sound { IsAsking load.now asking.new }
{
    let range = Range::any(&mut asking.dice, load.geometry);
    command(cid, Fuse::Normal, op, range, Payload::empty())
}

/// A fused Compare and Write.
fn pair(
    alloc: Global,
    load: &Load,
    host: u8,
    cid: u16,
    asking: &mut Asking,
) -> Result<Body, NoMemory>
    requires cid { cid < u16.MAX }
    requires kind { 0 < load.now.mix.pair }
    requires sound { IsAsking load.now asking.old }
    ensures next { IfOk result (IsNext load.now host cid) }
    ensures two { IfOk result (λ job. length (commands_of job) ≡ 2) }
    ensures sound { OnOk result (IsAsking load.now asking.new) }
{
    let expected = expected(alloc, load, asking)?;
    let range = expected.range.of_pair(load.geometry);
    let bytes = (range.nlb as usize + 1) * load.geometry.block_size().bytes() as usize;
    let payload = expected.payload.part(0, bytes)?;
    let compare = command(cid, Fuse::First, Op::Compare, range, payload);
    let write = write(alloc, load, host, cid + 1, Fuse::Second, range, asking)?;
    Ok(Body::Pair(compare, write))
}

/// A Write of stamps, which is what the host wrote last from then on.
fn write(
    alloc: Global,
    load: &Load,
    host: u8,
    cid: u16,
    fuse: Fuse,
    range: Range,
    asking: &mut Asking,
) -> Result<Command, NoMemory>
    requires { IsRangeOf load.now.geometry range.first range.nlb }
    ensures command { IfOk result (λ c. c ≡ on_blocks cid fuse ops.Write range.first range.nlb c.payload) }
    ensures stamps { IfOk result (λ c. c.payload ≡ stamp.stamps load.now.geometry.block_size host cid (range.nlb + 1)) }
    ensures whole { IfOk result (λ c. length c.payload ≡ (range.nlb + 1) * load.now.geometry.block_size) }
    ensures sound { OnOk result (IsAsking load.now asking.new) }
{
    let payload = stamps(alloc, load.geometry.block_size(), host, cid, range.nlb)?;
    let written = payload.share()?;
    asking.written = Some(Content {
        range,
        payload: written,
    });
    Ok(command(cid, fuse, Op::Write, range, payload))
}

/// What a Compare expects: three in four times what the host wrote last, and else zeroes.
fn expected(alloc: Global, load: &Load, asking: &mut Asking) -> Result<Content, NoMemory>
    requires { IsAsking load.now asking.old }
    ensures content { IfOk result (IsContentOf load.now) }
    ensures sound { OnOk result (IsAsking load.now asking.new) }
{
    match &asking.written {
        Some(written) if asking.dice.below(4) > 0 => Ok(Content {
            range: written.range,
            payload: written.payload.share()?,
        }),
        _ => zeroes(alloc, load, asking),
    }
}

/// Any blocks, with zero bytes.
fn zeroes(alloc: Global, load: &Load, asking: &mut Asking) -> Result<Content, NoMemory>
    requires { IsAsking load.now asking.old }
    ensures content { IfOk result (IsContentOf load.now) }
    ensures sound { OnOk result (IsAsking load.now asking.new) }
{
    let range = Range::any(&mut asking.dice, load.geometry);
    let length = (range.nlb as usize + 1) * load.geometry.block_size().bytes() as usize;
    let mut bytes = Vec::new(alloc);
    bytes.resize(length, 0)?;
    let payload = Payload::new(alloc, bytes)?;
    Ok(Content { range, payload })
}
