//! How a namespace is opened: its space, an engine for each port, and a handle for each engine.
ghost use Rattle.std.specs.Prelude.{◌≡◌, ◌⊎◌, ◌<◌, ◌≤◌, IfErr, IfNone, IfOk, IfSome, is_some, length, map, Some};
ghost use Rattle.std.specs.List.{AllByRecursion, list_any};
ghost use Rattle.nvm_geometry.specs.Large.{IsLarge};
ghost use Rattle.nvm_space.specs.Ports.{AreAllPortsOf, new_ports};
ghost use Rattle.nvm_space.specs.Spaces.{IsLaidOut, IsPortCount, most_entries};
ghost use Rattle.nvm_c.specs.Engines.{IsSound, state_of};
ghost use Rattle.nvm_c.specs.Logs.{kept_by};
ghost use Rattle.nvm_c.specs.Opening as spec;
ghost use Rattle.nvm_c.specs.declared.code.Code.TheVariants.{BadLimit, BadNamespace};
ghost use Rattle.nvm_c.specs.Opening.{AreNoNamespace, IsOpened, IsNoneOrLimit, NewPorts, Opens, engines_of, is_open, limit_asked, limit_of, namespace_asked, numbers_of};

use crate::code::Code;
use crate::engine::Engine;
use crate::handle::Handle;
use crate::log::{Log, Numbering};
use crate::waiting::JobData;
use nvm_geometry::{Geometry, LargeGeometry};
use nvm_record::NoMemory;
use nvm_space::{Port, Space, SpaceFault};
use nvm_store::Limit;
use nvm_unit::Count;
use std::alloc::{AllocError, Global};
use std::sync::Arc;

/// The numbers of a namespace as C writes them: those of `LargeGeometry::new`, and with a limit of `Geometry::new`.
#[repr(C)]
#[derive(Clone, Copy)]
pub struct Numbers {
    pub nsze: u64,
    pub block_size: u32,
    pub nabsn: u16,
    pub nabo: u16,
    pub nawun: u16,
    pub nacwu: u16,
}

/// What C asks for: with a limit a namespace that can be recorded, and without one a namespace of any size.
#[derive(Clone, Copy)]
pub enum Asked {
    Recorded { geometry: Geometry, limit: Limit },
    Unrecorded(LargeGeometry),
}

/// What C asks for by these numbers and this limit, of which 0 is none; or why it can't be had.
fn asked_by(numbers: &Numbers, limit: u32) -> Result<Asked, Code>
    ensures namespace { IfOk result (λ asked. namespace_asked asked ≡ numbers_of numbers.now) }
    ensures limit { IfOk result (λ asked. limit_asked asked ≡ limit_of limit) }
    ensures taken { IfOk result (λ asked. IsNoneOrLimit limit) }
    ensures refused { IfErr result (λ code. ((code ≡ BadNamespace) × AreNoNamespace (limit_of limit) (numbers_of numbers.now))
        ⊎ ((code ≡ BadLimit) × ¬ (IsNoneOrLimit limit))) }
{
    if limit == 0 {
        let Some(geometry) = large_of(numbers) else {
            return Err(Code::BadNamespace);
        };
        return Ok(Asked::Unrecorded(geometry));
    }
    let Ok(geometry) = Geometry::new(
        numbers.nsze,
        numbers.block_size,
        numbers.nabsn,
        numbers.nabo,
        numbers.nawun,
        numbers.nacwu,
    ) else {
        return Err(Code::BadNamespace);
    };
    match Limit::new(limit) {
        Some(limit) => Ok(Asked::Recorded { geometry, limit }),
        None => Err(Code::BadLimit),
    }
}

/// The geometry of these numbers, of any size, if there is one.
pub(crate) fn large_of(numbers: &Numbers) -> Option<LargeGeometry>
    ensures taken { IfSome result (λ g. g ≡ numbers_of numbers.now) }
    ensures sound { IfSome result IsLarge }
    ensures refused { IfNone result (¬ (IsLarge (numbers_of numbers.now))) }
{
    LargeGeometry::new(
        numbers.nsze,
        numbers.block_size,
        numbers.nabsn,
        numbers.nabo,
        numbers.nawun,
        numbers.nacwu,
    )
}

/// Opens each handle on a port of a new namespace, or leaves all as they were.
pub(crate) fn open_ports(
    alloc: Global,
    ports: &mut [Handle],
    numbers: &Numbers,
    limit: u32,
    versions: bool,
) -> Code
    ensures { Opens result (numbers_of numbers.now) limit versions ports.old ports.new }
{
    if any_open(ports) {
        return Code::IsOpen;
    }
    if ports.len() == 0 || ports.len() > 64 {
        return Code::BadPorts;
    }
    let asked = match asked_by(numbers, limit) {
        Ok(asked) => asked,
        Err(code) => return code,
    };
    let count = ports.len() as u16;
    let Ok(mut held) = handles(alloc, &asked, count, versions) else {
        return Code::NoMemory;
    };
    ports.swap_with_slice(&mut held);
    Code::Done
}

/// Whether one of them is open.
fn any_open(ports: &[Handle]) -> bool
    ensures { result ≡ list_any is_open ports.now }
{
    for port in ports {
        if port.is_open() {
            return true;
        }
    }
    false
}

/// Handles on the ports of a new namespace, in their order.
fn handles(
    alloc: Global,
    asked: &Asked,
    count: u16,
    versions: bool,
) -> Result<Vec<Handle>, NoMemory>
    requires { IsPortCount count }
    ensures opened { IfOk result (λ hs. IsOpened (namespace_asked asked.now) (limit_asked asked.now) versions (engines_of hs.items)) }
    ensures count { IfOk result (λ hs. length hs.items ≡ count) }
{
    let engines = engines(alloc, asked, count, versions)?;
    let mut held = Vec::with_capacity(alloc, engines.len())?;
    for engine in engines {
        held.push_reserved(Handle::of(engine));
    }
    Ok(held)
}

/// An engine for each port of a new namespace, in their order.
fn engines(
    alloc: Global,
    asked: &Asked,
    count: u16,
    versions: bool,
) -> Result<Vec<Box<Engine>>, NoMemory>
    requires { IsPortCount count }
    ensures new { IfOk result (λ bs. NewPorts (namespace_asked asked.now) (limit_asked asked.now) versions count (map (λ b. state_of b.value) bs.items)) }
    ensures sound { IfOk result (λ bs. AllByRecursion (λ b. IsSound b.value) bs.items) }
{
    let Ok((space, ports)) = opened(alloc, asked, count, versions) else {
        return Err(AllocError);
    };
    let limit = limit_in(asked);
    let space = Arc::new(alloc, space)?;
    let numbering = Arc::new(alloc, Numbering::new(count))?;
    let mut engines = Vec::with_capacity(alloc, ports.len())?;
    for port in ports {
        let space = Arc::try_clone(&space)?;
        let log = new_log(alloc, &numbering, &limit)?;
        let engine = Box::new(
            alloc,
            Engine {
                space,
                port,
                number: 0,
                pending: None,
                spare: JobData::new(alloc),
                log,
            },
        )?;
        engines.push_reserved(engine);
    }
    Ok(engines)
}

/// A new space of the namespace, and its ports.
fn opened(
    alloc: Global,
    asked: &Asked,
    count: u16,
    versions: bool,
) -> Result<(Space<Count>, Vec<Port<Count>>), SpaceFault>
    ensures namespace { IfOk result (λ s. s.0.namespace ≡ namespace_asked asked.now) }
    ensures limit { IfOk result (λ s. s.0.limit ≡ most_entries (limit_asked asked.now)) }
    ensures lists { IfOk result (λ s. s.0.lists ≡ is_some (limit_asked asked.now)) }
    ensures units { IfOk result (λ s. IsLaidOut s.0) }
    ensures count { IfOk result (λ s. s.0.ports ≡ count) }
    ensures ports { IfOk result (λ s. s.1.items ≡ new_ports s.0) }
    ensures all { IfOk result (λ s. AreAllPortsOf s.0 s.1.items) }
    ensures versions { IfOk result (λ s. s.0.versions ≡ versions) }
{
    match asked {
        Asked::Recorded { geometry, limit } => {
            Space::counted(alloc, *geometry, count, *limit, versions)
        }
        Asked::Unrecorded(geometry) => Space::unrecorded(alloc, *geometry, count, versions),
    }
}

/// The limit of what is recorded.
fn limit_in(asked: &Asked) -> Option<Limit>
    ensures { result ≡ limit_asked asked.now }
{
    match asked {
        Asked::Recorded { limit, .. } => Some(*limit),
        Asked::Unrecorded(_) => None,
    }
}

/// The log of a port that has done nothing yet, where the namespace is recorded.
fn new_log(
    alloc: Global,
    numbering: &Arc<Numbering, Global>,
    limit: &Option<Limit>,
) -> Result<Option<Log>, NoMemory>
    ensures { IfOk result (λ log. kept_by log ≡ spec.new_log (is_some limit.now)) }
{
    let Some(limit) = limit else {
        return Ok(None);
    };
    let numbering = Arc::try_clone(numbering)?;
    Ok(Some(Log {
        numbering,
        limit: *limit,
        jobs: Vec::new(alloc),
        done: Vec::new(alloc),
        full: false,
    }))
}
