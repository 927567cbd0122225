//! `nvmu refute`: whether a contradiction is one of a trace.
ghost use Rattle.std.specs.Prelude.{IfOk, IfErr};
ghost use Rattle.nvm_evidence.specs.Refuted.{AreRefutedFiles as AreRefutedBytes};
ghost use Rattle.nvm_commands.specs.Nvmu.Judged.{AreRefutedFiles, IsRefuteFault, IsRefuteFaultOn};

use crate::failure::{Failure, plain};
use crate::fault::Fault;
use crate::front::Progress;
use crate::nvmu::files::read_pair;
use nvm_evidence::{Refuted, refute_contradiction_bytes};
use nvm_record::Payload;
use std::alloc::Global;
use std::rt::Files;

/// Reads the trace and the contradiction at these paths, and judges the one by the other.
pub fn refuted<R: AllocGlobal + Files + Input + Eprint>(
    rt: &R,
    trace: &str,
    contradiction: &str,
    progress: &Progress<'_, R>,
) -> Result<Refuted, Failure>
    ensures refuted { IfOk result AreRefutedFiles }
    ensures fault { IfErr result (λ failure. IsRefuteFaultOn trace.now contradiction.now failure.fault) }
{
    let (seen, held) = read_pair(rt, trace, contradiction, progress)?;
    refuted_of(rt.alloc(), &seen, &held)
}

/// Judges the bytes of a trace by those of a contradiction.
fn refuted_of(alloc: Global, seen: &Payload, held: &Payload) -> Result<Refuted, Failure>
    ensures refuted { IfOk result (AreRefutedBytes seen.now held.now) }
    ensures fault { IfErr result (λ failure. IsRefuteFault seen.now held.now failure.fault) }
{
    match refute_contradiction_bytes(alloc, seen, held.as_slice()) {
        Ok(refuted) => Ok(refuted),
        Err(fault) => Err(plain(Fault::Refute(fault))),
    }
}
