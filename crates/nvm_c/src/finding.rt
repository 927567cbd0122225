//! What is found of a trace that C has judged: a code, and the line that goes with it.
ghost use Rattle.std.specs.Prelude.{◌≡◌, ◌≢◌, IfOk, OnOk, string_bytes};
ghost use Rattle.nvm_evidence.specs.declared.evidence_fault.EvidenceFault.TheVariants.{NoMemory as NoMemoryOfEvidence};
ghost use Rattle.nvm_file.specs.declared.trace_file_fault.TraceFileFault.TheVariants.{NoMemory as NoMemoryFault};
ghost use Rattle.nvm_c.specs.TraceAnswer.{IsPut};
ghost use Rattle.nvm_c.specs.UnreadTrace.{evidence_fault_line, trace_fault_line};
ghost use Rattle.nvm_c.specs.declared.trace_code.TraceCode.TheVariants.{BadTrace};

use crate::line::{LineFault, put_line};
use crate::trace_code::TraceCode;
use nvm_evidence::EvidenceFault;
use nvm_file::TraceFileFault;
use nvm_record::NoMemory;
use std::alloc::{AllocError, Global};

/// A code, and its line.
#[derive(Drop)]
pub(crate) struct Finding {
    pub(crate) code: TraceCode,
    pub(crate) line: Vec<u8>,
}

impl Finding {
    /// Of bytes that are no trace's file. Want of memory is no fault of theirs: it is answered.
    pub(crate) fn bad_trace(alloc: Global, fault: TraceFileFault) -> Result<Finding, NoMemory>
        ensures known { OnOk result (fault ≢ NoMemoryFault) }
        ensures found { IfOk result (λ finding. (finding.code ≡ BadTrace) × (finding.line.items ≡ trace_fault_line fault)) }
    {
        let line = trace_fault_text(alloc, fault)?;
        Ok(Finding {
            code: TraceCode::BadTrace,
            line: line.into_bytes(),
        })
    }

    /// Of bytes that are no evidence of this kind, with its code. Want of memory is no fault of theirs: it is answered.
    pub(crate) fn bad_evidence(
        alloc: Global,
        code: TraceCode,
        kind: &str,
        fault: EvidenceFault,
    ) -> Result<Finding, NoMemory>
        ensures known { OnOk result (fault ≢ NoMemoryOfEvidence) }
        ensures found { IfOk result (λ finding. (finding.code ≡ code) × (finding.line.items ≡ evidence_fault_line kind.now fault)) }
    {
        let line = evidence_fault_text(alloc, kind, fault)?;
        Ok(Finding {
            code,
            line: line.into_bytes(),
        })
    }

    /// Writes the line into its room, and gives the code. Nothing is written where the room is too short.
    pub(crate) fn put(self, room: &mut [u8]) -> TraceCode
        ensures { IsPut self.code self.line.items result room.old room.new }
    {
        let Finding { code, line } = self;
        match put_line(line, room) {
            Ok(()) => code,
            Err(LineFault::NoMemory) => TraceCode::NoMemory,
            Err(LineFault::ShortRoom) => TraceCode::ShortRoom,
        }
    }
}

/// The line of bytes that are no trace's file.
#[tactic(auto, unfolding(crate::specs::UnreadTrace::trace_fault_line))]
fn trace_fault_text(alloc: Global, fault: TraceFileFault) -> Result<String, NoMemory>
    ensures known { OnOk result (fault ≢ NoMemoryFault) }
    ensures line { IfOk result (λ line. string_bytes line ≡ trace_fault_line fault) }
{
    match fault {
        TraceFileFault::BadName => format!(in alloc; "trace: bad name\n"),
        TraceFileFault::Truncated { at } => format!(in alloc; "trace: truncated at {at}\n"),
        TraceFileFault::Trailing { at } => format!(in alloc; "trace: trailing at {at}\n"),
        TraceFileFault::BadValue { at } => format!(in alloc; "trace: bad value at {at}\n"),
        TraceFileFault::BeganAtZero { at } => format!(in alloc; "trace: began at zero at {at}\n"),
        TraceFileFault::EndedBefore { at } => format!(in alloc; "trace: ended before at {at}\n"),
        TraceFileFault::NoMemory => Err(AllocError),
    }
}

/// The line of bytes that are no evidence of this kind.
#[tactic(auto, unfolding(crate::specs::UnreadTrace::evidence_fault_line))]
fn evidence_fault_text(alloc: Global, kind: &str, fault: EvidenceFault) -> Result<String, NoMemory>
    ensures known { OnOk result (fault ≢ NoMemoryOfEvidence) }
    ensures line { IfOk result (λ line. string_bytes line ≡ evidence_fault_line kind.now fault) }
{
    match fault {
        EvidenceFault::BadName => format!(in alloc; "{kind}: bad name\n"),
        EvidenceFault::Truncated { at } => format!(in alloc; "{kind}: truncated at {at}\n"),
        EvidenceFault::Trailing { at } => format!(in alloc; "{kind}: trailing at {at}\n"),
        EvidenceFault::BadValue { at } => format!(in alloc; "{kind}: bad value at {at}\n"),
        EvidenceFault::NoMemory => Err(AllocError),
    }
}
