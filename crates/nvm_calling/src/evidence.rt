ghost use Rattle.std.specs.Prelude.{IfErr, IfOk};
ghost use Rattle.nvm_evidence.specs.Refuted.{AreRefutedFiles, IsRefuteFault};

use nvm_evidence::{
    RefuteBytesFault, Refuted, refute_contradiction_bytes, write_contradiction, write_order,
};
use nvm_judge::Judgment;
use nvm_record::Payload;
use nvm_standard::Profile;
use std::alloc::{AllocError, Global};

/// The bytes of the file of what was found of a trace, to be sent along with the trace's. `None` where there is nothing to be kept.
pub fn evidence_file_of(
    alloc: Global,
    profile: Profile,
    judgment: &Judgment<'_>,
) -> Result<Option<Vec<u8>>, AllocError> {
    match judgment {
        Judgment::Explained(order) => Ok(Some(write_order(alloc, profile, order)?)),
        Judgment::Contradicted(found) => Ok(Some(write_contradiction(alloc, profile, found)?)),
        Judgment::Wrong { .. } | Judgment::Unknown(_) => Ok(None),
    }
}

/// What a contradiction comes to that was sent along with a trace.
pub fn refute_files(
    alloc: Global,
    trace: &Payload,
    contradiction: &[u8],
) -> Result<Refuted, RefuteBytesFault>
    ensures refuted { IfOk result (AreRefutedFiles trace.now contradiction.now) }
    ensures fault { IfErr result (IsRefuteFault trace.now contradiction.now) }
{
    refute_contradiction_bytes(alloc, trace, contradiction)
}
