ghost use Rattle.std.specs.Prelude.{◌≡◌};
ghost use Rattle.nvm_file.specs.Fields.{Gives};
ghost use Rattle.nvm_file.specs.Inside.Frames.{IsSoundFrame};
ghost use Rattle.nvm_file.specs.Reading as spec;
ghost use Rattle.nvm_file.specs.Reading.{record_at};
ghost use Rattle.nvm_file.specs.Inside.Rest.{left_of};

use crate::done_job::workers_of;
use crate::entry::units_of;
use crate::fields::offset_of;
use crate::frame::Frame;
use crate::head::{frame_of, head_of};
use crate::job::jobs_of;
use crate::record_fault::RecordFault;
use crate::rest::Rest;
use nvm_audit::Record;
use nvm_geometry::laws::each_unit_has_one_place;
use nvm_record::Payload;
use nvm_record::laws::opcodes_are_proper;
use std::alloc::Global;

/// Reads a record file of either version, from its front. What is read is spelled just so, each byte of it, and the spelling of
/// each record is read as just that record: see [`spellings_are_files`](crate::laws::spellings_are_files).
///
/// The data of commands, of entries and of Reads are parts of the bytes. Memory is taken for the lists, for a count of owners of each
/// unit that has entries, and for the ranges of Deallocates, never for more items than the bytes that follow could hold, whatever a
/// count says.
///
/// The first fault from the front is answered, or `NoMemory` where a growth was refused before it, or 2^63 - 1 payloads
/// shared the bytes.
#[tactic(auto, unfolding(crate::specs::Reading::record_at))]
pub fn read_record(alloc: Global, bytes: &Payload) -> Result<Record, RecordFault>
    ensures { Gives (λ r. r) result (record_at bytes.now) }
{
    let total = bytes.len();
    let (head, rest) = head_of(total, Rest::whole(bytes))?;
    let frame = frame_of(total, &head);
    body_of(alloc, &frame, rest)
}

/// What stands behind the head.
#[tactic(auto, unfolding(crate::specs::Reading::body_of))]
fn body_of(alloc: Global, frame: &Frame, rest: Rest<'_>) -> Result<Record, RecordFault>
    requires { IsSoundFrame frame.now }
    ensures { Gives (λ r. r) result (spec.body_of frame.now (left_of rest.entry)) }
{
    opcodes_are_proper();
    each_unit_has_one_place();
    let (jobs, rest) = jobs_of(alloc, frame, rest)?;
    let (units, rest) = units_of(alloc, frame, rest)?;
    let (done, rest) = workers_of(alloc, frame, jobs.as_slice(), rest)?;
    if rest.len() > 0 {
        return Err(RecordFault::Trailing {
            at: offset_of(frame.total, rest),
        });
    }
    Ok(Record {
        version: frame.version,
        geometry: frame.geometry,
        limit: frame.limit,
        workers: frame.workers,
        jobs,
        units,
        done,
    })
}
