//! What C is told of a job that was done.
ghost use Rattle.std.specs.Prelude.{◌≡◌, ◌≤◌, length};
ghost use Rattle.nvm_record.specs.Completion.{posted};
ghost use Rattle.nvm_c.specs.Told as spec;
ghost use Rattle.nvm_c.specs.Told.{AreTold, FitEntries, overwritten, posted_length};

use nvm_plan::{Body, Completions, Job};
use nvm_record::{Completion, completion_bytes};

/// How many bytes the completion entries of a job are.
pub(crate) fn entries_length(job: &Job) -> usize
    ensures { result ≡ posted_length job.now.body }
{
    match &job.body {
        Body::Single(_) => 16,
        Body::Pair(_, _) => 32,
    }
}

/// Writes the completions' entries into `posted`, and what a Read read into the front of `data`.
#[inline(always)]
pub(crate) fn tell(completions: &Completions, data: &mut [u8], posted: &mut [u8])
    requires fit { FitEntries completions.now }
    requires room { length posted.old ≡ spec.told_length completions.now }
    ensures { AreTold completions.now data.old data.new posted.old posted.new }
{
    match completions {
        Completions::One(completion) => {
            post(completion, posted);
            if let Some(read) = &completion.payload {
                overwrite(data, read.as_slice());
            }
        }
        Completions::Two(first, second) => {
            post(first, &mut posted[..16]);
            post(second, &mut posted[16..]);
        }
    }
}

/// Writes the completion's entry.
fn post(completion: &Completion, place: &mut [u8])
    requires fits { completion.now.status.sct ≤ 7 }
    requires room { length place.old ≡ 16 }
    ensures { place.new ≡ posted completion.now }
{
    place.copy_from_slice(&completion_bytes(completion));
}

/// Writes the bytes into the front of the buffer, as far as it reaches.
pub(crate) fn overwrite(buffer: &mut [u8], bytes: &[u8])
    ensures { buffer.new ≡ overwritten bytes.now buffer.old }
{
    if bytes.len() < buffer.len() {
        buffer[..bytes.len()].copy_from_slice(bytes);
    } else {
        let room = buffer.len();
        buffer.copy_from_slice(&bytes[..room]);
    }
}
