//! What Reads read, shared: so it is in memory once, however often a record of it is asked for.
ghost use Rattle.std.specs.Prelude.{◌≡◌};

use nvm_audit::DoneJob;
use nvm_record::{Payload, ReadData};
use std::alloc::Global;

/// Has what Reads read shared, so that a copy of it takes no memory. Where memory is refused it stays as it is.
pub(crate) fn share_reads(alloc: Global, done: &mut [DoneJob])
    ensures { done.new ≡ done.old }
{
    for i in 0..done.len() {
        share_read(alloc, &mut done[i]);
    }
}

/// The same of one job.
fn share_read(alloc: Global, did: &mut DoneJob)
    ensures { did.new ≡ did.old }
{
    if let Some(read) = did.payload.take() {
        did.payload = Some(shared(alloc, read));
    }
}

/// The data, shared.
fn shared(alloc: Global, read: ReadData) -> ReadData
    ensures { result ≡ read }
{
    match read.into_vec() {
        Ok(bytes) => match Payload::copy_of(alloc, &bytes) {
            Ok(payload) => ReadData::shared(payload),
            Err(_) => ReadData::new(bytes),
        },
        Err(shared) => shared,
    }
}
