//! Which field of a record or a trace is at an offset, in words, as in `the kind of entry 3 of unit 5`.
//!
//! A reader of these files answers the offset at which something is wrong. [`field_told`] goes over the file's fields from its front, by the lengths
//! that they say of themselves, and names the one that has the offset. No clause says which: `sweep/records.py` has each field of a record
//! that the built program refuses named, and `examples/forged.py` and `traces.py` have rows.
mod job;
mod numbers;
mod record;
mod trace;
mod walk;

use crate::fields::record::found_in_record;
use crate::fields::trace::found_in_trace;
use crate::fields::walk::Walk;
use nvm_record::NoMemory;
use std::alloc::Global;

/// What field is at an offset of a record or a trace, by the name with which the bytes begin, as in `it is the kind of entry 3
/// of unit 5`. All numbers count from 0. `None` where nothing is known of the offset, or of the name.
///
/// It is one pass over the fields up to the offset, and takes 16 bytes of memory for each job of a record. `NoMemory` is answered where a growth
/// was refused.
pub fn field_told(alloc: Global, bytes: &[u8], at: u64) -> Result<Option<String>, NoMemory> {
    let mut walk = Walk::new(alloc, bytes, at as usize);
    let is_found = if bytes.starts_with(b"NVR") {
        found_in_record(alloc, &mut walk)?
    } else {
        bytes.starts_with(b"NVT") && found_in_trace(&mut walk)?
    };
    Ok(if is_found { Some(walk.told()) } else { None })
}
