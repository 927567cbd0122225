ghost use Rattle.std.specs.Prelude.{◌≡◌, option_map};
ghost use Rattle.nvm_plan.specs.LentPart.{part_operation_of};
ghost use Rattle.nvm_explain.specs.RecordedData as spec;

use nvm_audit::DoneJob;
use nvm_geometry::MOST_BLOCKS;
use nvm_plan::{Body, Job, LentPart};
use nvm_record::BlockSize;
use nvm_store::Look;

/// Those bytes of a Read's recorded data that are of its part's blocks, if the part is of a Read and the data has them.
pub(crate) fn recorded_data<'a>(
    size: BlockSize,
    job: &Job,
    done: &'a DoneJob,
    part: &LentPart<'_>,
) -> Option<&'a [u8]>
    ensures { option_map (λ shown. shown.now) result
        ≡ spec.recorded_data size job.now.body (part_operation_of part.now) done.now.payload }
{
    let (Body::Single(command) | Body::Pair(command, _)) = &job.body;
    match (part, &done.payload) {
        (LentPart::Look(Look::Read { first, blocks }), Some(data)) => {
            data_of_blocks(size, command.slba, *first, *blocks, data.as_slice())
        }
        _ => None,
    }
}

/// The bytes of these blocks, if data from block `start` on has them.
fn data_of_blocks<'a>(
    size: BlockSize,
    start: u64,
    first: u64,
    blocks: u32,
    bytes: &'a [u8],
) -> Option<&'a [u8]>
    ensures { option_map (λ shown. shown.now) result ≡ spec.data_of_blocks size start first blocks bytes.now }
{
    if first > MOST_BLOCKS || u64::from(blocks) > MOST_BLOCKS || start > first {
        return None;
    }
    let size = u64::from(size.bytes());
    let from = (first - start) * size;
    let to = (first - start + u64::from(blocks)) * size;
    if to <= bytes.len() as u64 {
        Some(&bytes[from as usize..to as usize])
    } else {
        None
    }
}
