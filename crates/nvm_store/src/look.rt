mod answer;

pub use answer::Answer;

/// What may be asked of the blocks of a unit. It changes nothing.
///
/// `first` is an LBA of the namespace, and `blocks` a number of logical blocks, not zeroes-based.
#[derive(Clone, Copy, Debug)]
pub enum Look<'a> {
    /// The blocks' bytes are asked for, one block after the other (NVM Command Set Specification,
    /// "Read command").
    Read {
        first: u64,
        blocks: u32,
    },
    /// The blocks are compared with the data, one block after the other (NVM Command Set Specification,
    /// "Compare command").
    Compare {
        first: u64,
        blocks: u32,
        payload: &'a [u8],
    },
}
