/// What a device promises of Reads and Compares of several blocks, by the head of its trace.
#[derive(Clone, Copy, Debug, PartialEq, Eq)]
pub enum Reads {
    /// A Write or a pair within its limits is before all of one or after all of it: what the standard promises. Beside a record it
    /// is held as [`Whole`](Reads::Whole) is.
    Atomic,
    /// In each atomic unit it finds all of its blocks at one moment.
    Whole,
    /// One that succeeded may have found each of its blocks at a moment of its own.
    ByBlocks,
}
