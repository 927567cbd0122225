/// What a command may do, at one moment or at one for each of its blocks.
///
/// Blocks are those of the trace's namespace, and a point has at least one. `blocks` of data are lent, of the size of the namespace's blocks.
#[derive(Clone, Copy, Debug)]
pub struct Point<'t> {
    /// The number of the command, its place in the trace.
    pub command: u32,
    /// The first block.
    pub first: u32,
    /// How many blocks, at least 1.
    pub blocks: u32,
    /// Whether each block is done by itself, at a moment of its own. Else all are done at one moment.
    pub each: bool,
    /// What is found in the blocks, before anything is put.
    pub found: Found<'t>,
    /// What is put there.
    pub put: Put<'t>,
    /// Whether it is done.
    pub presence: Presence,
    /// A block is done only after the same block of the point before this one in the table.
    pub after: bool,
    /// Whether entries are held to be before all of its command's blocks or after all.
    pub tied: bool,
    /// Not done before this time.
    pub from: u64,
    /// Not done after this time, if there is one.
    pub until: Option<u64>,
    /// Of a Deallocate the time at which it was over, if it ever was: a block of it isn't done after one that was surely put by a
    /// command which began later.
    pub over: Option<u64>,
}

/// What a point finds.
#[derive(Clone, Copy, Debug)]
pub enum Found<'t> {
    /// Nothing is said of it.
    Nothing,
    /// These bytes, in all its blocks.
    Bytes(&'t [u8]),
    /// In each block bytes, and no mark.
    AnyBytes,
    /// In each block bytes other than these.
    OtherThan(&'t [u8]),
}

/// What a point puts.
#[derive(Clone, Copy, Debug)]
pub enum Put<'t> {
    Nothing,
    /// These bytes, in all its blocks.
    Bytes(&'t [u8]),
    Zeroes,
    /// The mark of Write Uncorrectable.
    Mark,
    /// What a deallocated block may read as.
    Deallocated,
    /// Anything.
    Anything,
}

/// Whether a point is done.
#[derive(Clone, Copy, Debug, PartialEq, Eq)]
pub enum Presence {
    /// It is, once, in each of its blocks.
    Sure,
    /// Each block is done once or not at all.
    Optional,
    /// Exactly one of its blocks is done.
    OneOf,
    /// All its blocks are done, or none.
    Together,
    /// Each block is done any number of times.
    Repeated,
}
