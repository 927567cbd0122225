use smallvec::SmallVec;

/// The parts of a job that were done. A single one takes no memory.
pub type Parts = SmallVec<Part, 1>;

/// What a job did in one unit. Its default stands where a list of parts has room for one.
#[derive(Clone, Copy, Debug, Default, PartialEq, Eq)]
pub struct Part {
    /// The number of changes that the unit's history had when the part was done: the part rests on
    /// that point.
    pub point: u32,
    /// The number of the unit.
    pub unit: u16,
    /// How it ended.
    pub result: PartResult,
}

/// How a part ended.
#[derive(Clone, Copy, Debug, Default, PartialEq, Eq, Hash)]
pub enum PartResult {
    /// The change was made.
    #[default]
    Done,
    /// The comparison of a fused pair failed, and nothing was changed.
    Failed,
    /// The part looked, as a Read and a Compare do; it may have ended without success.
    Looked,
    /// A growth of memory was refused, and nothing was changed.
    NoMemory,
    /// The unit's history was at its limit, and nothing was changed.
    Full,
}
