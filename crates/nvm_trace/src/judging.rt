/// What a device is held to. By both, a Write, a Write Zeroes, a Write Uncorrectable or a Deallocate over several units whose reply
/// leaves open what was done may have been done in some of them alone: where it isn't cut into blocks, the record has its part in
/// each unit as a command of its own.
#[derive(Clone, Copy, Debug, PartialEq, Eq)]
pub enum Judging {
    /// What the standard asks. A Write, a Write Zeroes or a Write Uncorrectable by itself of more than NAWUN + 1 blocks, or over a
    /// boundary, may be torn: the record has each of its blocks as a command of its own. And where the trace says so, a Read or a
    /// Compare by itself that succeeded may have found each of its blocks at a moment of its own: so has the record.
    Standard,
    /// Each command is one step in each atomic unit, however many blocks it has: the record has the trace's other jobs as they are.
    Strict,
}
