/// What of a traced command one of the record's jobs is.
#[derive(Clone, Copy, Debug, PartialEq, Eq)]
pub enum Cut {
    /// All of it.
    Whole,
    /// Its block of this number, counted from 0.
    Block(u32),
    /// Its part in the unit of this number.
    InUnit(u16),
}
