use nvm_store::Place;

/// What is settled of a unit when it is made.
#[derive(Clone, Copy, Debug, PartialEq, Eq)]
pub struct Bounds {
    /// Its LBAs and the size of its blocks.
    pub place: Place,
    /// The number of its passes, which are numbered from 0.
    pub passes: u16,
    /// The most entries that its history may have.
    pub limit: u64,
}
