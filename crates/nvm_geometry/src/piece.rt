/// The LBAs of a range that lie in one unit.
#[derive(Clone, Copy, Debug, PartialEq, Eq)]
pub struct Piece {
    /// The number of the unit.
    pub unit: u16,
    /// The first of the LBAs.
    pub first: u64,
    /// How many LBAs there are.
    pub blocks: u32,
}
