/// What was known of the blocks when a trace began.
#[derive(Clone, Copy, Debug, PartialEq, Eq)]
pub enum Start {
    /// Every block had zero bytes, as after a Write Zeroes of the whole namespace.
    Zeroes,
    /// Nothing was known.
    Unknown,
}
