/// Whose point it is, and when the command was at work.
#[derive(Clone, Copy, Debug)]
pub(crate) struct Doer {
    /// The number of the command.
    pub command: u32,
    /// When it began.
    pub began: u64,
    /// When it ended, if an end was seen.
    pub ended: Option<u64>,
}
