/// Where a command stands in its job.
#[derive(Clone, Copy)]
pub enum Standing {
    /// By itself.
    Alone,
    /// As the first of a fused pair.
    FirstOfPair,
    /// As the second of a fused pair.
    SecondOfPair,
}
