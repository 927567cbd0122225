/// How much there is in a trace that a record explains.
#[derive(Clone, Copy, Debug, PartialEq, Eq)]
pub struct Explained {
    /// How many jobs the trace has.
    pub jobs: u32,
    /// How many units the namespace has.
    pub units: u16,
    /// How many steps the record shows, in all units together.
    pub steps: u64,
    /// How many jobs never ended, or ended with a reply that doesn't say what was done. The record only has to be lawful there, with
    /// no change made where the reply says that the command wasn't executed.
    pub excused: u32,
    /// How many jobs of the record are preparations.
    pub preparations: u32,
}
