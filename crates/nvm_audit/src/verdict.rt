/// What is reported of a lawful record: how much there was in it.
#[derive(Clone, Copy, Debug, PartialEq, Eq)]
pub struct Verdict {
    /// How many jobs.
    pub jobs: u32,
    /// How many units.
    pub units: u16,
    /// How many changes, in all units together.
    pub changes: u64,
    /// To how many jobs memory was refused, or a unit's history was full: those of which a status is 0/06.
    pub refused: u32,
}
