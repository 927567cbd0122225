/// What is settled of a counter when it is made.
#[derive(Clone, Copy, Debug, PartialEq, Eq)]
pub struct Bounds {
    /// The number of jobs, which are numbered from 0.
    pub jobs: u32,
    /// The number of workers.
    pub workers: u16,
}
