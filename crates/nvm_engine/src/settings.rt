use crate::worker_count::Workers;
use nvm_store::Limit;

/// What the program runs with: the options of `nvmu run` that say what the namespace is, how many
/// workers there are, and how long a history may grow.
#[derive(Clone, Copy, Debug, PartialEq, Eq)]
pub struct Settings {
    /// NSZE, the size of the namespace in logical blocks.
    pub nsze: u64,
    /// The size of a logical block in bytes.
    pub block: u32,
    /// NABSN, the atomic boundary size, zeroes-based; 0 is no boundary.
    pub nabsn: u16,
    /// NABO, the atomic boundary offset: the LBA at which the first unit of full size begins.
    pub nabo: u16,
    /// NAWUN, the atomic write unit, zeroes-based.
    pub nawun: u16,
    /// NACWU, the atomic compare and write unit, zeroes-based.
    pub nacwu: u16,
    /// How many workers do the jobs.
    pub workers: Workers,
    /// How many changes a unit's history may have.
    pub limit: Limit,
}
