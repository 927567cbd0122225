use thiserror::Error;

/// Why a record of the first version has no second version.
#[derive(Clone, Copy, Debug, PartialEq, Eq, Error)]
pub enum UpgradeFault {
    /// A command of the job of this number, counted from 0, has opcode 09h. The first version keeps it as an unknown opcode,
    /// without the ranges that the second version has of it. No job before it has such a command.
    #[error("dataset management in job {job}")]
    Dataset { job: u32 },
}
