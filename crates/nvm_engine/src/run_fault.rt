ghost use Rattle.std.specs.Prelude.{◌≡◌};
ghost use Rattle.nvm_engine.specs.declared.run_fault.RunFault.TheVariants.{NoMemory as NoMemoryFault};

use nvm_plan::Job;
use std::alloc::{AllocError, AllocFailed};
use thiserror::Error;

/// Why there is no record of a run.
#[derive(Clone, Copy, Debug, PartialEq, Eq, Error)]
pub enum RunFault {
    /// The number of workers is 0 or above 64.
    #[error("workers")]
    Workers,
    /// Memory was asked for outside a job and refused. All workers have ended, and what they did is lost.
    #[error("no memory")]
    NoMemory,
}

/// Why there is no record of a run, and the jobs that were to be run.
#[derive(Debug, Drop)]
pub struct RunFailed {
    pub fault: RunFault,
    /// The jobs, as they were handed in.
    pub jobs: Vec<Job>,
}

impl From<AllocError> for RunFault {
    ghost from_gives = { λ _ e. e ≡ NoMemoryFault };

    fn from(_e: AllocError) -> RunFault {
        RunFault::NoMemory
    }
}

impl<T: Drop> From<AllocFailed<T>> for RunFault {
    ghost from_gives = { λ _ e. e ≡ NoMemoryFault };

    fn from(_e: AllocFailed<T>) -> RunFault {
        RunFault::NoMemory
    }
}
