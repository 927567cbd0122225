use nvm_standard::ContradictionFault;
use thiserror::Error;

/// Why a contradiction isn't taken of a trace.
#[derive(Clone, Copy, Debug, PartialEq, Eq, Error)]
pub enum RefuteFault {
    /// No device may end the command of this number as it ended: nothing explains the trace, whatever the facts say. It is the first such.
    #[error("Wrong")]
    Wrong { command: u32 },
    /// The contradiction has this fault, which isn't want of memory.
    #[error("{0}")]
    Contradiction(ContradictionFault),
    /// Memory was asked for and refused: nothing is known.
    #[error("no memory")]
    NoMemory,
}
