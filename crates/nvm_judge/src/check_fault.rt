use nvm_standard::OrderFault;
use thiserror::Error;

/// Why an order doesn't explain a trace.
#[derive(Clone, Copy, Debug, PartialEq, Eq, Error)]
pub enum CheckFault {
    /// No device may end the command of this number as it ended: nothing explains the trace. It is the first such.
    #[error("Wrong")]
    Wrong { command: u32 },
    /// The order has this fault, which isn't want of memory.
    #[error("{0}")]
    Order(OrderFault),
    /// Memory was asked for and refused: nothing is known.
    #[error("no memory")]
    NoMemory,
}
