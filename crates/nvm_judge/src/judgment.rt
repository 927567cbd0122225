use crate::search::Stop;
use nvm_standard::{Contradiction, Order};

/// What was found out about a trace.
#[derive(Debug, Drop)]
pub enum Judgment<'t> {
    /// The order explains the trace.
    Explained(Order<'t>),
    /// No order explains the trace: its facts and its conclusion show it.
    Contradicted(Contradiction),
    /// No device may end the command of this number as it ended, whatever was done: nothing explains the trace. It is the first such.
    Wrong { command: u32 },
    /// Neither an order that explains the trace nor a contradiction was found: why the search for an order ended.
    Unknown(Stop),
}
