use nvm_plan::Job;
use nvm_record::{ReadData, Statuses};

/// What a host saw of one command or fused pair.
#[derive(Debug, Drop)]
pub struct TracedJob {
    /// The host's number, and the command or the pair.
    pub job: Job,
    /// A time before the device could see the command. Times are numbers of one clock, from 1.
    pub began: u64,
    /// How it ended, or nothing if no completion was seen, or only one of a pair's.
    pub ended: Option<Ending>,
}

/// What came back of a command or a fused pair.
#[derive(Debug, PartialEq, Eq, Drop)]
pub struct Ending {
    /// A time after the completion was seen, after the later one of a pair.
    pub time: u64,
    /// The status of the command, or of both.
    pub statuses: Statuses,
    /// The data of a Read that succeeded, which must be there for its reply to be explained.
    pub payload: Option<ReadData>,
}
