ghost use Rattle.std.specs.Prelude.{◌≡◌};

use nvm_record::{Status, Statuses};
use nvm_store::Answer;
use std::alloc::AllocError;

/// What [`Unit::change`](crate::Unit::change) answers. The point is the number of entries on whose replay
/// the answer rests. In all cases but `Done` the unit's history and blocks are unchanged.
#[derive(Clone, Copy, Debug, PartialEq, Eq)]
pub enum Changed {
    /// The act was done. `point` entries come before its own.
    Done { point: u64 },
    /// The act is a pair whose comparison failed, with these statuses.
    Failed { point: u64, statuses: Statuses },
    /// Memory was asked for and refused. The act would have been done.
    NoMemory { point: u64 },
    /// The history is at its limit, which is the point. The act isn't a pair whose comparison fails there.
    Full { point: u64 },
}

/// What [`Unit::observe`](crate::Unit::observe) answers.
#[derive(Debug, PartialEq, Eq, Drop)]
pub struct Observed {
    /// The number of entries on whose replay the answer rests.
    pub point: u64,
    /// The answer.
    pub answer: Answer,
}

/// A copy of it and of its data, which takes memory.
impl Clone for Observed {
    ghost is_clone = { λ observed copy. copy ≡ observed };

    fn clone(&self) -> Result<Observed, AllocError> {
        let answer = self.answer.clone()?;
        Ok(Observed {
            point: self.point,
            answer,
        })
    }
}

/// What [`Unit::poll_observe_into`](crate::Unit::poll_observe_into) answers. With 0/00 a Read's data is in the buffer.
#[derive(Clone, Copy, Debug, PartialEq, Eq)]
pub struct ObservedStatus {
    /// The number of entries on whose replay the answer rests.
    pub point: u64,
    /// The status.
    pub status: Status,
}

/// Why [`Unit::observe`](crate::Unit::observe) has no answer.
#[derive(Clone, Copy, Debug, PartialEq, Eq)]
pub enum ObserveFault {
    /// The growth for a Read's data was refused, at this point. The unit is as it was, and may be looked at again.
    NoMemory { point: u64 },
}

/// Why [`Unit::look`](crate::Unit::look) has no answer.
#[derive(Clone, Copy, Debug, PartialEq, Eq)]
pub enum LookFault {
    /// Others have added entries since the pass was last brought up: there are `count` now, and that is the pass's new mark.
    Newer { count: u64 },
    /// Nothing has changed since the pass was last brought up, so the point is its new mark. But there was no memory for
    /// a Read's data, or the pass has no version to ask.
    NoMemory { point: u64 },
}

/// Why [`Unit::try_change`](crate::Unit::try_change) did nothing: it met this word. If that is odd, another pass had the
/// unit; if even, another pass had a change done after this call's load and before its exchange. Half of it is the pass's
/// new mark.
#[derive(Clone, Copy, Debug, PartialEq, Eq)]
pub struct Busy {
    /// Twice the number of entries, and one more if the unit is held.
    pub word: u64,
}
