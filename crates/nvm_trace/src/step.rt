ghost use Rattle.std.specs.Prelude.{◌≡◌};
ghost use Rattle.nvm_trace.specs.Order.{level_of};

/// One step that a record shows of a unit, with the times of the command or pair that took it.
#[derive(Clone, Copy, Debug, PartialEq, Eq)]
pub struct Step {
    /// The number of the job.
    pub job: u32,
    /// The number of the unit.
    pub unit: u16,
    /// How many entries the unit's history had before the step.
    pub point: u32,
    /// Whether the step made the entry at its point.
    pub made: bool,
    /// When the job began.
    pub began: u64,
    /// When it ended, if it did.
    pub ended: Option<u64>,
}

impl Step {
    /// The step's place in its unit's order.
    pub fn level(&self) -> usize
        ensures { result ≡ level_of self.now }
    {
        let before = 2 * self.point as usize;
        if self.made { before + 1 } else { before }
    }
}

/// When a job began, and when it ended if it did.
#[derive(Clone, Copy, Debug, PartialEq, Eq)]
pub struct Times {
    pub began: u64,
    pub ended: Option<u64>,
}
