//! What is put in order: points, or their blocks where each is done by itself.

/// No act, no slot, no time.
pub const NONE: u32 = u32::MAX;

/// What an act finds in a block. A *slot* is a content of a block.
#[derive(Clone, Copy, PartialEq, Eq)]
pub enum Wants {
    Nothing,
    Slot(u32),
    /// Bytes, and no mark.
    AnyBytes,
    /// Bytes other than the slot's.
    OtherThan(u32),
}

/// What an act puts in a block.
#[derive(Clone, Copy, PartialEq, Eq)]
pub enum Gives {
    Nothing,
    Slot(u32),
    /// What a deallocated block may read as.
    Deallocated,
    Anything,
}

/// A block of an act. Blocks are counted from the first of the part.
#[derive(Clone, Copy)]
pub struct Cell {
    pub act: u32,
    pub block: u32,
    pub wants: Wants,
    pub gives: Gives,
}

/// Something that is done at one moment. Times are ranks among all times of the trace.
#[derive(Clone, Copy)]
pub struct Act {
    /// The number of its point.
    pub point: u32,
    pub from: u32,
    pub until: u32,
    /// Of a Deallocate the time at which it was over.
    pub over: u32,
    /// Whether it has to be done.
    pub sure: bool,
    /// Whether one of its blocks is done, and not all.
    pub any: bool,
    /// Whether it may be done any number of times.
    pub again: bool,
    /// Whether entries are before all of its point's blocks or after all.
    pub tied: bool,
    /// Whether it puts nothing.
    pub is_look: bool,
    /// The act that has to be done before.
    pub before: u32,
    /// The first of the acts of its point, and how many there are. They stand in a row.
    pub sibling: u32,
    pub siblings: u32,
    /// Its first cell, and how many there are. Their blocks follow one another.
    pub cell: u32,
    pub cells: u32,
}

/// Where there is no act.
pub const NO_ACT: Act = Act {
    point: NONE,
    from: NONE,
    until: 0,
    over: NONE,
    sure: false,
    any: false,
    again: false,
    tied: false,
    is_look: true,
    before: NONE,
    sibling: 0,
    siblings: 0,
    cell: 0,
    cells: 0,
};

/// Where there is no cell.
pub const NO_CELL: Cell = Cell {
    act: NONE,
    block: 0,
    wants: Wants::Nothing,
    gives: Gives::Nothing,
};

impl Act {
    /// The numbers of its cells.
    pub fn cells_end(&self) -> u32 {
        self.cell.saturating_add(self.cells)
    }

    /// One past the last of its point's acts.
    pub fn siblings_end(&self) -> u32 {
        self.sibling.saturating_add(self.siblings)
    }
}
