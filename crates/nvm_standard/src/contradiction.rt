use crate::fact::Fact;

/// Why no order of a table's points is an explanation.
#[derive(Debug, PartialEq, Eq, Drop)]
pub struct Contradiction {
    /// The facts, each by its rule and the facts before it.
    pub facts: Vec<Fact>,
    /// What is absurd then.
    pub conclusion: Conclusion,
}

/// What is absurd by the facts.
#[derive(Clone, Copy, Debug, PartialEq, Eq)]
pub enum Conclusion {
    /// A point comes at a block before itself.
    Loop,
    /// What the reader found in the block was put, and each other point that can serve it is excused. The reader surely is there.
    Nobody { reader: u32, block: u32 },
    /// The same of each block of a point that is done in one of them.
    Nowhere { reader: u32 },
}
